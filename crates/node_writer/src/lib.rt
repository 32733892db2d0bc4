// Writes the nodes of a tape over a lent list, 16 bytes a node, in the order of the text.
#![tactic(auto)]

ghost use Rattle.std.specs.Prelude.{◌≡◌, [], ◌+◌, ◌*◌, ◌≤◌, length};
ghost use Rattle.std.proofs.lemmas.List.Edits.{sets};
ghost use Rattle.tape.specs.Nodes.{marker_open_kind};
ghost use Rattle.definition.specs.Examples.{row, four};
ghost use Rattle.reader_spec.specs.Pass.{milestone_nodes};
ghost use Rattle.reader_spec.specs.Rows.{rows_from};
ghost use Rattle.reader_spec.specs.InnerWriting.{put_row, put_link, laid};
ghost use Rattle.node_writer.specs.Written.{text_limit, leaf_rows, Ready, written, closed, after_close, block_ends, ended_block, after_block};

// Where the writing is: the next node's number, and the innermost open node, 0 for none. Until its close comes, the link of
// an open node is the number of the open node around it, so that no list of open nodes is needed.
#[derive(Clone, Copy)]
pub struct Written {
    pub next: usize,
    pub top: usize,
}

// Four bytes, the lowest first.
fn put_four(t: &mut [u8], at: usize, n: u32)
    requires { at + 4 ≤ length t.old }
    ensures { t.new ≡ sets t.old at (four n) }
{
    t[at..at + 4].copy_from_slice(&n.to_le_bytes());
}

// Node n, with flags 0; gives the number after it.
pub fn put_row(
    t: &mut [u8],
    n: usize,
    kind: u8,
    marker: u16,
    start: u32,
    len: u32,
    link: u32,
) -> usize
    requires { 16 * n + 16 ≤ length t.old }
    ensures { (t.new ≡ put_row t.old n (row kind marker start len link)) × (result ≡ n + 1) }
{
    let at = 16 * n;
    t[at] = kind;
    t[at + 1] = 0;
    t[at + 2..at + 4].copy_from_slice(&marker.to_le_bytes());
    put_four(t, at + 4, start);
    put_four(t, at + 8, len);
    put_four(t, at + 12, link);
    n + 1
}

// The link of node o, and nothing else of it.
#[tactic(auto, unfolding(reader_spec::specs::InnerWriting::put_link))]
pub fn put_link(t: &mut [u8], o: usize, link: u32)
    requires { 16 * o + 16 ≤ length t.old }
    ensures { t.new ≡ put_link t.old o link }
{
    put_four(t, 16 * o + 12, link);
}

// A Text or an Attribute as node n; of no bytes it is no node.
#[tactic(auto, unfolding(reader_spec::specs::InnerWriting::laid))]
pub fn put_leaf(t: &mut [u8], n: usize, kind: u8, at: usize, len: usize) -> usize
    requires { (16 * (n + length (leaf_rows kind at len)) ≤ length t.old) × (at + len ≤ text_limit) }
    ensures { (t.new ≡ laid t.old n (leaf_rows kind at len)) × (result ≡ n + length (leaf_rows kind at len)) }
{
    if len == 0 {
        return n;
    }
    put_row(t, n, kind, 0, at as u32, len as u32, 0)
}

// A MarkerOpen, which is the innermost open node from now on.
pub fn put_open(t: &mut [u8], w: Written, m: u16, at: usize, len: usize) -> Written
    requires { Ready t.old w 1 (at + len) }
    ensures { (t.new ≡ put_row t.old w.next (row marker_open_kind m at len w.top)) × (result ≡ written (w.next + 1) w.next) }
{
    let next = put_row(
        t,
        w.next,
        tape::MARKER_OPEN,
        m,
        at as u32,
        len as u32,
        w.top as u32,
    );
    Written { next, top: w.next }
}

// The close of the innermost open node, with its marker: a MarkerClose or a BlockEnd. The open node's link is read before it
// is set to the number of the close, for it says which node is the innermost after that.
pub fn put_close(t: &mut [u8], w: Written, kind: u8, at: usize, len: usize) -> Written
    requires { Ready t.old w 1 (at + len) }
    ensures { (t.new ≡ closed t.old w kind at len) × (result ≡ after_close t.old w) }
{
    let m = tape::marker_at(t, w.top);
    let outer = tape::link_at(t, w.top);
    put_link(t, w.top, w.next as u32);
    let next = put_row(t, w.next, kind, m, at as u32, len as u32, 0);
    Written {
        next,
        top: outer as usize,
    }
}

// The BlockEnd of the open block, if one is open.
pub fn put_block_end(t: &mut [u8], w: Written, at: usize) -> Written
    requires { Ready t.old w (block_ends w) at }
    ensures { (t.new ≡ ended_block t.old w at) × (result ≡ after_block t.old w) }
{
    if w.top == 0 {
        return w;
    }
    put_close(t, w, tape::BLOCK_END, at, 0)
}

// A milestone: its open of n bytes, a Text over x blanks, an Attribute of y bytes, and its close `\*`. The two between are no
// nodes where they have no bytes.
pub fn put_milestone(
    t: &mut [u8],
    w: Written,
    m: u16,
    at: usize,
    n: usize,
    x: usize,
    y: usize,
) -> Written
    requires { Ready t.old w (length (milestone_nodes m at n x y)) (at + n + x + y + 2) }
    ensures { (t.new ≡ laid t.old w.next (rows_from w.next (milestone_nodes m at n x y))) × (result ≡ written (w.next + length (milestone_nodes m at n x y)) w.top) }
{
    let opened = put_open(t, w, m, at, n);
    let blanks = at + n;
    let second = put_leaf(t, opened.next, tape::TEXT, blanks, x);
    let bar = blanks + x;
    let third = put_leaf(t, second, tape::ATTRIBUTE, bar, y);
    put_close(
        t,
        Written {
            next: third,
            top: opened.top,
        },
        tape::MARKER_CLOSE,
        bar + y,
        2,
    )
}
