// The second pass over a text: writes its nodes over a lent list, in which the first pass has found room for them. No name is
// compared, since the first pass has found every close to be that of the innermost open marker.
#![tactic(auto)]

ghost use Rattle.std.specs.Prelude.{◌≡◌, ◌++◌, ◌+◌, ◌*◌, ◌≤◌, length, drop};
ghost use Rattle.table.specs.Entries;
ghost use Rattle.table.specs.Entries.{nth};
ghost use Rattle.table.specs.Inner.{Indexed, Chained};
ghost use Rattle.definition.specs.Examples.{row};
ghost use Rattle.reader_spec.specs.Rows.{rows_from, node_count};
ghost use Rattle.reader_spec.specs.InnerWriting.{put_row, laid};
ghost use Rattle.reader_spec.specs.Answer.{nodes_read, tape_read};
ghost use Rattle.pieces.specs.Shown.{link_by};
ghost use Rattle.pieces.specs.Depth.{depth_after};
ghost use Rattle.node_writer.specs.Written.{written, text_limit, Ready};
ghost use Rattle.second_pass.specs.Laid.{run_nodes_at, PieceReady, piece_laid, after_piece, Writable};

use node_writer::Written;
use pieces::Piece;

// A run: with no character or note open one Text, else a Text up to its first `|` and an Attribute from there on.
fn put_run(t: &mut [u8], w: Written, depth: usize, at: usize, l: &[u8]) -> Written
    requires { Ready t.old w (length (run_nodes_at depth at l.now)) (at + length l.now) }
    ensures { (t.new ≡ laid t.old w.next (rows_from w.next (run_nodes_at depth at l.now))) × (result ≡ written (w.next + length (run_nodes_at depth at l.now)) w.top) }
{
    if depth == 0 {
        return Written {
            next: node_writer::put_leaf(t, w.next, tape::TEXT, at, l.len()),
            top: w.top,
        };
    }
    let bar = pieces::run_bar(l);
    let next = node_writer::put_leaf(t, w.next, tape::TEXT, at, bar);
    Written {
        next: node_writer::put_leaf(t, next, tape::ATTRIBUTE, at + bar, l.len() - bar),
        top: w.top,
    }
}

// A Chapter or a Verse with this text.
fn put_number(
    table: &[u8],
    index: &[u64],
    entries: usize,
    t: &mut [u8],
    w: Written,
    kind: u8,
    m: u16,
    at: usize,
    l: &[u8],
) -> Written
    requires { Indexed table.now index.now entries × (16 * w.next + 16 ≤ length t.old) × (at + length l.now ≤ text_limit) }
    ensures { (t.new ≡ put_row t.old w.next (row kind m at (length l.now) (link_by (nth (Entries.entries table.now) m) l.now))) × (result ≡ written (w.next + 1) w.top) }
{
    let link = pieces::number_link(table, index, entries, m, l);
    Written {
        next: node_writer::put_row(t, w.next, kind, m, at as u32, l.len() as u32, link),
        top: w.top,
    }
}

// The nodes of a piece with the text `l`.
fn put_piece(
    table: &[u8],
    index: &[u64],
    entries: usize,
    t: &mut [u8],
    w: Written,
    p: Piece,
    depth: usize,
    at: usize,
    l: &[u8],
) -> Written
    requires { Indexed table.now index.now entries × PieceReady t.old w depth at l.now p }
    ensures { (t.new ≡ piece_laid table.now t.old w depth at l.now p) × (result ≡ after_piece t.old w depth at l.now p) }
{
    match p {
        Piece::Run(_) => put_run(t, w, depth, at, l),
        Piece::Close(n) => node_writer::put_close(t, w, tape::MARKER_CLOSE, at, n),
        Piece::Block(m, n) => {
            let ended = node_writer::put_block_end(t, w, at);
            node_writer::put_open(t, ended, m, at, n)
        }
        Piece::Chapter(m, _) => {
            let ended = node_writer::put_block_end(t, w, at);
            put_number(table, index, entries, t, ended, tape::CHAPTER, m, at, l)
        }
        Piece::Verse(m, _) => put_number(table, index, entries, t, w, tape::VERSE, m, at, l),
        Piece::Inline(m, n) => node_writer::put_open(t, w, m, at, n),
        Piece::Milestone(m, n, x, y) => node_writer::put_milestone(t, w, m, at, n, x, y),
        Piece::Fault(_) => w,
    }
}

// Writes the tape of a text: its root, the nodes of each piece, and the end of a block that is open at the text's end.
pub fn write_nodes(
    table: &[u8],
    index: &[u64],
    entries: usize,
    chains: &[u16],
    s: &[u8],
    t: &mut [u8],
    count: usize,
)
    requires { Indexed table.now index.now entries × Chained table.now chains.now × Writable table.now s.now t.old count }
    ensures { t.new ≡ tape_read table.now s.now ++ drop (16 * node_count (nodes_read table.now s.now)) t.old }
{
    let first = node_writer::put_row(t, 0, tape::ROOT, 0, 0, s.len() as u32, count as u32);
    let mut w = Written {
        next: first,
        top: 0,
    };
    let mut at: usize = 0;
    let mut depth: usize = 0;
    // A while: the step is the piece's size.
    while at < s.len() {
        let p = pieces::faultless_piece_at(table, index, entries, chains, &s[at..]);
        let to = at + pieces::size_of(p, s.len() - at);
        w = put_piece(table, index, entries, t, w, p, depth, at, &s[at..to]);
        depth = pieces::depth_after(p, depth);
        at = to;
    }
    let _ = node_writer::put_block_end(t, w, at);
}
