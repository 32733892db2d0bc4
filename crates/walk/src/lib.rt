// The walk over a document: a run of siblings, and the visit of one node, each one level deeper.
#![tactic(auto)]

ghost use Rattle.std.specs.Prelude.{◌≡◌, [], ◌+◌, ◌<◌, ◌≤◌, length};
ghost use Rattle.tape.specs.Nodes.{node_at, kind_at};
ghost use Rattle.tape.specs.Nodes.{count};
ghost use Rattle.tape.specs.Forest.{forest, Nested, Accepted};
ghost use Rattle.table.specs.Entries.{entry_of_info};
ghost use Rattle.numbers.specs.Label.{numbered};
ghost use Rattle.cursor.specs.Inner.{Run, Spanned};
ghost use Rattle.attachment.specs.Attached.{starts_of};
ghost use Rattle.definition.specs.Checks.{leaf_checked};
ghost use Rattle.state.specs.Inner.{state_of, context_of, anchor_of, starts_for, counts_of, VerseBounded};
ghost use Rattle.walk.specs.Inner.{Ready, RunWalked, Visited, Visitable, Anchored, walk_at, visit_findings, LeafPassed, numbers_after, Passable, PassedBy, can_skip_children};
ghost use Rattle.table.specs.Inner.{Indexed};
ghost use Rattle.findings.specs.Inner.{Room};

use attachment::Attached;
use cursor::{Document, Siblings};
use definition::OpenStart;
use state::{Context, State};
use table::MarkerInfo;

// The numbers attached to an anchor, among the siblings up to `to`; none without an anchor.
fn anchored(doc: Document<'_, '_>, depth: usize, anchor: usize, from: usize, to: usize) -> Attached
    requires { (Accepted doc.source.now doc.tape.now) × (Nested doc.tape.now depth from to) × (to ≤ count doc.tape.now) × (Anchored doc.tape.now depth anchor from) }
    ensures { starts_of result ≡ starts_for (anchor_of doc.entry.source.now doc.entry.tape.now anchor from) (forest doc.entry.source.now doc.entry.tape.now from to) }
{
    if anchor == 0 {
        return Attached {
            count: 0,
            first: 0,
            second: 0,
        };
    }
    attachment::attached_numbers(
        doc,
        tape::kind_at(doc.tape, anchor),
        cursor::past_node(doc.tape, anchor),
        to,
    )
}

// The numbers attached after a leaf, to those that follow it: of a new anchor, or unchanged.
fn numbers_after(
    doc: Document<'_, '_>,
    i: usize,
    next: usize,
    to: usize,
    numbers: Attached,
) -> Attached
    requires { (i < count doc.tape.now) × (Run doc.source.now doc.tape.now next to) }
    ensures { starts_of result ≡ numbers_after doc.entry.source.now doc.entry.tape.now i next to (starts_of numbers) }
{
    let kind = tape::kind_at(doc.tape, i);
    if kind == tape::CHAPTER {
        return attachment::attached_numbers(doc, kind, next, to);
    }
    if kind == tape::VERSE {
        return attachment::attached_numbers(doc, kind, next, to);
    }
    numbers
}

// The record after a leaf: a Chapter or a Verse is the new anchor.
fn leaf(
    table: &[u8],
    index: &[u64],
    entries: usize,
    doc: Document<'_, '_>,
    i: usize,
    context: Context,
    rec: State,
    seen: &mut [u32],
    list: &mut [u64],
) -> State
    requires { (Indexed table.now index.now entries) × (Spanned doc.source.now doc.tape.now i) × VerseBounded rec × (rec.seen_len < length seen.old) × (rec.verses < 4611686018427387904) × Room (counts_of rec) (leaf_checked table.now (context_of context) (state_of doc.source.now doc.tape.now seen.old [] rec) (node_at doc.source.now doc.tape.now i)).findings }
    ensures { LeafPassed table.now doc.entry.source.now doc.entry.tape.now (context_of context) i seen.old list.old rec seen.new list.new result }
{
    let r = chapter_verse::visit_leaf(table, index, entries, doc, i, context, rec, seen, list);
    let kind = tape::kind_at(doc.tape, i);
    if kind == tape::CHAPTER {
        return state::with_anchor(r, i);
    }
    if kind == tape::VERSE {
        return state::with_anchor(r, i);
    }
    r
}

// Whether a node is a Chapter or a Verse.
fn is_number(tape: &[u8], i: usize) -> bool
    requires { i < count tape.now }
    ensures { result ≡ numbered (kind_at tape.now i) }
{
    numbers::is_numbered(tape::kind_at(tape, i))
}

// The visit of a leaf, to which the record is lent: a Chapter or a Verse updates it, and any other node is skipped. It gives the
// numbers attached to what follows, from `next` on.
fn visit_leaf(
    table: &[u8],
    index: &[u64],
    entries: usize,
    doc: Document<'_, '_>,
    i: usize,
    next: usize,
    to: usize,
    context: Context,
    numbers: Attached,
    rec: &mut State,
    seen: &mut [u32],
    list: &mut [u64],
) -> Attached
    requires { Passable table.now index.now entries doc.source.now doc.tape.now (context_of context) i next to seen.old rec.old }
    ensures { PassedBy table.now doc.entry.source.now doc.entry.tape.now (context_of context) i next to numbers seen.old list.old rec.old seen.new list.new rec.new result }
{
    if is_number(doc.tape, i) {
        let before = *rec;
        *rec = leaf(table, index, entries, doc, i, context, before, seen, list);
        return numbers_after(doc, i, next, to, numbers);
    }
    numbers
}

// Whether a run has no marker, no chapter and no verse. Most markers hold such a run, and its walk is skipped.
fn can_skip_children(doc: Document<'_, '_>, from: usize, to: usize) -> bool
    requires { Run doc.source.now doc.tape.now from to }
    ensures { result ≡ can_skip_children (forest doc.entry.source.now doc.entry.tape.now from to) }
{
    Siblings::new(doc.tape, from, to).all(|i| {
        let kind = tape::kind_at(doc.tape, i);
        kind != tape::MARKER_OPEN && !numbers::is_numbered(kind)
    })
}

// The findings of a marker and of what lies in it. The record is lent, and updated.
#[cycle(visit_walk)]
fn visit(
    table: &[u8],
    index: &[u64],
    entries: usize,
    doc: Document<'_, '_>,
    i: usize,
    to: usize,
    depth: usize,
    m: MarkerInfo,
    context: Context,
    numbers: Attached,
    rec: &mut State,
    seen: &mut [u32],
    opens: &mut [OpenStart],
    list: &mut [u64],
)
    requires { (Ready table.now index.now entries doc.source.now doc.tape.now depth i to seen.old opens.old rec.old) × (Visitable doc.source.now doc.tape.now i to numbers rec.old) × (m.name_start + m.name_len ≤ length table.now) × Room (counts_of rec.old) (visit_findings table.now doc.source.now doc.tape.now (context_of context) (entry_of_info m) i to seen.old opens.old rec.old) }
    ensures { Visited table.now doc.entry.source.now doc.entry.tape.now (context_of context) (entry_of_info m) i to seen.old opens.old list.old rec.old seen.new opens.new list.new rec.new }
{
    if marker_checks::can_skip_marker(table, m, doc, i, context, rec.has_chapter) {
        return;
    }
    let before = *rec;
    let marked = marker_checks::visit_marker(table, m, doc, i, to, context, numbers, before, list);
    let paired = milestones::milestone(m, doc, i, opens, marked, list);
    let from = i + 1;
    let link = tape::link_at(doc.tape, i) as usize;
    if can_skip_children(doc, from, link) {
        *rec = state::with_anchor(paired, before.anchor);
        return;
    }
    *rec = state::with_anchor(paired, 0);
    let deeper = depth - 1;
    let inner = state::inside(context, m);
    walk(
        table, index, entries, doc, from, link, deeper, inner, rec, seen, opens, list,
    );
    *rec = state::with_anchor(*rec, before.anchor);
}

// The findings of the nodes from one up to another, the record after them with its lists, and the last anchor.
#[cycle(visit_walk)]
pub fn walk(
    table: &[u8],
    index: &[u64],
    entries: usize,
    doc: Document<'_, '_>,
    from: usize,
    to: usize,
    depth: usize,
    context: Context,
    rec: &mut State,
    seen: &mut [u32],
    opens: &mut [OpenStart],
    list: &mut [u64],
)
    requires { (Ready table.now index.now entries doc.source.now doc.tape.now depth from to seen.old opens.old rec.old) × Room (counts_of rec.old) (walk_at table.now doc.source.now doc.tape.now (context_of context) from to seen.old opens.old rec.old).findings }
    ensures { RunWalked doc.entry.source.now doc.entry.tape.now (walk_at table.now doc.entry.source.now doc.entry.tape.now (context_of context) from to seen.old opens.old rec.old) depth from to list.old rec.old seen.new opens.new list.new rec.new }
{
    let mut numbers = anchored(doc, depth, rec.anchor, from, to);
    // A while: the visit of a leaf takes the node that follows.
    let mut i = from;
    while i < to {
        let here = i;
        i = cursor::past_node(doc.tape, here);
        if tape::kind_at(doc.tape, here) == tape::MARKER_OPEN {
            // A marker without a table entry is passed over with all below it.
            let Some(m) = cursor::marker_info(table, index, entries, doc.tape, here) else {
                continue;
            };
            visit(
                table, index, entries, doc, here, to, depth, m, context, numbers, rec, seen, opens,
                list,
            );
        } else {
            numbers = visit_leaf(
                table, index, entries, doc, here, i, to, context, numbers, rec, seen, list,
            );
        }
    }
}
