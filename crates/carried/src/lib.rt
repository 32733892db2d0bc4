// Sections: the record that a caller carries from one call to the next, and the tests by which number 19 turns a record back.
#![tactic(auto)]

ghost use Rattle.std.specs.Prelude.{◌≡◌, false};
ghost use Rattle.tape.specs.Nodes.{node_at};
ghost use Rattle.tape.specs.Reading.{bad_length};
ghost use Rattle.tape.specs.Forest.{Accepted};
ghost use Rattle.table.specs.Entries.{entry_of_info};
ghost use Rattle.table.specs.Inner.{Indexed};
ghost use Rattle.cursor.specs.Inner.{Spanned};
ghost use Rattle.definition.specs.Sections.{is_border};
ghost use Rattle.definition.specs.Carried.{number_too_large, list_too_long, bad_anchor, bad_start, anchor_node};
ghost use Rattle.carried.specs.Record.{record_of, bad_record};
ghost use Rattle.carried.specs.Inner.{is_start_of};

use cursor::{Document, Siblings};
use numbers::VersePart;
use table::MarkerInfo;

// What the walk knows between two sections: the node where the next begins, the flags, what is expected next, how many entries of the
// two working lists count, and the node of the last anchor or 0. Whatever a caller writes here has a defined outcome.
#[derive(Clone, Copy)]
pub struct CarriedRecord {
    pub place: u64,
    pub has_id: bool,
    pub has_chapter: bool,
    pub has_verse: bool,
    pub front_matter: bool,
    pub outside_warned: bool,
    pub expected_chapter: u64,
    pub expected_verse: VersePart,
    pub seen_len: u64,
    pub open_len: u64,
    pub anchor: u64,
}

// One more than the largest number that a label can have.
const LARGEST_EXPECTED: u64 = 4294967296;

// Whether a place is between top-level nodes: the number of one, or the root's link. The nodes are in order, so that none past the
// place is looked at.
pub fn is_border(doc: Document<'_, '_>, p: u64) -> bool
    requires { Accepted doc.source.now doc.tape.now }
    ensures { result ≡ is_border doc.entry.source.now doc.entry.tape.now p }
{
    let end = tape::link_at(doc.tape, 0) as usize;
    for i in Siblings::new(doc.tape, 1, end) {
        if p <= i as u64 {
            return i as u64 == p;
        }
    }
    end as u64 == p
}

// Whether an expected number is larger than any that can be expected.
pub fn has_large_number(rec: CarriedRecord) -> bool
    ensures { result ≡ number_too_large (record_of rec) }
{
    let verse = rec.expected_verse;
    LARGEST_EXPECTED < rec.expected_chapter || LARGEST_EXPECTED < verse.num
}

// Whether more entries of a working list count than there are nodes before the place, the root among them.
pub fn has_long_list(rec: CarriedRecord) -> bool
    ensures { result ≡ list_too_long (record_of rec) }
{
    rec.place < rec.seen_len || rec.place < rec.open_len
}

// Whether there is an anchor and it is no Chapter or Verse, as a node past the tape is none.
pub fn has_bad_anchor(tape: &[u8], rec: CarriedRecord) -> bool
    requires { bad_length tape.now ≡ false }
    ensures { result ≡ bad_anchor tape.now (record_of rec) }
{
    let anchor = rec.anchor as usize;
    anchor != 0 && (tape.len() / 16 <= anchor || !numbers::is_numbered(tape::kind_at(tape, anchor)))
}

// Whether a marker is a milestone start whose base has the length.
fn is_start_of(m: MarkerInfo, doc: Document<'_, '_>, i: usize, base_len: u32) -> bool
    requires { Spanned doc.source.now doc.tape.now i }
    ensures { result ≡ is_start_of (entry_of_info m) (node_at doc.entry.source.now doc.entry.tape.now i) base_len }
{
    if !state::is_of(m, table::MILESTONE) {
        return false;
    }
    let name = doc.marker_name(i);
    if !milestones::ends_in(name, b's') {
        return false;
    }
    let base = milestones::milestone_base(name);
    base_len as usize == base.len()
}

// Whether an open start, given by its two fields, is no milestone start with its base length. The node may be any number: its kind
// is looked at before its text, since nothing checks the root's span.
pub fn is_bad_start(
    table: &[u8],
    index: &[u64],
    entries: usize,
    doc: Document<'_, '_>,
    node: u32,
    base_len: u32,
) -> bool
    requires { (Indexed table.now index.now entries) × (Accepted doc.source.now doc.tape.now) }
    ensures { result ≡ bad_start table.now doc.entry.source.now doc.entry.tape.now (record { node = node; base_len = base_len }) }
{
    let i = node as usize;
    if doc.tape.len() / 16 <= i {
        return true;
    }
    if tape::kind_at(doc.tape, i) != tape::MARKER_OPEN {
        return true;
    }
    match cursor::marker_info(table, index, entries, doc.tape, i) {
        Some(m) => !is_start_of(m, doc, i, base_len),
        None => true,
    }
}

// Whether a record can't be this tape's by what it says itself, without a look at the open starts.
pub fn is_bad_record(doc: Document<'_, '_>, rec: CarriedRecord) -> bool
    requires { Accepted doc.source.now doc.tape.now }
    ensures { result ≡ bad_record doc.entry.source.now doc.entry.tape.now (record_of rec) }
{
    !is_border(doc, rec.place)
        || has_large_number(rec)
        || has_long_list(rec)
        || has_bad_anchor(doc.tape, rec)
}

// The node that a record's anchor stands for: itself if it is a top-level node before the place, else 0, which is no anchor.
pub fn anchor_node(doc: Document<'_, '_>, rec: CarriedRecord) -> usize
    requires { Accepted doc.source.now doc.tape.now }
    ensures { result ≡ anchor_node doc.entry.source.now doc.entry.tape.now (record_of rec) }
{
    if rec.place <= rec.anchor {
        return 0;
    }
    if is_border(doc, rec.anchor) {
        rec.anchor as usize
    } else {
        0
    }
}
