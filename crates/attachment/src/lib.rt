// Alternate and published numbers: which of them are attached to a chapter or a verse.
#![tactic(auto)]

ghost use Rattle.std.specs.Prelude.{◌≡◌, [], ◌∷◌, ◌++◌, ◌<◌, length};
ghost use Rattle.tape.specs.Nodes.{node_at};
ghost use Rattle.tape.specs.Forest.{forest};
ghost use Rattle.cursor.specs.Inner.{Spanned, Run};
ghost use Rattle.attachment.specs.Attached.{number_letter, is_alternate, is_published, is_blank, plain, attached_numbers, start_offsets, starts_of, among};
ghost use Rattle.attachment.specs.Inner.{claims_at};

use cursor::{Document, Siblings};

// The start offsets of the numbers that are attached to one chapter or verse, at most one of each sort.
// How many they are, and the first and the second; fields pass in registers, where an enum would be copied.
#[derive(Clone, Copy)]
pub struct Attached {
    pub count: u32,
    pub first: u32,
    pub second: u32,
}

fn letter(kind: u8) -> u8
    ensures { result ≡ number_letter kind }
{
    if kind == tape::CHAPTER { b'c' } else { b'v' }
}

#[tactic(auto, using(crate::proofs::Sorts::pairs_equal), unfolding(crate::specs::Attached::is_alternate))]
fn is_alternate(kind: u8, name: &[u8]) -> bool
    ensures { result ≡ is_alternate kind name.now }
{
    name[..] == [letter(kind), b'a']
}

#[tactic(auto, using(crate::proofs::Sorts::pairs_equal), unfolding(crate::specs::Attached::is_published))]
fn is_published(kind: u8, name: &[u8]) -> bool
    ensures { result ≡ is_published kind name.now }
{
    name[..] == [letter(kind), b'p']
}

// Whether a node is blank or empty text.
pub fn is_blank(doc: Document<'_, '_>, i: usize) -> bool
    requires { Spanned doc.source.now doc.tape.now i }
    ensures { result ≡ is_blank (node_at doc.entry.source.now doc.entry.tape.now i) }
{
    tape::kind_at(doc.tape, i) == tape::TEXT && text::is_blank_text(doc.text(i))
}

// Whether a run of siblings has no marker in it.
pub fn is_plain_text(doc: Document<'_, '_>, from: usize, to: usize) -> bool
    requires { Run doc.source.now doc.tape.now from to }
    ensures { result ≡ plain (forest doc.entry.source.now doc.entry.tape.now from to) }
{
    Siblings::new(doc.tape, from, to).all(|i| tape::kind_at(doc.tape, i) != tape::MARKER_OPEN)
}

// Whether a number of the name has its place still free.
fn claims(kind: u8, alt: bool, pubn: bool, name: &[u8]) -> bool
    ensures { result ≡ Rattle.attachment.specs.Attached.claims kind alt pubn name.now }
{
    is_alternate(kind, name) && !alt || is_published(kind, name) && !pubn
}

// Whether a node is an open marker whose name claims a free place.
fn claims_at(doc: Document<'_, '_>, i: usize, kind: u8, alt: bool, pubn: bool) -> bool
    requires { Spanned doc.source.now doc.tape.now i }
    ensures { result ≡ claims_at kind alt pubn (node_at doc.entry.source.now doc.entry.tape.now i) }
{
    tape::kind_at(doc.tape, i) == tape::MARKER_OPEN && claims(kind, alt, pubn, doc.marker_name(i))
}

// One more start offset; never a third, since each sort is attached once.
fn added(a: Attached, start: u32) -> Attached
    requires { length (starts_of a) < 2 }
    ensures { starts_of result ≡ starts_of a ++ (start ∷ []) }
{
    if a.count == 0 {
        return Attached {
            count: 1,
            first: start,
            second: 0,
        };
    }
    Attached {
        count: 2,
        first: a.first,
        second: start,
    }
}

// The numbers attached to an anchor of the kind (3 a chapter, 4 a verse), among the siblings that follow it.
pub fn attached_numbers(doc: Document<'_, '_>, kind: u8, from: usize, to: usize) -> Attached
    requires { Run doc.source.now doc.tape.now from to }
    ensures { starts_of result ≡ start_offsets (attached_numbers kind (forest doc.entry.source.now doc.entry.tape.now from to)) }
{
    let mut found = Attached {
        count: 0,
        first: 0,
        second: 0,
    };
    let mut alt = false;
    let mut pubn = false;
    for i in Siblings::new(doc.tape, from, to) {
        if is_blank(doc, i) {
            continue;
        }
        if !claims_at(doc, i, kind, alt, pubn) {
            return found;
        }
        found = added(found, tape::start_at(doc.tape, i));
        if !is_plain_text(doc, i + 1, tape::link_at(doc.tape, i) as usize) {
            return found;
        }
        let name = doc.marker_name(i);
        alt |= is_alternate(kind, name);
        pubn |= is_published(kind, name);
    }
    found
}

// Whether a number that starts at the offset is among those attached.
pub fn is_attached(numbers: Attached, at: u32) -> bool
    ensures { result ≡ among at (starts_of numbers) }
{
    [numbers.first, numbers.second]
        .iter()
        .take(numbers.count as usize)
        .any(|start| *start == at)
}
