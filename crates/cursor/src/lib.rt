// The cursor: from a node of an accepted tape to its text, its name, its number and the nodes around it.
#![tactic(auto)]

ghost use Rattle.std.specs.Prelude.{◌≡◌, true, ◌+◌, ◌<◌, ◌≤◌, length, drop};
ghost use Rattle.text.specs.Pick.{cut};
ghost use Rattle.text.specs.Characters.{find};
ghost use Rattle.tape.specs.Nodes.{count, start_at, len_at, kind_at, link_at, node_at};
ghost use Rattle.tape.specs.Nodes as nodes;
ghost use Rattle.cursor.specs.Names.{past_one, ends_name, name_part, name_of};
ghost use Rattle.cursor.specs.Steps.{first_child, next_sibling, number_at, holds_nodes};
ghost use Rattle.table.specs.Entries.{info_of};
ghost use Rattle.cursor.specs.Info.{has_marker, info_at};
ghost use Rattle.cursor.specs.Inner.{is_kind, Spanned, Reached, PlainByte, Named};
ghost use Rattle.cursor.specs.InnerTurn.{siblings, SomeRun, left, HasRun};
ghost use Rattle.std.specs.Iterator.{YieldsFirst, item_count};
ghost use Rattle.text.specs.Inner.{Ended};
ghost use Rattle.table.specs.Inner.{Indexed};

use table::{MarkerId, MarkerInfo};

// A source with the tape of its nodes.
#[derive(Clone, Copy)]
pub struct Document<'a, 'b> {
    pub source: &'a [u8],
    pub tape: &'b [u8],
}

// Where a node's text stands in the source.
#[derive(Clone, Copy)]
pub struct NodeSpan {
    pub start: u32,
    pub len: u32,
}

// Where the name stands in a node's text.
#[derive(Clone, Copy)]
pub struct NameSpan {
    pub start: usize,
    pub end: usize,
}

pub fn span(tape: &[u8], i: usize) -> NodeSpan
    requires { i < count tape.now }
    ensures { (result.start ≡ start_at tape.now i) × (result.len ≡ len_at tape.now i) }
{
    NodeSpan {
        start: tape::start_at(tape, i),
        len: tape::len_at(tape, i),
    }
}

fn past_one(s: &[u8], i: usize, b: u8) -> usize
    requires { i ≤ length s.now }
    ensures { Reached s.now (past_one b s.now i) result }
{
    if i < s.len() && s[i] == b { i + 1 } else { i }
}

fn ends_name(cp: u32) -> bool
    ensures { result ≡ ends_name cp }
{
    text::is_blank(cp) || cp == 0x2A || cp == 0x7C || cp == 0x5C
}

// Whether a name goes on past a byte, by a few tests: they hold for letters and digits, of which most names consist.
fn is_plain(b: u8) -> bool
    ensures { result ≡ true → PlainByte b }
{
    0x2A < b && b < 0x7C && b != 0x5C
}

// The place of the first character from a place on that ends a name, or the length. A sequence of three bytes that begins with E4 to
// EC needs no decoding: no blank lies above U+3000.
fn name_end(s: &[u8], from: usize) -> usize
    requires { from ≤ length s.now }
    ensures { Ended s.now from (find ends_name (drop from s.now)) result }
{
    let mut i = from;
    // A while: it goes on by the character's width.
    while i < s.len() {
        if is_plain(s[i]) {
            i += 1;
            continue;
        }
        if text::holds(s[i], 0xE4, 0xEC) {
            if text::three_at(s, i) {
                i += 3;
                continue;
            }
        }
        let d = text::decode_at(s, i);
        if ends_name(d.cp) {
            return i;
        }
        i += d.width;
    }
    i
}

// Where the name begins in a node's text.
pub fn name_start(s: &[u8]) -> usize
    ensures { Reached s.now (name_part s.now).start result }
{
    let a = past_one(s, 0, 0x5C);
    past_one(s, a, 0x2B)
}

pub fn name_span(s: &[u8]) -> NameSpan
    ensures { Named s.now result }
{
    let b = name_start(s);
    NameSpan {
        start: b,
        end: name_end(s, b),
    }
}

// The name that a node's text begins with: a part of it.
pub fn name_of(s: &[u8]) -> &[u8]
    ensures { result.now ≡ name_of s.now }
{
    let at = name_span(s);
    let b = at.start;
    let e = at.end;
    &s[b..e]
}

impl<'a, 'b> Document<'a, 'b> {
    // The text of a node: a part of the source.
    pub fn text(self, i: usize) -> &'a [u8]
        requires { Spanned self.source.now self.tape.now i }
        ensures { result.now ≡ cut (nodes.span self.entry.tape.now i) self.entry.source.now }
    {
        let a = tape::start_at(self.tape, i) as usize;
        let e = a + tape::len_at(self.tape, i) as usize;
        &self.source[a..e]
    }

    // Where the name of a node stands in the source. If it isn't empty, this needs no test of the text's length.
    pub fn name_at(self, i: usize) -> usize
        requires { (Spanned self.source.now self.tape.now i) × (0 < length (name_of (cut (nodes.span self.tape.now i) self.source.now))) }
        ensures { result ≡ start_at self.entry.tape.now i + (name_part (cut (nodes.span self.entry.tape.now i) self.entry.source.now)).start }
    {
        let a = tape::start_at(self.tape, i) as usize;
        let b = a + tape::one_if(self.source[a] == 0x5C);
        b + tape::one_if(self.source[b] == 0x2B)
    }

    // The marker's name as written: a part of the source.
    pub fn marker_name(self, i: usize) -> &'a [u8]
        requires { Spanned self.source.now self.tape.now i }
        ensures { result.now ≡ name_of (cut (nodes.span self.entry.tape.now i) self.entry.source.now) }
    {
        name_of(self.text(i))
    }

    // Whether a node is of a kind; one whose text is blank counts if `blank` says so.
    pub fn is_kind(self, i: usize, kind: u8, blank: bool) -> bool
        requires { Spanned self.source.now self.tape.now i }
        ensures { result ≡ is_kind kind blank (node_at self.entry.source.now self.entry.tape.now i) }
    {
        tape::kind_at(self.tape, i) == kind && (blank || !text::is_blank_text(self.text(i)))
    }
}

fn holds_nodes(kind: u8) -> bool
    ensures { result ≡ holds_nodes kind }
{
    kind == tape::ROOT || kind == tape::MARKER_OPEN
}

#[tactic(auto, unfolding(crate::specs::Steps::first_child))]
pub fn first_child(tape: &[u8], i: usize) -> Option<usize>
    requires { i < count tape.now }
    ensures { result ≡ first_child tape.now i }
{
    if holds_nodes(tape::kind_at(tape, i)) && i + 1 < tape::link_at(tape, i) as usize {
        Some(i + 1)
    } else {
        None
    }
}

// The node past a node, with all inside it.
pub fn past_node(tape: &[u8], i: usize) -> usize
    requires { i < count tape.now }
    ensures { result ≡ Rattle.cursor.specs.Steps.past_node tape.now i }
{
    if holds_nodes(tape::kind_at(tape, i)) {
        tape::link_at(tape, i) as usize + 1
    } else {
        i + 1
    }
}

// An iterator over a run of siblings: the numbers of its nodes, without those inside them.
#[derive(Drop)]
pub struct Siblings<'a> {
    tape: &'a [u8],
    next: usize,
    end: usize,
}

impl<'a> Iterator for Siblings<'a> {
    type Item = usize;

    ghost can_next = { HasRun };

    ghost next_gives = { YieldsFirst left };

    ghost remaining = { item_count left };

    fn next(&mut self) -> Option<usize> {
        if self.end <= self.next {
            return None;
        }
        let i = self.next;
        self.next = past_node(self.tape, i);
        Some(i)
    }
}

impl<'a> Siblings<'a> {
    // The siblings from a node up to the end of its run.
    pub fn new(tape: &'a [u8], from: usize, to: usize) -> Siblings<'a>
        requires { SomeRun tape.now from to }
        ensures run { HasRun result }
        ensures items { left result ≡ siblings tape.now from to }
    {
        Siblings {
            tape,
            next: from,
            end: to,
        }
    }
}

pub fn next_sibling(tape: &[u8], i: usize) -> Option<usize>
    requires { i < count tape.now }
    ensures { result ≡ next_sibling tape.now i }
{
    let next = past_node(tape, i);
    if tape.len() / 16 <= next {
        return None;
    }
    if tape::is_close(tape::kind_at(tape, next)) {
        None
    } else {
        Some(next)
    }
}

pub fn number(tape: &[u8], i: usize) -> Option<u32>
    requires { i < count tape.now }
    ensures { result ≡ number_at tape.now i }
{
    let kind = tape::kind_at(tape, i);
    if kind == tape::CHAPTER {
        return Some(tape::link_at(tape, i));
    }
    if kind == tape::VERSE {
        return Some(tape::link_at(tape, i));
    }
    None
}

fn has_marker(kind: u8) -> bool
    ensures { result ≡ has_marker kind }
{
    (tape::MARKER_OPEN..=tape::VERSE).contains(&kind) || kind == tape::BLOCK_END
}

// The table entry of a node that bears a marker.
#[tactic(auto, unfolding(crate::specs::Info::info_at, crate::specs::Info::only_for))]
pub fn marker_info(
    table: &[u8],
    index: &[u64],
    entries: usize,
    tape: &[u8],
    i: usize,
) -> Option<MarkerInfo>
    requires { (Indexed table.now index.now entries) × (i < count tape.now) }
    ensures { info_of result ≡ info_at table.now tape.now i }
{
    if !has_marker(tape::kind_at(tape, i)) {
        return None;
    }
    MarkerId::info(table, index, entries, MarkerId(tape::marker_at(tape, i)))
}
