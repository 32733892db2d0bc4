// The tape: nodes of 16 bytes, and the check of numbers 4 to 8.
#![tactic(auto)]

ghost use Rattle.std.specs.Prelude.{◌≡◌, true, false, not, ◌||◌, [], ◌+◌, ◌-◌, ◌<◌, ◌≤◌, length};
ghost use Rattle.std.specs.Prelude.{None};
ghost use Rattle.text.specs.Pick.{within, pick};
ghost use Rattle.text.specs.Characters.{is_boundary};
ghost use Rattle.tape.specs.Nodes.{count, half, word, kind_at, marker_at, start_at, len_at, link_at, is_close, kind_of, marker_open_kind, error_kind};
ghost use Rattle.refusals.specs.Reasons.{refusal_in};
ghost use Rattle.tape.specs.Reading.{bad_span, opens_to, tape_refusal};
ghost use Rattle.tape.specs.Inner.{Sized, Opened, Closed, Held, Stepped, span_after, root_by, lastly, from_one, Clear, Paired};

use refusals::{Reason, Refusal};

#[derive(Clone, Copy)]
pub enum NodeKind {
    Root,
    MarkerOpen,
    MarkerClose,
    Chapter,
    Verse,
    Text,
    Attribute,
    BlockEnd,
    Error,
}

// The kinds by number, in the order of `NodeKind`.
pub const ROOT: u8 = 0;

pub const MARKER_OPEN: u8 = 1;

pub const MARKER_CLOSE: u8 = 2;

pub const CHAPTER: u8 = 3;

pub const VERSE: u8 = 4;

pub const TEXT: u8 = 5;

pub const ATTRIBUTE: u8 = 6;

pub const BLOCK_END: u8 = 7;

pub const ERROR: u8 = 8;

fn byte(t: &[u8], k: usize) -> u32
    requires { k < length t.now }
    ensures { (result ≡ Rattle.tape.specs.Nodes.byte t.now k) × (result < 256) }
{
    t[k] as u32
}

fn read_half(t: &[u8], k: usize) -> u16
    requires { k + 2 ≤ length t.now }
    ensures { result ≡ half t.now k }
{
    (byte(t, k) + 256 * byte(t, k + 1)) as u16
}

fn read_word(t: &[u8], k: usize) -> u32
    requires { k + 4 ≤ length t.now }
    ensures { result ≡ word t.now k }
{
    byte(t, k) + 256 * byte(t, k + 1) + 65536 * byte(t, k + 2) + 16777216 * byte(t, k + 3)
}

// The fields of a node.
pub fn kind_at(tape: &[u8], i: usize) -> u8
    requires { i < count tape.now }
    ensures { result ≡ kind_at tape.now i }
{
    tape[16 * i]
}

// The kind of a node, where it is one of the nine.
pub fn kind(tape: &[u8], i: usize) -> NodeKind
    requires { (i < count tape.now) × (kind_at tape.now i ≤ 8) }
    ensures { kind_of result ≡ kind_at tape.now i }
{
    let k = kind_at(tape, i);
    match k {
        ROOT => NodeKind::Root,
        MARKER_OPEN => NodeKind::MarkerOpen,
        MARKER_CLOSE => NodeKind::MarkerClose,
        CHAPTER => NodeKind::Chapter,
        VERSE => NodeKind::Verse,
        TEXT => NodeKind::Text,
        ATTRIBUTE => NodeKind::Attribute,
        BLOCK_END => NodeKind::BlockEnd,
        _ => NodeKind::Error,
    }
}

pub fn marker_at(tape: &[u8], i: usize) -> u16
    requires { i < count tape.now }
    ensures { result ≡ marker_at tape.now i }
{
    read_half(tape, 16 * i + 2)
}

pub fn start_at(tape: &[u8], i: usize) -> u32
    requires { i < count tape.now }
    ensures { result ≡ start_at tape.now i }
{
    read_word(tape, 16 * i + 4)
}

pub fn len_at(tape: &[u8], i: usize) -> u32
    requires { i < count tape.now }
    ensures { result ≡ len_at tape.now i }
{
    read_word(tape, 16 * i + 8)
}

pub fn link_at(tape: &[u8], i: usize) -> u32
    requires { i < count tape.now }
    ensures { result ≡ link_at tape.now i }
{
    read_word(tape, 16 * i + 12)
}

pub fn is_close(kind: u8) -> bool
    ensures { result ≡ is_close kind }
{
    kind == MARKER_CLOSE || kind == BLOCK_END
}

// Whether a node's span leaves the source or splits a character.
fn bad_span(source: &[u8], tape: &[u8], i: usize) -> bool
    requires { i < count tape.now }
    ensures { result ≡ bad_span source.now tape.now i }
{
    let start = start_at(tape, i) as usize;
    let end = start + len_at(tape, i) as usize;
    source.len() < end
        || !text::is_char_boundary(source, start)
        || !text::is_char_boundary(source, end)
}

// The first bad span so far, if there is one.
fn span_step(source: &[u8], tape: &[u8], i: usize, first: Option<usize>) -> Option<usize>
    requires { i < count tape.now }
    ensures { result ≡ span_after source.now tape.now i first }
{
    if first.is_none() && bad_span(source, tape, i) {
        Some(i)
    } else {
        first
    }
}

// How many opens are not yet closed after an open node: its link is awaited, unless 64 are awaited before it.
fn open_step(link: u32, i: usize, stack: &mut [u32], depth: usize) -> Result<usize, Refusal>
    requires { (length stack.old ≡ 64) × (depth ≤ 64) }
    ensures { Opened link i stack.old stack.new depth result }
{
    if 64 <= depth {
        return Err(Reason::TooDeep.at(i));
    }
    stack[depth] = link;
    Ok(depth + 1)
}

// The same after a close: it is the innermost awaited link, or the root's.
fn close_step(root: u32, i: usize, stack: &[u32], depth: usize) -> Result<usize, Refusal>
    requires { (length stack.now ≡ 64) × (depth ≤ 64) }
    ensures { Closed root i stack.now depth result }
{
    if depth == 0 {
        return if root as usize == i {
            Ok(0)
        } else {
            Err(Reason::BrokenLinks.at(i))
        };
    }
    let top = depth - 1;
    if stack[top] as usize == i {
        Ok(top)
    } else {
        Err(Reason::BrokenLinks.at(i))
    }
}

// The reading after a node: how many opens are not yet closed, or what it stopped with.
fn step(
    tape: &[u8],
    root: u32,
    i: usize,
    kind: u8,
    stack: &mut [u32],
    reading: Result<usize, Refusal>,
) -> Result<usize, Refusal>
    requires { Held tape.now root i kind stack.old reading }
    ensures { Stepped tape.now i stack.old stack.new reading result }
{
    let depth = reading?;
    if kind == MARKER_OPEN {
        return open_step(link_at(tape, i), i, stack, depth);
    }
    if is_close(kind) {
        return close_step(root, i, stack, depth);
    }
    Ok(depth)
}

// Whether an open so far has the root's link.
fn taken_step(tape: &[u8], root: u32, i: usize, kind: u8, taken: bool) -> bool
    requires { (i < count tape.now) × (kind ≡ kind_at tape.now i) }
    ensures { result ≡ (taken || opens_to tape.now root i) }
{
    taken || (kind == MARKER_OPEN && link_at(tape, i) == root)
}

// Whether the root's link is good, when it is known whether an open has it too.
fn good_root(tape: &[u8], n: usize, root: u32, taken: bool) -> bool
    requires { Sized tape.now n }
    ensures { result ≡ root_by root n (is_close (kind_at tape.now root)) taken }
{
    let link = root as usize;
    link == n || (link == n - 1 && is_close(kind_at(tape, link)) && !taken)
}

// The answer when all nodes are read, their kinds being good.
fn answer(
    tape: &[u8],
    n: usize,
    root: u32,
    span: Option<usize>,
    taken: bool,
    reading: Result<usize, Refusal>,
) -> Result<(), Refusal>
    requires { Sized tape.now n }
    ensures { refusal_in result ≡ lastly tape.now n root span taken reading }
{
    if let Some(i) = span {
        return Err(Reason::BadNodeSpan.at(i));
    }
    if !good_root(tape, n, root, taken) {
        return Err(Reason::BrokenLinks.at(0));
    }
    let depth = reading?;
    if depth != 0 {
        return Err(Reason::BrokenLinks.at(n));
    }
    Ok(())
}

fn bad_kind(kind: u8) -> bool
    ensures { result ≡ not (within marker_open_kind error_kind kind) }
{
    !(MARKER_OPEN..=ERROR).contains(&kind)
}

// Numbers 5 to 8 from node 1 on, in one pass: a bad kind comes before all others, and the end decides among the rest.
fn scan_each(source: &[u8], tape: &[u8], n: usize) -> Result<(), Refusal>
    requires { Sized tape.now n }
    ensures { refusal_in result ≡ from_one source.now tape.now n }
{
    let root = link_at(tape, 0);
    let mut stack = [0u32; 64];
    let mut span = None;
    let mut taken = false;
    let mut reading = Ok(0);
    for i in 1..n {
        let kind = kind_at(tape, i);
        if bad_kind(kind) {
            return Err(Reason::BadNodeKind.at(i));
        }
        span = span_step(source, tape, i, span);
        taken = taken_step(tape, root, i, kind, taken);
        reading = step(tape, root, i, kind, &mut stack, reading);
    }
    answer(tape, n, root, span, taken, reading)
}

// Whether the byte at a place shows that a character begins there, or the text ends. A place that fails may still be good.
fn is_clear(s: &[u8], at: usize) -> bool
    requires { at ≤ length s.now }
    ensures { result ≡ true → is_boundary s.now at ≡ true }
{
    at == s.len() || s[at] / 64 != 2
}

// The same, beside a place that is known to be good.
fn is_clear_from(s: &[u8], at: usize, good: usize) -> bool
    requires { (at ≤ length s.now) × (is_boundary s.now good ≡ true) }
    ensures { result ≡ true → is_boundary s.now at ≡ true }
{
    at == good || is_clear(s, at)
}

// Where a node's span ends.
fn end_at(tape: &[u8], i: usize) -> usize
    requires { i < count tape.now }
    ensures { result ≡ start_at tape.now i + len_at tape.now i }
{
    start_at(tape, i) as usize + len_at(tape, i) as usize
}

// Whether both ends of a node's span show that it is good. Most spans start where the one before ends, which is known to be a
// good place.
fn is_clear_span(source: &[u8], tape: &[u8], i: usize, before: usize) -> bool
    requires { (i < count tape.now) × (is_boundary source.now before ≡ true) }
    ensures { result ≡ true → bad_span source.now tape.now i ≡ false }
{
    let start = start_at(tape, i) as usize;
    let to = end_at(tape, i);
    to <= source.len() && is_clear_from(source, start, before) && is_clear(source, to)
}

// Whether the kinds and spans from node 1 on show that they are good. The kinds of nodes come in an order that no
// processor predicts, so no jump here depends on it.
fn are_clear(source: &[u8], tape: &[u8], n: usize) -> bool
    requires { Sized tape.now n }
    ensures { result ≡ true → Clear source.now tape.now n 1 }
{
    let mut before: usize = 0;
    for i in 1..n {
        if !is_clear_span(source, tape, i, before) {
            return false;
        }
        if bad_kind(kind_at(tape, i)) {
            return false;
        }
        before = end_at(tape, i);
    }
    true
}

pub fn one_if(b: bool) -> usize
    ensures { (result ≡ pick b 1 0) × (result ≤ 1) }
{
    if b { 1 } else { 0 }
}

// Whether each close before the root's link is the innermost awaited one, and all opens are closed there, so that none has the
// root's link. Without jumps by kind, as above: each node's link is put above the top, where only an open node's
// counts. The lowest element stays 0, which is no node from 1 on, so that a close with nothing awaited fails.
fn are_paired(tape: &[u8], root: u32) -> bool
    requires { root ≤ count tape.now }
    ensures { result ≡ true → Paired tape.now (count tape.now) root (1 + (root - 1)) [] }
{
    let mut stack = [0u32; 66];
    let mut depth: usize = 0;
    for i in 1..root as usize {
        let kind = kind_at(tape, i);
        let link = link_at(tape, i);
        let opens = kind == MARKER_OPEN;
        let closes = is_close(kind);
        let top = stack[depth];
        stack[depth + 1] = link;
        if (closes & (top != i as u32)) | (opens & (depth == 64)) {
            return false;
        }
        depth = depth + one_if(opens) - one_if(closes);
    }
    depth == 0
}

// Whether two quick passes show that no number from 5 on is given. A tape that fails may still be good.
fn is_settled(source: &[u8], tape: &[u8], n: usize) -> bool
    requires { Sized tape.now n }
    ensures { result ≡ true → from_one source.now tape.now n ≡ None }
{
    let root = link_at(tape, 0);
    good_root(tape, n, root, false) && are_clear(source, tape, n) && are_paired(tape, root)
}

// Numbers 5 to 8 from node 1 on. Most tapes are good, and two quick passes show it.
fn scan(source: &[u8], tape: &[u8], n: usize) -> Result<(), Refusal>
    requires { Sized tape.now n }
    ensures { refusal_in result ≡ from_one source.now tape.now n }
{
    if is_settled(source, tape, n) {
        return Ok(());
    }
    scan_each(source, tape, n)
}

// How many nodes a tape may have.
const MOST_NODES: usize = 65535;

// Document 01's numbers 4 to 8 for a tape over a source.
pub fn tape_check(source: &[u8], tape: &[u8]) -> Result<(), Refusal>
    ensures { refusal_in result ≡ tape_refusal source.now tape.now }
{
    let n = tape.len() / 16;
    if n == 0 || tape.len() % 16 != 0 || MOST_NODES < n {
        return Err(Reason::BadTapeLength.at(0));
    }
    if kind_at(tape, 0) != ROOT {
        return Err(Reason::BadNodeKind.at(0));
    }
    scan(source, tape, n)
}
