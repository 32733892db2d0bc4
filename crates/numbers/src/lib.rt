// Chapter and verse numbers: labels, verse positions, and the order of verses.
#![tactic(auto)]

ghost use Rattle.std.specs.Prelude.{◌≡◌, true, ℕ, ◌-◌, ◌+◌, ◌<◌, ◌≤◌, min, length, get_or, take};
ghost use Rattle.text.specs.Pick.{end};
ghost use Rattle.text.specs.Words.{first_word};
ghost use Rattle.tape.specs.Nodes.{count};
ghost use Rattle.refusals.specs.Refusal.{first_bad, split_label};
ghost use Rattle.refusals.specs.Reasons.{refusal_in};
ghost use Rattle.tape.specs.Forest.{Accepted};
ghost use Rattle.table.specs.Entries.{info_of};
ghost use Rattle.cursor.specs.Names.{name_of};
ghost use Rattle.cursor.specs.Inner.{Spanned, Named, Reached};
ghost use Rattle.numbers.specs.Label.{base_len, is_glued, label_of, splits, numbered, bad_label, label_refusal};
ghost use Rattle.numbers.specs.Inner.{split_at, Labelled, LabelledBy, Usual, numbers_in, first_among};
ghost use Rattle.numbers.specs.Verse.{verse_part, verse_end, next, in_sequence, letter_of, no_earlier, other_number, suffix_of, position_of, read_of, Readable};
ghost use Rattle.table.specs.Inner.{Indexed};

use cursor::{Document, NameSpan};
use refusals::{Reason, Refusal};
use table::MarkerInfo;

// The letter of a verse position, `9a`, or none. An enum and no Option: document 01 names it as the form of this answer.
#[derive(Clone, Copy)]
pub enum Suffix {
    Letter(u8),
    None,
}

#[derive(Clone, Copy)]
pub struct VersePart {
    pub num: u64,
    pub suffix: Suffix,
}

// Why no position is read of a part of a label: it has no digit, or the number is over 4,294,967,295.
#[derive(Clone, Copy)]
pub enum Unread {
    NoDigits,
    TooLarge,
}

// Where a label stands in its node's text, and whether that is in the marker's name.
#[derive(Clone, Copy)]
pub struct LabelSpan {
    pub start: usize,
    pub end: usize,
    pub glued: bool,
}

// How long the table's name is; without an entry, the name's own length.
fn base_len(info: Option<MarkerInfo>, name: &[u8]) -> usize
    ensures { result ≡ base_len (info_of info) name.now }
{
    match info {
        Some(m) => m.name_len,
        None => name.len(),
    }
}

// Whether a chapter's or verse's number stands in its marker's name, `\v12`.
pub fn is_glued(info: Option<MarkerInfo>, text: &[u8]) -> bool
    ensures { result ≡ is_glued (info_of info) (name_of text.now) }
{
    let name = cursor::name_of(text);
    base_len(info, name) < name.len()
}

// Where the first word ends. Nothing before the name's end is blank, so that it is looked for from there on, unless that is the
// text's start.
fn first_word_end(text: &[u8], at: NameSpan) -> usize
    requires { Named text.now at }
    ensures { Reached text.now (end (first_word text.now)) result }
{
    let e = at.end;
    if e == 0 {
        let a = text::find_from(text, 0, false);
        return text::find_from(text, a, true);
    }
    text::find_from(text, e, true)
}

// Whether a text begins as `\v 1` does, with any small letter and any digit. Most texts of Chapters and Verses begin so.
fn is_usual(text: &[u8]) -> bool
    ensures { result ≡ true → Usual text.now }
{
    matches!(text, [b'\\', b'a'..=b'z', b' ', b'0'..=b'9', ..])
}

// The label by its places, where the table's name has so many bytes. A number in place of the entry passes in a register.
fn label_by(base: usize, text: &[u8]) -> LabelSpan
    ensures { LabelledBy base text.now result }
{
    if 1 <= base {
        if is_usual(text) {
            return LabelSpan {
                start: 3,
                end: text::find_from(text, 3, true),
                glued: false,
            };
        }
    }
    let at = cursor::name_span(text);
    let b = at.start;
    let e = at.end;
    let name = &text[b..e];
    if base < name.len() {
        return LabelSpan {
            start: b + base,
            end: e,
            glued: true,
        };
    }
    let a = text::find_from(text, first_word_end(text, at), false);
    LabelSpan {
        start: a,
        end: text::find_from(text, a, true),
        glued: false,
    }
}

// The label by its places, for a caller that needs to know whether it is glued, too: the name is read once. Without an entry no name is
// longer than the text.
pub fn label_span(info: Option<MarkerInfo>, text: &[u8]) -> LabelSpan
    ensures { Labelled (info_of info) text.now result }
{
    label_by(base_len(info, text), text)
}

// The number of a chapter or a verse as written: a part of the node's text.
pub fn number_label(info: Option<MarkerInfo>, text: &[u8]) -> &[u8]
    ensures { result.now ≡ label_of (info_of info) text.now }
{
    let at = label_span(info, text);
    let a = at.start;
    let e = at.end;
    &text[a..e]
}

// Whether a name is longer than so many bytes and cut inside a character there. Mostly the text's end or its byte at that place
// rules this out, whatever the name is: only otherwise is the name read.
fn is_split(text: &[u8], base: usize) -> bool
    ensures { result ≡ split_at (name_of text.now) base }
{
    let b = cursor::name_start(text);
    if text.len() - b <= base || text::is_char_boundary(text, b + base) {
        return false;
    }
    let name = cursor::name_of(text);
    base < name.len() && !text::is_char_boundary(name, base)
}

fn label_splits(info: Option<MarkerInfo>, text: &[u8]) -> bool
    ensures { result ≡ splits (info_of info) text.now }
{
    match info {
        Some(m) => is_split(text, m.name_len),
        None => false,
    }
}

pub fn is_numbered(kind: u8) -> bool
    ensures { result ≡ numbered kind }
{
    kind == tape::CHAPTER || kind == tape::VERSE
}

fn bad_label(table: &[u8], index: &[u64], entries: usize, doc: Document<'_, '_>, i: usize) -> bool
    requires { (Indexed table.now index.now entries) × (Spanned doc.source.now doc.tape.now i) }
    ensures { result ≡ bad_label table.now doc.entry.source.now doc.entry.tape.now i }
{
    if !is_numbered(tape::kind_at(doc.tape, i)) {
        return false;
    }
    let info = cursor::marker_info(table, index, entries, doc.tape, i);
    label_splits(info, doc.text(i))
}

// The Chapters and Verses from one node up to another, in order, and how many they are. The kinds of nodes come in an
// order that no processor predicts, so no jump here depends on it: a node that is no Chapter or Verse is written too, and the next
// one overwrites it.
fn gather(tape: &[u8], from: usize, to: usize, found: &mut [usize]) -> usize
    requires { (from ≤ to) × (to ≤ count tape.now) × (to - from < length found.old) }
    ensures { (result ≤ length found.new) × (take result found.new ≡ numbers_in tape.now from (to - from)) }
{
    let mut k: usize = 0;
    for i in from..to {
        found[k] = i;
        k += tape::one_if(is_numbered(tape::kind_at(tape, i)));
    }
    k
}

// The first of some Chapters and Verses whose name is cut inside a character.
fn first_split(
    table: &[u8],
    index: &[u64],
    entries: usize,
    doc: Document<'_, '_>,
    found: &[usize],
) -> Result<(), Refusal>
    requires { (Indexed table.now index.now entries) × ((j : ℕ) → j < length found.now → Spanned doc.source.now doc.tape.now (get_or found.now j 0)) }
    ensures { refusal_in result ≡ first_among (bad_label table.now doc.entry.source.now doc.entry.tape.now) found.now }
{
    for j in 0..found.len() {
        if bad_label(table, index, entries, doc, found[j]) {
            return Err(Reason::SplitLabel.at(found[j]));
        }
    }
    Ok(())
}

// Number 9 of the nodes from one up to another.
fn split_in(
    table: &[u8],
    index: &[u64],
    entries: usize,
    doc: Document<'_, '_>,
    from: usize,
    to: usize,
) -> Result<(), Refusal>
    requires { (Indexed table.now index.now entries) × (Accepted doc.source.now doc.tape.now) × (1 ≤ from) × (from ≤ to) × (to ≤ count doc.tape.now) × (to ≤ from + 64) }
    ensures { refusal_in result ≡ first_bad split_label (bad_label table.now doc.entry.source.now doc.entry.tape.now) from (to - from) }
{
    let mut found = [0usize; 65];
    let k = gather(doc.tape, from, to, &mut found);
    first_split(table, index, entries, doc, &found[..k])
}

// Number 9, over a tape that numbers 4 to 8 pass, by 64 nodes at a time.
pub fn label_check(
    table: &[u8],
    index: &[u64],
    entries: usize,
    doc: Document<'_, '_>,
) -> Result<(), Refusal>
    requires { (Indexed table.now index.now entries) × (Accepted doc.source.now doc.tape.now) }
    ensures { refusal_in result ≡ label_refusal table.now doc.entry.source.now doc.entry.tape.now }
{
    let n = doc.tape.len() / 16;
    let mut i: usize = 1;
    // A while: it goes on by 64 nodes.
    while i < n {
        let next = (i + 64).min(n);
        split_in(table, index, entries, doc, i, next)?;
        i = next;
    }
    Ok(())
}

// The lower-case letter that the text begins with.
fn letter(s: &[u8]) -> Suffix
    ensures { suffix_of result ≡ letter_of s.now }
{
    match s {
        [b, ..] if matches!(*b, b'a'..=b'z') => Suffix::Letter(*b),
        _ => Suffix::None,
    }
}

pub fn parse_verse_part(s: &[u8]) -> Result<VersePart, Unread>
    ensures { read_of result ≡ verse_part s.now }
{
    let rest = text::trim_start(s);
    let end = text::find_non_digit(rest);
    if end == 0 {
        return Err(Unread::NoDigits);
    }
    match text::parse(&rest[..end]) {
        Some(n) => Ok(VersePart {
            num: n as u64,
            suffix: letter(&rest[end..]),
        }),
        None => Err(Unread::TooLarge),
    }
}

pub fn parse_verse_range_end(s: &[u8]) -> Result<VersePart, Unread>
    ensures { read_of result ≡ verse_end s.now }
{
    let at = text::find_byte(s, b'-');
    if at < s.len() {
        parse_verse_part(&s[at + 1..])
    } else {
        parse_verse_part(s)
    }
}

#[tactic(auto, unfolding(crate::specs::Verse::next))]
pub fn next_expected(p: VersePart) -> VersePart
    requires { Readable (position_of p) }
    ensures { position_of result ≡ next (position_of p) }
{
    match p.suffix {
        Suffix::Letter(b) => VersePart {
            num: p.num,
            suffix: Suffix::Letter(b + 1),
        },
        Suffix::None => VersePart {
            num: p.num + 1,
            suffix: Suffix::None,
        },
    }
}

fn no_earlier(expected: Suffix, actual: Suffix) -> bool
    ensures { result ≡ no_earlier (suffix_of expected) (suffix_of actual) }
{
    match (expected, actual) {
        (Suffix::None, _) => true,
        (Suffix::Letter(_), Suffix::None) => false,
        (Suffix::Letter(a), Suffix::Letter(b)) => a <= b,
    }
}

// Whether a position with another number than the expected one may stand there: `10` after `9a`, and `9a` after `9`.
fn other_number(expected: VersePart, actual: VersePart) -> bool
    requires { (expected.num ≤ 4294967296) × (actual.num ≤ 4294967296) }
    ensures { result ≡ other_number (suffix_of expected.suffix) expected.num (suffix_of actual.suffix) actual.num }
{
    match (expected.suffix, actual.suffix) {
        (Suffix::Letter(_), _) => actual.num == expected.num + 1,
        (Suffix::None, Suffix::None) => false,
        (Suffix::None, Suffix::Letter(_)) => 1 <= actual.num && actual.num + 1 == expected.num,
    }
}

#[tactic(auto, unfolding(crate::specs::Verse::in_sequence))]
pub fn is_valid_verse_sequence(expected: VersePart, actual: VersePart) -> bool
    requires { (expected.num ≤ 4294967296) × (actual.num ≤ 4294967296) }
    ensures { result ≡ in_sequence (position_of expected) (position_of actual) }
{
    if actual.num == expected.num {
        no_earlier(expected.suffix, actual.suffix)
    } else {
        other_number(expected, actual)
    }
}
