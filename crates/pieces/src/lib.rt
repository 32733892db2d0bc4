// The pieces of a text: what stands at a place, and how far it reaches. The passes over a text go from piece to piece.
#![tactic(auto)]

ghost use Rattle.std.specs.Prelude.{◌≡◌, true, false, List, ℕ, ◌<◌, ◌≤◌, IfSome, eqb, length, drop};
ghost use Rattle.std.specs.Prelude.{Some};
ghost use Rattle.text.specs.Characters.{find, find_byte};
ghost use Rattle.text.specs.Inner.{Ended};
ghost use Rattle.table.specs.Entries;
ghost use Rattle.table.specs.Entries.{nth, entry_of_info};
ghost use Rattle.table.specs.Inner.{Indexed, Chained};
ghost use Rattle.cursor.specs.Inner.{Reached};
ghost use Rattle.reader_spec.specs.Pieces.{bar, byte_is, star_at, name_end, ends_word, number_size, milestone_piece, unless_star, known_piece, marker_piece, piece_at};
ghost use Rattle.pieces.specs.Shown.{link_by, shown, bytes_of};
ghost use Rattle.pieces.specs.Depth.{depth_after};
ghost use Rattle.pieces.specs.Closes.{is_fault, is_inline, OwnClose};

use refusals::Reason;
use table::{Category, MarkerId, MarkerInfo};

// What a text has at a place, with the numbers of bytes that belong to it. Names, links and a run's first `|` are left out, since the
// pass that only counts needs few of them.
#[derive(Clone, Copy)]
pub enum Piece {
    // Up to a backslash or the end.
    Run(usize),
    // `\name*`.
    Close(usize),
    // A paragraph or identification marker: its number in the table, and the bytes.
    Block(u16, usize),
    // A Chapter or a Verse, with the blanks and the number word after it.
    Chapter(u16, usize),
    Verse(u16, usize),
    // A character or note marker.
    Inline(u16, usize),
    // A milestone: its number in the table, the bytes of the marker, of the blanks and of the attributes after it. `\*` closes it.
    Milestone(u16, usize, usize, usize),
    // Number 16 or 17; all the rest of the text belongs to it.
    Fault(Reason),
}

// Whether a byte stands at a place; past the end there is none.
fn byte_is(l: &[u8], k: usize, b: u8) -> bool
    ensures { result ≡ byte_is b l.now k }
{
    k < l.len() && l[k] == b
}

// Whether `\*` stands at a place.
fn star_at(l: &[u8], k: usize) -> bool
    requires { k ≤ length l.now }
    ensures { result ≡ star_at l.now k }
{
    byte_is(l, k, b'\\') && byte_is(l, k + 1, b'*')
}

// The place of the first blank or backslash from a place on, or the length. Most bytes are ASCII above the space, which are no
// blanks: they need no decoding.
fn word_end(l: &[u8], from: usize) -> usize
    requires { from ≤ length l.now }
    ensures { Ended l.now from (find ends_word (drop from l.now)) result }
{
    let mut i = from;
    // A while: it goes on by the character's width.
    while i < l.len() {
        let b = l[i];
        if b == b'\\' {
            return i;
        }
        if text::holds(b, 0x21, 0x7F) {
            i += 1;
            continue;
        }
        let d = text::decode_at(l, i);
        if text::is_blank(d.cp) {
            return i;
        }
        i += d.width;
    }
    i
}

// The bytes of a Chapter or Verse whose name ends at a place.
#[tactic(auto, unfolding(reader_spec::specs::Pieces::number_size))]
fn number_size(info: MarkerInfo, l: &[u8], end: usize) -> usize
    requires { Reached l.now (name_end l.now) end }
    ensures { result ≡ number_size (entry_of_info info) l.now }
{
    if numbers::is_glued(Some(info), l) {
        return end;
    }
    let word = text::find_from(l, end, false);
    if word == end {
        return end;
    }
    word_end(l, word)
}

// A milestone whose name ends at a place.
#[tactic(auto, using(crate::proofs::Places::rest_is, text::proofs::Chars::byte_le), unfolding(reader_spec::specs::Pieces::milestone_piece))]
fn milestone_piece(m: u16, l: &[u8], end: usize) -> Piece
    requires { Reached l.now (name_end l.now) end }
    ensures { (t : List ℕ) → shown t l.now result ≡ milestone_piece m l.now }
{
    if star_at(l, end) {
        return Piece::Milestone(m, end, 0, 0);
    }
    let bar = text::find_from(l, end, false);
    if byte_is(l, bar, b'|') {
        let attributes = text::find_byte(&l[bar..], b'\\');
        if star_at(l, bar + attributes) {
            return Piece::Milestone(m, end, bar - end, attributes);
        }
    }
    Piece::Fault(Reason::UnmatchedMarker)
}

// A close where a star stands directly behind the name, else the piece that is given.
fn unless_star(l: &[u8], end: usize, p: Piece) -> Piece
    requires { Reached l.now (name_end l.now) end }
    ensures { (t : List ℕ) → shown t l.now result ≡ unless_star l.now (shown t l.now p) }
{
    if byte_is(l, end, b'*') {
        return Piece::Close(end + 1);
    }
    p
}

// The piece of a marker that is known. One of category other is a fault even with a star behind it.
#[tactic(auto, unfolding(reader_spec::specs::Pieces::known_piece, reader_spec::specs::Pieces::number_link))]
fn known_piece(info: MarkerInfo, m: u16, l: &[u8], end: usize) -> Piece
    requires { Reached l.now (name_end l.now) end }
    ensures { (t : List ℕ) → nth (Entries.entries t) m ≡ Some (entry_of_info info) → shown t l.now result ≡ known_piece info.category m (entry_of_info info) l.now }
{
    match info.category {
        Category::Identification | Category::Paragraph => unless_star(l, end, Piece::Block(m, end)),
        Category::Chapter => unless_star(l, end, Piece::Chapter(m, number_size(info, l, end))),
        Category::Verse => unless_star(l, end, Piece::Verse(m, number_size(info, l, end))),
        Category::Character | Category::Note => unless_star(l, end, Piece::Inline(m, end)),
        Category::Milestone => unless_star(l, end, milestone_piece(m, l, end)),
        Category::Other => Piece::Fault(Reason::UnknownMarker),
    }
}

// The piece of a marker whose name ends at a place.
#[tactic(auto, unfolding(reader_spec::specs::Pieces::marker_piece))]
fn named_piece(
    table: &[u8],
    index: &[u64],
    entries: usize,
    chains: &[u16],
    l: &[u8],
    end: usize,
) -> Piece
    requires { Indexed table.now index.now entries × Chained table.now chains.now × Reached l.now (name_end l.now) end }
    ensures { shown table.now l.now result ≡ marker_piece table.now l.now }
{
    let start = cursor::name_start(l);
    let Some(id) = MarkerId::lookup(table, index, entries, chains, &l[start..end]) else {
        return Piece::Fault(Reason::UnknownMarker);
    };
    let Some(info) = MarkerId::info(table, index, entries, id) else {
        return Piece::Fault(Reason::UnknownMarker);
    };
    known_piece(info, id.0, l, end)
}

// The piece of a marker.
fn marker_piece(table: &[u8], index: &[u64], entries: usize, chains: &[u16], l: &[u8]) -> Piece
    requires { Indexed table.now index.now entries × Chained table.now chains.now }
    ensures { shown table.now l.now result ≡ marker_piece table.now l.now }
{
    named_piece(table, index, entries, chains, l, cursor::name_span(l).end)
}

// The piece that a text begins with.
#[tactic(auto, unfolding(reader_spec::specs::Pieces::piece_at, reader_spec::specs::Pieces::run_piece))]
pub fn piece_at(table: &[u8], index: &[u64], entries: usize, chains: &[u16], l: &[u8]) -> Piece
    requires { Indexed table.now index.now entries × Chained table.now chains.now }
    ensures { shown table.now l.now result ≡ piece_at table.now l.now }
{
    if !byte_is(l, 0, b'\\') {
        return Piece::Run(text::find_byte(l, b'\\'));
    }
    if byte_is(l, 1, b'*') {
        return Piece::Fault(Reason::UnmatchedMarker);
    }
    marker_piece(table, index, entries, chains, l)
}

// The same where that piece is known to be no fault: a star behind the name makes it a close, without a look into the table.
#[tactic(auto, using(crate::proofs::Closes::faultless_close, crate::proofs::Closes::faultless_marker), unfolding(reader_spec::specs::Pieces::piece_at, reader_spec::specs::Pieces::run_piece))]
pub fn faultless_piece_at(
    table: &[u8],
    index: &[u64],
    entries: usize,
    chains: &[u16],
    l: &[u8],
) -> Piece
    requires { Indexed table.now index.now entries × Chained table.now chains.now × (is_fault (piece_at table.now l.now) ≡ false) }
    ensures { shown table.now l.now result ≡ piece_at table.now l.now }
{
    if !byte_is(l, 0, b'\\') {
        return Piece::Run(text::find_byte(l, b'\\'));
    }
    let end = cursor::name_span(l).end;
    if byte_is(l, end, b'*') {
        return Piece::Close(end + 1);
    }
    named_piece(table, index, entries, chains, l, end)
}

// The bytes of a close with the name of the character or note marker that another text begins with, else None, which says nothing:
// the piece is found then as any other. The table has that name, so that it need not be looked up again.
pub fn own_close(opened: &[u8], l: &[u8]) -> Option<usize>
    ensures { (t : List ℕ) → is_inline (piece_at t opened.now) ≡ true → IfSome result (λ r. OwnClose t opened.now l.now r) }
{
    if !byte_is(l, 0, b'\\') || byte_is(l, 1, b'*') {
        return None;
    }
    let at = cursor::name_span(l);
    if byte_is(l, at.end, b'*') && text::equal(cursor::name_of(opened), &l[at.start..at.end]) {
        return Some(at.end + 1);
    }
    None
}

// How many bytes belong to a piece, where `rest` bytes are left from its first on. A fault has all of them.
pub fn size_of(p: Piece, rest: usize) -> usize
    requires { bytes_of p rest ≤ rest }
    ensures { result ≡ bytes_of p rest }
{
    match p {
        Piece::Run(n) | Piece::Close(n) => n,
        Piece::Block(_, n) | Piece::Chapter(_, n) | Piece::Verse(_, n) | Piece::Inline(_, n) => n,
        Piece::Milestone(_, n, x, y) => n + x + y + 2,
        Piece::Fault(_) => rest,
    }
}

// How many characters and notes are open behind a piece; a close with none open leaves none.
pub fn depth_after(p: Piece, depth: usize) -> usize
    requires { depth < 4294967296 }
    ensures { result ≡ depth_after p depth }
{
    match p {
        Piece::Close(_) => depth.saturating_sub(1),
        Piece::Inline(_, _) => depth + 1,
        _ => depth,
    }
}

// The bytes of a run before its first `|`, or all.
pub fn run_bar(l: &[u8]) -> usize
    ensures { result ≡ find_byte (eqb bar) l.now }
{
    text::find_byte(l, b'|')
}

// The link of a Chapter or Verse with this text: its label's leading number, or 0 if none can be read.
pub fn number_link(table: &[u8], index: &[u64], entries: usize, m: u16, l: &[u8]) -> u32
    requires { Indexed table.now index.now entries }
    ensures { result ≡ link_by (nth (Entries.entries table.now) m) l.now }
{
    let Some(info) = MarkerId::info(table, index, entries, MarkerId(m)) else {
        return 0;
    };
    match numbers::parse_verse_part(numbers::number_label(Some(info), l)) {
        Ok(p) => p.num as u32,
        Err(_) => 0,
    }
}
