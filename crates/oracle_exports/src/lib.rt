// Functions of the library under C names, for the program that compares them with the Rust's. A caller must pass valid slices.
#![tactic(auto)]

ghost use Rattle.std.specs.Prelude.{◌≡◌, true, not, ◌&&◌, ◌+◌, ◌*◌, ◌%◌, ◌<◌, ◌≤◌, eqb, length, take, drop, IfSome};
ghost use Rattle.table.specs.Inner.{Indexed};
ghost use Rattle.table.specs.Names.{front_matter, note_only, stripped_length};
ghost use Rattle.oracle_exports.specs.Words.{number_or, number_word, letter_word, position_from, next_from, low, start_word, end_word};
ghost use Rattle.oracle_exports.specs.Inner.{Child, Holds, Opened, SiblingsAfter};
ghost use Rattle.rows.specs.Cells.{cell_columns};
ghost use Rattle.numbers.specs.Verse.{read_of, suffix_of, position_of, verse_part, verse_end, in_sequence};
ghost use Rattle.text.specs.Pick.{cut};
ghost use Rattle.text.specs.Utf8.{first_ill_formed, decode};
ghost use Rattle.text.specs.Blank.{blank};
ghost use Rattle.text.specs.Characters.{find, find_byte, is_boundary};
ghost use Rattle.text.specs.Words.{trim_start, trim, first_word, second_word};
ghost use Rattle.text.specs.Number.{digit, parsed};
ghost use Rattle.refusals.specs.Refusal.{is_none};
ghost use Rattle.tape.specs.Reading.{tape_refusal};
ghost use Rattle.cursor.specs.Inner.{Spanned, Run};
ghost use Rattle.findings.specs.Written.{total};
ghost use Rattle.attachment.specs.Attached.{starts_of};
ghost use Rattle.text.specs.Bytes.{one_of};
ghost use Rattle.findings.specs.Inner.{count_limit};

use attachment::Attached;
use cursor::Document;
use findings::Counts;
use numbers::{Suffix, Unread, VersePart};
use table::{BookId, MarkerId, MarkerInfo};

// What stands for a number or a place that is missing.
const NONE: u64 = 4294967296;

const NO_COUNTS: Counts = Counts {
    errors: 0,
    warnings: 0,
    infos: 0,
};

// The place of the first ill-formed sequence, or the length.
#[unsafe(no_mangle)]
pub extern "C" fn compared_utf8_check(s: &[u8]) -> usize
    ensures { result ≡ number_or (length s.now) (first_ill_formed s.now) }
{
    text::utf8_check(s).unwrap_or(s.len())
}

#[unsafe(no_mangle)]
pub extern "C" fn compared_code_point(s: &[u8], at: usize) -> u32
    ensures { result ≡ (decode (drop at s.now)).cp }
{
    text::decode_at(s, at).cp
}

#[unsafe(no_mangle)]
pub extern "C" fn compared_width(s: &[u8], at: usize) -> usize
    ensures { result ≡ (decode (drop at s.now)).width }
{
    text::decode_at(s, at).width
}

#[unsafe(no_mangle)]
pub extern "C" fn compared_is_char_boundary(s: &[u8], at: usize) -> bool
    ensures { result ≡ is_boundary s.now at }
{
    text::is_char_boundary(s, at)
}

#[unsafe(no_mangle)]
pub extern "C" fn compared_is_blank(cp: u32) -> bool
    ensures { result ≡ blank cp }
{
    text::is_blank(cp)
}

#[unsafe(no_mangle)]
pub extern "C" fn compared_find_byte(s: &[u8], b: u8) -> usize
    ensures { result ≡ find_byte (eqb b) s.now }
{
    text::find_byte(s, b)
}

#[unsafe(no_mangle)]
pub extern "C" fn compared_find_blank(s: &[u8]) -> usize
    ensures { result ≡ find blank s.now }
{
    text::find_blank(s)
}

#[unsafe(no_mangle)]
pub extern "C" fn compared_find_non_digit(s: &[u8]) -> usize
    ensures { result ≡ find_byte (λ b. not (digit b)) s.now }
{
    text::find_non_digit(s)
}

// The number, or `NONE`.
#[unsafe(no_mangle)]
pub extern "C" fn compared_parse(s: &[u8]) -> u64
    ensures { result ≡ number_or 4294967296 (parsed s.now) }
{
    match text::parse(s) {
        Some(n) => u64::from(n),
        None => NONE,
    }
}

// A returned part, copied as far as there is room, and its length.
fn copy(part: &[u8], out: &mut [u8]) -> usize
    ensures { result ≡ length part.now }
{
    for i in 0..part.len().min(out.len()) {
        out[i] = part[i];
    }
    part.len()
}

#[unsafe(no_mangle)]
pub extern "C" fn compared_trim_start(s: &[u8], out: &mut [u8]) -> usize
    ensures { result ≡ length (cut (trim_start s.now) s.now) }
{
    copy(text::trim_start(s), out)
}

#[unsafe(no_mangle)]
pub extern "C" fn compared_trim(s: &[u8], out: &mut [u8]) -> usize
    ensures { result ≡ length (cut (trim s.now) s.now) }
{
    copy(text::trim(s), out)
}

#[unsafe(no_mangle)]
pub extern "C" fn compared_first_word(s: &[u8], out: &mut [u8]) -> usize
    ensures { result ≡ length (cut (first_word s.now) s.now) }
{
    copy(text::first_word(s), out)
}

#[unsafe(no_mangle)]
pub extern "C" fn compared_second_word(s: &[u8], out: &mut [u8]) -> usize
    ensures { result ≡ length (cut (second_word s.now) s.now) }
{
    copy(text::second_word(s), out)
}

// A number and a place in one word.
fn answer_word(number: u64, place: usize) -> u64
    requires { number < 32 }
    ensures { result ≡ number * 4294967296 + place % 4294967296 }
{
    number * 4294967296 + place as u64 % 4294967296
}

// The number that turns a tape back, times 2 to the power of 32, and its place; 0 for none.
#[unsafe(no_mangle)]
pub extern "C" fn compared_tape_check(source: &[u8], tape: &[u8]) -> u64 {
    match tape::tape_check(source, tape) {
        Ok(()) => 0,
        Err(r) => answer_word(r.reason.number(), r.place),
    }
}

// Whether a node's text lies in the source.
fn spanned(source: &[u8], tape: &[u8], i: usize) -> bool
    ensures { result ≡ true → Spanned source.now tape.now i }
{
    i < tape.len() / 16
        && tape::start_at(tape, i) as usize + tape::len_at(tape, i) as usize <= source.len()
}

// A node's text, or nothing where it doesn't lie in the source.
#[unsafe(no_mangle)]
pub extern "C" fn compared_text(source: &[u8], tape: &[u8], i: usize, out: &mut [u8]) -> usize {
    if !spanned(source, tape, i) {
        return 0;
    }
    copy(Document { source, tape }.text(i), out)
}

#[unsafe(no_mangle)]
pub extern "C" fn compared_marker_name(
    source: &[u8],
    tape: &[u8],
    i: usize,
    out: &mut [u8],
) -> usize {
    if !spanned(source, tape, i) {
        return 0;
    }
    copy(Document { source, tape }.marker_name(i), out)
}

// A place, or `NONE`.
fn place_of(p: Option<usize>) -> u64 {
    match p {
        Some(i) => i as u64,
        None => NONE,
    }
}

#[unsafe(no_mangle)]
pub extern "C" fn compared_first_child(tape: &[u8], i: usize) -> u64 {
    if tape.len() / 16 <= i {
        return NONE;
    }
    place_of(cursor::first_child(tape, i))
}

#[unsafe(no_mangle)]
pub extern "C" fn compared_next_sibling(tape: &[u8], i: usize) -> u64 {
    if tape.len() / 16 <= i {
        return NONE;
    }
    place_of(cursor::next_sibling(tape, i))
}

// The number of a chapter or a verse, or `NONE`.
#[unsafe(no_mangle)]
pub extern "C" fn compared_number(tape: &[u8], i: usize) -> u64 {
    if tape.len() / 16 <= i {
        return NONE;
    }
    match cursor::number(tape, i) {
        Some(n) => u64::from(n),
        None => NONE,
    }
}

// The number of a table's entries, or 2 to the power of 32 and the place of its first bad line.
#[unsafe(no_mangle)]
pub extern "C" fn compared_table(table: &[u8]) -> u64 {
    let mut index = [0u64; 512];
    match table::index(table, &mut index) {
        Ok(n) => answer_word(0, n),
        Err(r) => answer_word(1, r.place),
    }
}

// Writes a table's index over a list, and gives how many entries it has, or `None` where the table breaks its layout.
fn index_of(table: &[u8], words: &mut [u64]) -> Option<usize>
    requires { 512 ≤ length words.old }
    ensures { IfSome result (λ entries. Indexed table.now words.new entries) }
{
    match table::index(table, words) {
        Ok(entries) => Some(entries),
        Err(_) => None,
    }
}

// The number of the marker that a name stands for, or `NONE`, also where the table breaks its layout.
#[unsafe(no_mangle)]
pub extern "C" fn compared_lookup(table: &[u8], name: &[u8]) -> u64 {
    let mut index = [0; 512];
    let Some(entries) = index_of(table, &mut index) else {
        return NONE;
    };
    let mut chains = [0u16; 768];
    table::link_names(table, &index, entries, &mut chains);
    match MarkerId::lookup(table, &index, entries, &chains, name) {
        Some(id) => u64::from(id.0),
        None => NONE,
    }
}

// An entry's category and role, eight times the role and the category, each by its place in its enum, or `NONE`.
fn info_number(i: Option<MarkerInfo>) -> u64 {
    match i {
        Some(m) => m.category as u64 + 8 * (m.text_role as u64),
        None => NONE,
    }
}

// Of marker number k of a table.
#[unsafe(no_mangle)]
pub extern "C" fn compared_info(table: &[u8], k: u16) -> u64 {
    let mut index = [0; 512];
    let Some(entries) = index_of(table, &mut index) else {
        return NONE;
    };
    info_number(MarkerId::info(table, &index, entries, MarkerId(k)))
}

// Of a node's marker.
#[unsafe(no_mangle)]
pub extern "C" fn compared_marker_info(table: &[u8], tape: &[u8], i: usize) -> u64 {
    let mut index = [0; 512];
    let Some(entries) = index_of(table, &mut index) else {
        return NONE;
    };
    if tape.len() / 16 <= i {
        return NONE;
    }
    info_number(cursor::marker_info(table, &index, entries, tape, i))
}

#[unsafe(no_mangle)]
pub extern "C" fn compared_strip_level_suffix(name: &[u8], out: &mut [u8]) -> usize
    ensures { result ≡ length (take (stripped_length name.now) name.now) }
{
    copy(table::strip_level_suffix(name), out)
}

// The attribute's position: lemma, gloss, href, loc, link-href, id, who; 7 for none.
#[unsafe(no_mangle)]
pub extern "C" fn compared_default_attribute(name: &[u8]) -> u8 {
    match table::default_attribute(name) {
        Some(attribute) => attribute as u8,
        None => 7,
    }
}

// The book's place, or 256.
#[unsafe(no_mangle)]
pub extern "C" fn compared_book(code: &[u8]) -> u16 {
    match BookId::from_code(code) {
        Some(b) => u16::from(b.0),
        None => 256,
    }
}

#[unsafe(no_mangle)]
pub extern "C" fn compared_is_front_matter_code(code: &[u8]) -> bool
    ensures { result ≡ one_of front_matter code.now }
{
    table::is_front_matter_code(code)
}

#[unsafe(no_mangle)]
pub extern "C" fn compared_is_note_only_marker(name: &[u8]) -> bool
    ensures { result ≡ one_of note_only name.now }
{
    table::is_note_only_marker(name)
}

fn letter_byte(suffix: Suffix) -> u8
    ensures { result ≡ number_or 0 (suffix_of suffix) }
{
    match suffix {
        Suffix::Letter(b) => b,
        Suffix::None => 0,
    }
}

fn part_number(read: Result<VersePart, Unread>) -> u64
    ensures { result ≡ number_word (read_of read) }
{
    match read {
        Ok(p) => p.num,
        Err(Unread::NoDigits) => 18446744073709551615,
        Err(Unread::TooLarge) => 18446744073709551614,
    }
}

fn part_letter(read: Result<VersePart, Unread>) -> u8
    ensures { result ≡ letter_word (read_of read) }
{
    match read {
        Ok(p) => letter_byte(p.suffix),
        Err(_) => 0,
    }
}

fn position(num: u64, letter: u8) -> VersePart
    ensures { position_of result ≡ position_from num letter }
{
    let suffix = match letter {
        0 => Suffix::None,
        _ => Suffix::Letter(letter),
    };
    VersePart { num, suffix }
}

#[unsafe(no_mangle)]
pub extern "C" fn compared_part_number(s: &[u8]) -> u64
    ensures { result ≡ number_word (verse_part s.now) }
{
    part_number(numbers::parse_verse_part(s))
}

#[unsafe(no_mangle)]
pub extern "C" fn compared_part_letter(s: &[u8]) -> u8
    ensures { result ≡ letter_word (verse_part s.now) }
{
    part_letter(numbers::parse_verse_part(s))
}

#[unsafe(no_mangle)]
pub extern "C" fn compared_end_number(s: &[u8]) -> u64
    ensures { result ≡ number_word (verse_end s.now) }
{
    part_number(numbers::parse_verse_range_end(s))
}

#[unsafe(no_mangle)]
pub extern "C" fn compared_end_letter(s: &[u8]) -> u8
    ensures { result ≡ letter_word (verse_end s.now) }
{
    part_letter(numbers::parse_verse_range_end(s))
}

// Whether a position may stand where another is expected. Numbers past 4,294,967,296 never may: no label has them.
#[unsafe(no_mangle)]
pub extern "C" fn compared_sequence(expected: u64, wanted: u8, actual: u64, given: u8) -> bool
    ensures { result ≡ (low expected && (low actual && in_sequence (position_from expected wanted) (position_from actual given))) }
{
    expected <= 4294967296
        && actual <= 4294967296
        && numbers::is_valid_verse_sequence(position(expected, wanted), position(actual, given))
}

fn next_position(num: u64, letter: u8) -> VersePart
    ensures { position_of result ≡ next_from num letter }
{
    let p = position(num, letter);
    if 4294967295 < num || letter == 255 {
        p
    } else {
        numbers::next_expected(p)
    }
}

// The position after another, or that one itself where its number is past 4,294,967,295 or its letter is byte 255: no label has
// these.
#[unsafe(no_mangle)]
pub extern "C" fn compared_next_number(num: u64, letter: u8) -> u64
    ensures { result ≡ (next_from num letter).number }
{
    next_position(num, letter).num
}

#[unsafe(no_mangle)]
pub extern "C" fn compared_next_letter(num: u64, letter: u8) -> u8
    ensures { result ≡ number_or 0 (next_from num letter).letter }
{
    letter_byte(next_position(num, letter).suffix)
}

// The first and the last column of a cell, or `NONE`.
#[unsafe(no_mangle)]
pub extern "C" fn compared_cell_start(name: &[u8]) -> u64
    ensures { result ≡ start_word (cell_columns name.now) }
{
    match rows::table_cell_columns(name) {
        Some(c) => u64::from(c.start),
        None => NONE,
    }
}

#[unsafe(no_mangle)]
pub extern "C" fn compared_cell_end(name: &[u8]) -> u64
    ensures { result ≡ end_word (cell_columns name.now) }
{
    match rows::table_cell_columns(name) {
        Some(c) => u64::from(c.end),
        None => NONE,
    }
}

// Whether numbers 4 to 8 pass a tape.
fn accepted(source: &[u8], tape: &[u8]) -> bool
    ensures { result ≡ is_none (tape_refusal source.now tape.now) }
{
    tape::tape_check(source, tape).is_ok()
}

// Whether a number is one of a node, the root not among them, of an accepted tape.
#[tactic(auto, using(crate::proofs::Guards::good_tape))]
fn is_node(source: &[u8], tape: &[u8], i: usize) -> bool
    ensures { result ≡ true → Child source.now tape.now i }
{
    i != 0 && i < tape.len() / 16 && accepted(source, tape)
}

// What the table says of a node's marker, and its text, or `None` where table or tape is turned back or there is no such node.
fn info_and_text<'a>(
    table: &[u8],
    source: &'a [u8],
    tape: &'a [u8],
    i: usize,
) -> Option<(Option<MarkerInfo>, &'a [u8])> {
    let mut index = [0; 512];
    let entries = index_of(table, &mut index)?;
    if !is_node(source, tape, i) {
        return None;
    }
    let info = cursor::marker_info(table, &index, entries, tape, i);
    Some((info, Document { source, tape }.text(i)))
}

// The label of a node, read as that of a chapter or a verse, or nothing where `info_and_text` gives none.
#[unsafe(no_mangle)]
pub extern "C" fn compared_label(
    table: &[u8],
    source: &[u8],
    tape: &[u8],
    i: usize,
    out: &mut [u8],
) -> usize {
    info_and_text(table, source, tape, i).map_or(
        0,
        |(info, text)| copy(numbers::number_label(info, text), out),
    )
}

#[unsafe(no_mangle)]
pub extern "C" fn compared_is_glued(table: &[u8], source: &[u8], tape: &[u8], i: usize) -> bool {
    info_and_text(table, source, tape, i).is_some_and(|(info, text)| numbers::is_glued(info, text))
}

// The place of number 9, or `NONE`, also where table or tape is turned back.
#[unsafe(no_mangle)]
#[tactic(auto, using(crate::proofs::Guards::good_tape))]
pub extern "C" fn compared_label_check(table: &[u8], source: &[u8], tape: &[u8]) -> u64 {
    let mut index = [0; 512];
    let Some(entries) = index_of(table, &mut index) else {
        return NONE;
    };
    if !accepted(source, tape) {
        return NONE;
    }
    match numbers::label_check(table, &index, entries, Document { source, tape }) {
        Ok(()) => NONE,
        Err(r) => r.place as u64,
    }
}

// Whether a node is an open one of an accepted tape.
#[tactic(auto, using(crate::proofs::Guards::holds_open))]
fn opens(source: &[u8], tape: &[u8], i: usize) -> bool
    ensures { result ≡ true → Child source.now tape.now i × Holds source.now tape.now i }
{
    is_node(source, tape, i) && tape::kind_at(tape, i) == tape::MARKER_OPEN
}

// Whether a node is an open one of an accepted tape, or its root.
fn holds_run(source: &[u8], tape: &[u8], i: usize) -> bool
    ensures { result ≡ true → Holds source.now tape.now i }
{
    if i == 0 {
        accepted(source, tape)
    } else {
        opens(source, tape, i)
    }
}

fn total_of(c: Counts) -> u64
    requires { total c ≤ count_limit }
    ensures { result ≡ total c }
{
    c.errors + c.warnings + c.infos
}

// Where the run of an open node ends, or `None` where it is no open node of an accepted tape over a source that number 2
// passes.
fn run_end(source: &[u8], tape: &[u8], i: usize) -> Option<usize>
    ensures { IfSome result (λ to. Opened source.now tape.now i to) }
{
    if 1048576 < source.len() || !opens(source, tape, i) {
        return None;
    }
    Some(tape::link_at(tape, i) as usize)
}

// The findings of an open node's cells, and how many they are, or `NONE` where `run_end` gives none.
#[unsafe(no_mangle)]
pub extern "C" fn compared_row(source: &[u8], tape: &[u8], i: usize, list: &mut [u64]) -> u64 {
    let Some(to) = run_end(source, tape, i) else {
        return NONE;
    };
    total_of(rows::validate_table_row(Document { source, tape }, i + 1, to, list, NO_COUNTS))
}

// The findings of an open node's attributes, and how many they are, or `NONE` where `run_end` gives none.
#[unsafe(no_mangle)]
pub extern "C" fn compared_attributes(
    source: &[u8],
    tape: &[u8],
    i: usize,
    list: &mut [u64],
) -> u64 {
    let Some(to) = run_end(source, tape, i) else {
        return NONE;
    };
    total_of(attributes::validate_attributes(
        Document { source, tape },
        i + 1,
        to,
        i,
        list,
        NO_COUNTS,
    ))
}

// Where the siblings after a node of a run begin, or `None` if the node isn't one of its siblings.
fn after_child(source: &[u8], tape: &[u8], from: usize, to: usize, i: usize) -> Option<usize>
    requires { Run source.now tape.now from to }
    ensures { IfSome result (λ after. Run source.now tape.now after to) }
{
    let mut k = from;
    // A while: the step is past what a node holds.
    while k < to {
        let next = cursor::past_node(tape, k);
        if k == i {
            return Some(next);
        }
        k = next;
    }
    None
}

// The start offsets of attached numbers, as far as there is room, and how many they are.
fn write_starts(numbers: Attached, list: &mut [u64]) -> u64
    ensures { result ≡ length (starts_of numbers) }
{
    let starts = [numbers.first, numbers.second];
    let n = starts.len().min(numbers.count as usize);
    for (word, start) in list.iter_mut().zip(&starts[..n]) {
        *word = u64::from(*start);
    }
    n as u64
}

// Where the siblings after a chapter or a verse begin that is among a node's children, or `None` where it is no such child of a
// root or an open node of an accepted tape.
fn after_anchor(source: &[u8], tape: &[u8], parent: usize, i: usize) -> Option<usize>
    ensures { IfSome result (λ after. SiblingsAfter source.now tape.now parent i after) }
{
    let is_anchor = i < tape.len() / 16
        && matches!(tape::kind_at(tape, i), tape::CHAPTER | tape::VERSE)
        && holds_run(source, tape, parent);
    if !is_anchor {
        return None;
    }
    after_child(
        source,
        tape,
        parent + 1,
        tape::link_at(tape, parent) as usize,
        i,
    )
}

// The numbers attached to a chapter or a verse among a node's children, if there is such a child.
fn attached(source: &[u8], tape: &[u8], parent: usize, i: usize) -> Option<Attached> {
    let from = after_anchor(source, tape, parent, i)?;
    let to = tape::link_at(tape, parent) as usize;
    Some(attachment::attached_numbers(Document { source, tape }, tape::kind_at(tape, i), from, to))
}

// The starts of the numbers attached to a chapter or a verse among a node's children, and how many they are, or `NONE` where
// there is no such child.
#[unsafe(no_mangle)]
pub extern "C" fn compared_attached(
    source: &[u8],
    tape: &[u8],
    parent: usize,
    i: usize,
    list: &mut [u64],
) -> u64 {
    attached(source, tape, parent, i).map_or(NONE, |numbers| write_starts(numbers, list))
}

// Whether a number that starts at the offset is attached to it.
#[unsafe(no_mangle)]
pub extern "C" fn compared_is_attached(
    source: &[u8],
    tape: &[u8],
    parent: usize,
    i: usize,
    at: u32,
) -> bool {
    attached(source, tape, parent, i).is_some_and(|numbers| attachment::is_attached(numbers, at))
}
