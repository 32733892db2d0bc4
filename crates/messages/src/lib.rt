// The text of a finding: numbers 1 to 9, 12 and 13, or the Rust's text written over a lent list from its start; and the texts of a
// list's findings, one behind another, by one reading of the document.
#![tactic(auto)]

ghost use Rattle.std.specs.Prelude.{Ok, true, ◌||◌, ◌≡◌, List, [], ◌++◌, ℕ, ◌-◌, ◌<◌, ◌≤◌, eqb, length, get_or, take};
ghost use Rattle.std.specs.Prelude.{None};
ghost use Rattle.text.specs.Pick.{pick};
ghost use Rattle.tape.specs.Nodes.{count, kind_at, node_at};
ghost use Rattle.tape.specs.Forest.{Accepted};
ghost use Rattle.cursor.specs.Names.{name_of};
ghost use Rattle.cursor.specs.Info.{info_at};
ghost use Rattle.cursor.specs.Inner.{Spanned};
ghost use Rattle.numbers.specs.Label.{label_of, numbered};
ghost use Rattle.definition.specs.Milestones.{ends_in};
ghost use Rattle.buffer.specs.Over.{over};
ghost use Rattle.buffer.specs.Decimal.{decimal};
ghost use Rattle.findings.specs.Codes.{default_attribute_not_defined, invalid_book_code, invalid_verse_sequence, milestone_mismatch, misplaced_number_marker, missing_space_before_number};
ghost use Rattle.findings.specs.Written.{whole_records};
ghost use Rattle.message_texts.specs.Filled.{joined, all_texts};
ghost use Rattle.messages.specs.Message.{letter_bytes, unit_of, message_text};
ghost use Rattle.messages.specs.Answer.{by_room, bytes_by, message_answer, message_after};
ghost use Rattle.messages.specs.Messages.{request_at, text_at, texts_of, ends_from, answer_by_texts, messages_answer, messages_answer_of, messages_after, ends_after};
ghost use Rattle.messages.specs.Inner.{DocumentNode, WrittenBy, name_or, is_tables, is_labels};
ghost use Rattle.message_texts.specs.Inner.{WrittenFrom};
ghost use Rattle.table.specs.Inner.{Indexed};
ghost use Rattle.messages.specs.Answer.{request_by, message_answer_of};

use cursor::Document;
use findings::{
    BODY_PARAGRAPH_BEFORE_CHAPTER, DEFAULT_ATTRIBUTE_NOT_DEFINED, DUPLICATE_CHAPTER,
    INVALID_BOOK_CODE, INVALID_CHAPTER_SEQUENCE, INVALID_TABLE_COLUMN_SEQUENCE,
    INVALID_VERSE_SEQUENCE, LEADING_ZEROS, MILESTONE_MISMATCH, MISPLACED_NUMBER_MARKER,
    MISSING_REQUIRED_ATTRIBUTE, MISSING_SPACE_BEFORE_NUMBER, NOTE_SUBMARKER_OUTSIDE_NOTE,
    UNREADABLE_VERSE_NUMBER,
};
use refusals::{Reason, Refusal};

// Of a finding's words, those that its text depends on.
#[derive(Clone, Copy)]
pub struct MessageRequest {
    pub code: u64,
    pub form: u64,
    pub node: u64,
    pub first: u64,
    pub second: u64,
}

// How many texts are written and how many bytes they take; where not all are, what turns the next one back.
#[derive(Clone, Copy)]
pub struct Texts {
    pub records: usize,
    pub bytes: usize,
    pub stop: Option<Refusal>,
}

// The codes whose texts show the table's name.
fn shows_entry(code: u64) -> bool
    ensures { result ≡ is_tables code }
{
    code == NOTE_SUBMARKER_OUTSIDE_NOTE
        || code == MISSING_REQUIRED_ATTRIBUTE
        || code == BODY_PARAGRAPH_BEFORE_CHAPTER
}

// The name that a text shows: the table's or the source's, by code; empty where the table has none.
fn name_shown<'a, 'b>(
    table: &'a [u8],
    index: &'b [u64],
    entries: usize,
    doc: Document<'a, '_>,
    i: usize,
    code: u64,
) -> &'a [u8]
    requires { (Indexed table.now index.now entries) × Spanned doc.source.now doc.tape.now i }
    ensures { result.now ≡ pick (is_tables code) (name_or table.now (info_at table.now doc.entry.tape.now i)) (name_of (node_at doc.entry.source.now doc.entry.tape.now i).text) }
{
    if !shows_entry(code) {
        return doc.marker_name(i);
    }
    match cursor::marker_info(table, index, entries, doc.tape, i) {
        Some(m) => table::name(table, m),
        None => &table[..0],
    }
}

// The label of a Chapter or a Verse; empty for any other node.
fn label_shown<'a, 'b, 'c>(
    table: &'b [u8],
    index: &'c [u64],
    entries: usize,
    doc: Document<'a, '_>,
    i: usize,
) -> &'a [u8]
    requires { DocumentNode table.now index.now entries doc.source.now doc.tape.now i }
    ensures { result.now ≡ pick (numbered (kind_at doc.entry.tape.now i)) (label_of (info_at table.now doc.entry.tape.now i) (node_at doc.entry.source.now doc.entry.tape.now i).text) [] }
{
    if !numbers::is_numbered(tape::kind_at(doc.tape, i)) {
        return &doc.source[..0];
    }
    numbers::number_label(
        cursor::marker_info(table, index, entries, doc.tape, i),
        doc.text(i),
    )
}

// Writes a text of two numbers.
fn write_numbers(code: u64, form: u64, first: u64, second: u64, out: &mut [u8]) -> Option<usize>
    ensures { WrittenFrom all_texts code form (decimal first) (decimal second) [] out.old out.new result }
{
    let mut x = [0u8; 20];
    let mut y = [0u8; 20];
    let k = buffer::put_decimal(&mut x, 0, first);
    let m = buffer::put_decimal(&mut y, 0, second);
    message_texts::write_text(code, form, &x[..k], &y[..m], b"", out)
}

// Writes a text of a verse position, whose letter is a byte or none, and a label.
fn write_position(
    code: u64,
    form: u64,
    first: u64,
    second: u64,
    label: &[u8],
    out: &mut [u8],
) -> Option<usize>
    requires { (second ≤ 127) × (length label.now ≤ 1048576) }
    ensures { WrittenFrom all_texts code form (decimal first ++ letter_bytes second) label.now [] out.old out.new result }
{
    let mut x = [0u8; 21];
    let k = buffer::put_decimal(&mut x, 0, first);
    if second == 0 {
        return message_texts::write_text(code, form, &x[..k], label, b"", out);
    }
    let last = [second as u8];
    let m = buffer::put(&mut x, k, &last);
    message_texts::write_text(code, form, &x[..m], label, b"", out)
}

// InvalidVerseSequence.
fn write_verse(
    table: &[u8],
    index: &[u64],
    entries: usize,
    doc: Document<'_, '_>,
    q: MessageRequest,
    out: &mut [u8],
) -> Option<usize>
    requires { (DocumentNode table.now index.now entries doc.source.now doc.tape.now q.node) × (q.code ≡ invalid_verse_sequence) }
    ensures { WrittenBy table.now doc.entry.source.now doc.entry.tape.now (request_by q) out.old out.new result }
{
    if 127 < q.second {
        return None;
    }
    let label = label_shown(table, index, entries, doc, q.node as usize);
    if label.len() == 0 {
        return None;
    }
    write_position(q.code, q.form, q.first, q.second, label, out)
}

// LeadingZeros and UnreadableVerseNumber.
fn write_label(
    table: &[u8],
    index: &[u64],
    entries: usize,
    doc: Document<'_, '_>,
    q: MessageRequest,
    out: &mut [u8],
) -> Option<usize>
    requires { (DocumentNode table.now index.now entries doc.source.now doc.tape.now q.node) × (is_labels q.code ≡ true) }
    ensures { WrittenBy table.now doc.entry.source.now doc.entry.tape.now (request_by q) out.old out.new result }
{
    let label = label_shown(table, index, entries, doc, q.node as usize);
    if label.len() == 0 {
        return None;
    }
    message_texts::write_text(q.code, q.form, label, b"", b"", out)
}

// Writes a text of a name, the label that is glued to it, and what the name is without it.
fn write_parts(code: u64, form: u64, name: &[u8], label: &[u8], out: &mut [u8]) -> Option<usize>
    requires { (length label.now ≤ length name.now) × (length name.now ≤ 1048576) }
    ensures { WrittenFrom all_texts code form name.now (take (length name.now - length label.now) name.now) label.now out.old out.new result }
{
    let end = name.len() - label.len();
    message_texts::write_text(code, form, name, &name[..end], label, out)
}

// MissingSpaceBeforeNumber.
fn write_glued<'a>(
    table: &'a [u8],
    index: &[u64],
    entries: usize,
    doc: Document<'a, '_>,
    q: MessageRequest,
    out: &mut [u8],
) -> Option<usize>
    requires { (DocumentNode table.now index.now entries doc.source.now doc.tape.now q.node) × (q.code ≡ missing_space_before_number) }
    ensures { WrittenBy table.now doc.entry.source.now doc.entry.tape.now (request_by q) out.old out.new result }
{
    let i = q.node as usize;
    if !numbers::is_numbered(tape::kind_at(doc.tape, i)) {
        return None;
    }
    let info = cursor::marker_info(table, index, entries, doc.tape, i);
    let text = doc.text(i);
    if !numbers::is_glued(info, text) {
        return None;
    }
    let name = name_shown(table, index, entries, doc, i, q.code);
    let label = numbers::number_label(info, text);
    write_parts(q.code, q.form, name, label, out)
}

// NoteSubmarkerOutsideNote, MissingRequiredAttribute and BodyParagraphBeforeChapter.
fn write_entry<'a>(
    table: &'a [u8],
    index: &[u64],
    entries: usize,
    doc: Document<'a, '_>,
    q: MessageRequest,
    out: &mut [u8],
) -> Option<usize>
    requires { (DocumentNode table.now index.now entries doc.source.now doc.tape.now q.node) × (is_tables q.code ≡ true) }
    ensures { WrittenBy table.now doc.entry.source.now doc.entry.tape.now (request_by q) out.old out.new result }
{
    if q.node == 0 {
        return None;
    }
    let i = q.node as usize;
    let name = name_shown(table, index, entries, doc, i, q.code);
    if name.len() == 0 {
        return None;
    }
    message_texts::write_text(q.code, q.form, name, b"", b"", out)
}

// MilestoneMismatch.
fn write_base<'a>(
    table: &'a [u8],
    index: &[u64],
    entries: usize,
    doc: Document<'a, '_>,
    q: MessageRequest,
    out: &mut [u8],
) -> Option<usize>
    requires { (DocumentNode table.now index.now entries doc.source.now doc.tape.now q.node) × (q.code ≡ milestone_mismatch) }
    ensures { WrittenBy table.now doc.entry.source.now doc.entry.tape.now (request_by q) out.old out.new result }
{
    if q.node == 0 {
        return None;
    }
    let i = q.node as usize;
    let name = name_shown(table, index, entries, doc, i, q.code);
    if !is_paired(name) {
        return None;
    }
    message_texts::write_text(
        q.code,
        q.form,
        milestones::milestone_base(name),
        b"",
        b"",
        out,
    )
}

// Whether a name is a milestone's start or end.
fn is_paired(name: &[u8]) -> bool
    ensures { result ≡ (ends_in 0x73 name.now || ends_in 0x65 name.now) }
{
    milestones::ends_in(name, b's') || milestones::ends_in(name, b'e')
}

// DefaultAttributeNotDefined.
fn write_owner<'a>(
    table: &'a [u8],
    index: &[u64],
    entries: usize,
    doc: Document<'a, '_>,
    q: MessageRequest,
    out: &mut [u8],
) -> Option<usize>
    requires { (DocumentNode table.now index.now entries doc.source.now doc.tape.now q.node) × (q.code ≡ default_attribute_not_defined) }
    ensures { WrittenBy table.now doc.entry.source.now doc.entry.tape.now (request_by q) out.old out.new result }
{
    if q.first == 0 {
        return None;
    }
    if doc.tape.len() as u64 / 16 <= q.first {
        return None;
    }
    let i = q.first as usize;
    let name = name_shown(table, index, entries, doc, i, q.code);
    message_texts::write_text(q.code, q.form, name, b"", b"", out)
}

// Writes a text of the name of an alternate or a published number, the letter of its owner's marker and what its owner is.
fn write_unit(code: u64, form: u64, name: &[u8], out: &mut [u8]) -> Option<usize>
    requires { (1 ≤ length name.now) × (length name.now ≤ 1048576) }
    ensures { WrittenFrom all_texts code form name.now (take 1 name.now) (unit_of (eqb (get_or name.now 0 0) 0x63)) out.old out.new result }
{
    if name[0] == b'c' {
        return message_texts::write_text(code, form, name, &name[..1], b"chapter", out);
    }
    message_texts::write_text(code, form, name, &name[..1], b"verse", out)
}

// MisplacedNumberMarker.
fn write_number<'a>(
    table: &'a [u8],
    index: &[u64],
    entries: usize,
    doc: Document<'a, '_>,
    q: MessageRequest,
    out: &mut [u8],
) -> Option<usize>
    requires { (DocumentNode table.now index.now entries doc.source.now doc.tape.now q.node) × (q.code ≡ misplaced_number_marker) }
    ensures { WrittenBy table.now doc.entry.source.now doc.entry.tape.now (request_by q) out.old out.new result }
{
    if q.node == 0 {
        return None;
    }
    let i = q.node as usize;
    let name = name_shown(table, index, entries, doc, i, q.code);
    if !marker_checks::is_number_marker(name) {
        return None;
    }
    write_unit(q.code, q.form, name, out)
}

// InvalidBookCode.
fn write_book(doc: Document<'_, '_>, q: MessageRequest, out: &mut [u8]) -> Option<usize>
    requires { (Accepted doc.source.now doc.tape.now) × (length doc.source.now ≤ 1048576) × (q.node < count doc.tape.now) × (q.code ≡ invalid_book_code) }
    ensures { (table : List ℕ) → WrittenBy table doc.entry.source.now doc.entry.tape.now (request_by q) out.old out.new result }
{
    let i = q.node as usize;
    if tape::kind_at(doc.tape, i) != tape::MARKER_OPEN {
        return None;
    }
    let code = marker_checks::book_code(doc, i + 1, tape::link_at(doc.tape, i) as usize);
    if code.len() == 0 {
        return None;
    }
    message_texts::write_text(q.code, q.form, code, b"", b"", out)
}

// Writes the text of a finding: its code says which values the text shows.
fn write_message<'a>(
    table: &'a [u8],
    index: &[u64],
    entries: usize,
    doc: Document<'a, '_>,
    q: MessageRequest,
    out: &mut [u8],
) -> Option<usize>
    requires { DocumentNode table.now index.now entries doc.source.now doc.tape.now q.node }
    ensures { WrittenBy table.now doc.entry.source.now doc.entry.tape.now (request_by q) out.old out.new result }
{
    let code = q.code;
    match code {
        INVALID_BOOK_CODE => write_book(doc, q, out),
        INVALID_CHAPTER_SEQUENCE => write_numbers(code, q.form, q.first, q.second, out),
        DUPLICATE_CHAPTER => write_numbers(code, q.form, q.first, q.second, out),
        INVALID_VERSE_SEQUENCE => write_verse(table, index, entries, doc, q, out),
        NOTE_SUBMARKER_OUTSIDE_NOTE => write_entry(table, index, entries, doc, q, out),
        LEADING_ZEROS => write_label(table, index, entries, doc, q, out),
        MILESTONE_MISMATCH => write_base(table, index, entries, doc, q, out),
        MISSING_REQUIRED_ATTRIBUTE => write_entry(table, index, entries, doc, q, out),
        BODY_PARAGRAPH_BEFORE_CHAPTER => write_entry(table, index, entries, doc, q, out),
        INVALID_TABLE_COLUMN_SEQUENCE => write_numbers(code, q.form, q.first, q.second, out),
        DEFAULT_ATTRIBUTE_NOT_DEFINED => write_owner(table, index, entries, doc, q, out),
        MISPLACED_NUMBER_MARKER => write_number(table, index, entries, doc, q, out),
        MISSING_SPACE_BEFORE_NUMBER => write_glued(table, index, entries, doc, q, out),
        UNREADABLE_VERSE_NUMBER => write_label(table, index, entries, doc, q, out),
        _ => message_texts::write_text(q.code, q.form, b"", b"", b"", out),
    }
}

// Numbers 12 and 13, or the text.
pub fn message_in<'a>(
    table: &'a [u8],
    index: &[u64],
    entries: usize,
    doc: Document<'a, '_>,
    q: MessageRequest,
    out: &mut [u8],
) -> Result<usize, Refusal>
    requires { (Indexed table.now index.now entries) × (Accepted doc.source.now doc.tape.now) × (length doc.source.now ≤ 1048576) }
    ensures { (message_answer_of result ≡ by_room (message_text table.now doc.entry.source.now doc.entry.tape.now (request_by q)) (length out.old)) × (out.new ≡ bytes_by None (message_text table.now doc.entry.source.now doc.entry.tape.now (request_by q)) out.old) }
{
    if doc.tape.len() as u64 / 16 <= q.node {
        return Err(Reason::NoMessage.at(0));
    }
    let Some(len) = write_message(table, index, entries, doc, q, out) else {
        return Err(Reason::NoMessage.at(0));
    };
    if out.len() < len {
        return Err(Reason::MessageListTooShort.at(len));
    }
    Ok(len)
}

// The text of a finding: whatever is lent, the answer and the list at exit are the definition's.
pub fn message<'a>(
    table: &'a [u8],
    source: &'a [u8],
    tape: &[u8],
    q: MessageRequest,
    out: &mut [u8],
) -> Result<usize, Refusal>
    ensures answer { message_answer_of result ≡ message_answer table.now source.now tape.now (request_by q) out.old }
    ensures bytes { out.new ≡ message_after table.now source.now tape.now (request_by q) out.old }
{
    let mut index = [0u64; 512];
    let entries = validate::check_input(table, &mut index, source, tape, 65535, 65535)?;
    message_in(table, &index, entries, Document { source, tape }, q, out)
}

// The request for the text of a record of a list.
pub fn request_at(list: &[u64], k: usize) -> MessageRequest
    requires { k < whole_records list.now }
    ensures { request_by result ≡ request_at list.now k }
{
    let at = 8 * k;
    MessageRequest {
        code: list[at + 1],
        form: list[at + 5],
        node: list[at + 4],
        first: list[at + 6],
        second: list[at + 7],
    }
}

// Writes the texts of a list's records, for a document that numbers 1 to 9 pass, with its table's index.
pub fn messages_in<'a>(
    table: &'a [u8],
    index: &[u64],
    entries: usize,
    doc: Document<'a, '_>,
    list: &[u64],
    ends: &mut [u64],
    out: &mut [u8],
) -> Texts
    requires { (Indexed table.now index.now entries) × (Accepted doc.source.now doc.tape.now) × (length doc.source.now ≤ 1048576) }
    ensures answer { messages_answer_of (Ok result) ≡ answer_by_texts (text_at table.now doc.entry.source.now doc.entry.tape.now list.now) (whole_records list.now) (texts_of table.now doc.entry.source.now doc.entry.tape.now list.now (length out.old)) }
    ensures bytes { out.new ≡ over out.old 0 (joined (texts_of table.now doc.entry.source.now doc.entry.tape.now list.now (length out.old))) }
    ensures ends { ends.new ≡ over ends.old 0 (ends_from 0 (texts_of table.now doc.entry.source.now doc.entry.tape.now list.now (length out.old))) }
{
    let mut at: usize = 0;
    for k in 0..list.len() / 8 {
        let q = request_at(list, k);
        match message_in(table, index, entries, doc, q, &mut out[at..]) {
            Err(stop) => {
                return Texts {
                    records: k,
                    bytes: at,
                    stop: Some(stop),
                };
            }
            Ok(len) => {
                at += len;
                if k < ends.len() {
                    ends[k] = at as u64;
                }
            }
        }
    }
    Texts {
        records: list.len() / 8,
        bytes: at,
        stop: None,
    }
}

// Writes the texts of a list's records one behind another, up to the first that has none or no room, and where each ends.
pub fn messages<'a>(
    table: &'a [u8],
    source: &'a [u8],
    tape: &[u8],
    list: &[u64],
    ends: &mut [u64],
    out: &mut [u8],
) -> Result<Texts, Refusal>
    ensures answer { messages_answer_of result ≡ messages_answer table.now source.now tape.now list.now (length out.old) }
    ensures bytes { out.new ≡ messages_after table.now source.now tape.now list.now out.old }
    ensures ends { ends.new ≡ ends_after table.now source.now tape.now list.now (length out.old) ends.old }
{
    let mut index = [0u64; 512];
    let entries = validate::check_input(table, &mut index, source, tape, 65535, 65535)?;
    Ok(messages_in(
        table,
        &index,
        entries,
        Document { source, tape },
        list,
        ends,
        out,
    ))
}
