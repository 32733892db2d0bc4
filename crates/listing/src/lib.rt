// Writes a listing over lent lists, in pieces: its head, then as many whole findings as fit. Line and column of every place of a
// source are found in one pass.
#![tactic(auto)]

ghost use Rattle.std.specs.Prelude.{◌+◌, ◌*◌, ◌≤◌, ◌<◌, ◌≡◌, IsTrue, nat_lt, length, map};
ghost use Rattle.std.specs.List.{list_all};
ghost use Rattle.std.specs.Prelude.{None};
ghost use Rattle.text.specs.Utf8.{first_ill_formed};
ghost use Rattle.buffer.specs.Over.{Put, over, place_limit};
ghost use Rattle.buffer.specs.Decimal.{decimal};
ghost use Rattle.listing.specs.Lines.{too_large_lines, refused_lines, checked_lines, finding_lines, name_at, farthest};
ghost use Rattle.listing.specs.LinesAndColumns.{lines_from, columns_from, PlacesOf};
ghost use Rattle.listing.specs.Listing.{message_shown, listed_finding, listed_each};
ghost use Rattle.listing.specs.Pieces.{head_lines, held_count, held_findings, piece_of, next_of, Listable};
ghost use Rattle.listing.specs.Inner.{line_of, Near, ShownIn, record_at, listed_of, PutWhole};
ghost use Rattle.table.specs.Inner.{Indexed};
ghost use Rattle.tape.specs.Forest.{Accepted};
ghost use Rattle.findings.specs.Written.{whole_records};
ghost use Rattle.definition.specs.Outcome.{smaller};
ghost use Rattle.validate.specs.Entry.{answer_in};
ghost use Rattle.messages.specs.Message.{message_text};
ghost use Rattle.messages.specs.Answer.{request_by};

use cursor::Document;
use messages::MessageRequest;
use refusals::Numbered;
use validate::Report;

// The names by number.
static SEVERITY_NAMES: [&[u8]; 3] = [b"error", b"warning", b"info"];

static CODE_NAMES: [&[u8]; 36] = [
    b"UnknownMarker",
    b"UnclosedMarker",
    b"StrayCloseMarker",
    b"StrayBackslash",
    b"MissingIdMarker",
    b"InvalidBookCode",
    b"DuplicateId",
    b"TextBeforeId",
    b"MissingChapterMarker",
    b"InvalidChapterSequence",
    b"DuplicateChapter",
    b"InvalidVerseSequence",
    b"VerseOutsideParagraph",
    b"NoteSubmarkerOutsideNote",
    b"NonEmptyBlankLine",
    b"LeadingZeros",
    b"MilestoneMismatch",
    b"InvalidAttributes",
    b"MissingChapterNumber",
    b"MissingVerseNumber",
    b"CharCrossesVerseBoundary",
    b"EmptyFigure",
    b"UnquotedAttributeValue",
    b"MissingRequiredAttribute",
    b"BodyParagraphBeforeChapter",
    b"EmptyWordMarker",
    b"MissingMilestoneSelfClose",
    b"InvalidTableColumnSequence",
    b"DeprecatedMarker",
    b"ImplicitClose",
    b"UnclosedNote",
    b"UnclosedAtEof",
    b"DefaultAttributeNotDefined",
    b"MisplacedNumberMarker",
    b"MissingSpaceBeforeNumber",
    b"UnreadableVerseNumber",
];

// A lent list, and the place in it behind what is written.
#[derive(Drop)]
struct Writer<'a> {
    out: &'a mut [u8],
    at: usize,
}

impl<'a> Writer<'a> {
    fn put(&mut self, bytes: &[u8])
        requires { (self.old.at ≤ place_limit) × (length bytes.now ≤ place_limit) }
        ensures same { self.new.out.ghost_name ≡ self.old.out.ghost_name }
        ensures written { Put bytes.now self.old.out.now self.old.at self.new.out.now self.new.at }
    {
        self.at = buffer::put(self.out, self.at, bytes);
    }

    fn put_decimal(&mut self, n: u64)
        requires { self.old.at ≤ place_limit }
        ensures same { self.new.out.ghost_name ≡ self.old.out.ghost_name }
        ensures written { Put (decimal n) self.old.out.now self.old.at self.new.out.now self.new.at }
    {
        self.at = buffer::put_decimal(self.out, self.at, n);
    }

    // Writes a key, `=`, a value and byte 10.
    fn put_line(&mut self, key: &[u8], value: &[u8])
        requires { (self.old.at ≤ 2 * farthest) × (length key.now ≤ 8) × (length value.now ≤ farthest) }
        ensures same { self.new.out.ghost_name ≡ self.old.out.ghost_name }
        ensures written { Put (line_of key.now value.now) self.old.out.now self.old.at self.new.out.now self.new.at }
    {
        self.put(key);
        self.put(b"=");
        self.put(value);
        self.put(b"\n");
    }

    // Writes a line whose value is a number in decimal digits.
    fn put_count(&mut self, key: &[u8], n: u64)
        requires { (self.old.at ≤ 2 * farthest) × (length key.now ≤ 8) }
        ensures same { self.new.out.ghost_name ≡ self.old.out.ghost_name }
        ensures near { Near 32 (line_of key.now (decimal n)) self.old.out.now self.old.at self.new.out.now self.new.at }
    {
        self.put(key);
        self.put(b"=");
        self.put_decimal(n);
        self.put(b"\n");
    }

    // Writes a line whose value is the k-th of some names; its value is empty past the last.
    fn put_named(&mut self, key: &[u8], names: &[&[u8]], k: u64)
        requires { (self.old.at ≤ 2 * farthest) × (length key.now ≤ 8) × IsTrue (list_all (λ n. nat_lt (length n.now) 1000) names.now) }
        ensures same { self.new.out.ghost_name ≡ self.old.out.ghost_name }
        ensures near { Near 1024 (line_of key.now (name_at (map (λ n. n.now) names.now) k)) self.old.out.now self.old.at self.new.out.now self.new.at }
    {
        self.put_line(key, name(names, k));
    }
}

// Writes a line whose value is a number in decimal digits.
pub fn put_count(out: &mut [u8], at: usize, key: &[u8], n: u64) -> usize
    requires { (at ≤ 2 * farthest) × (length key.now ≤ 8) }
    ensures { Near 32 (line_of key.now (decimal n)) out.old at out.new result }
{
    let mut writer = Writer { out, at };
    writer.put_count(key, n);
    writer.at
}

// The k-th name, empty past the last.
fn name<'a>(names: &[&'a [u8]], k: u64) -> &'a [u8]
    requires { IsTrue (list_all (λ n. nat_lt (length n.now) 1000) names.now) }
    ensures { (result.now ≡ name_at (map (λ n. n.now) names.now) k) × (length result.now ≤ 1000) }
{
    match names.get(k as usize) {
        Some(name) => name,
        None => b"",
    }
}

pub fn put_too_large(out: &mut [u8], at: usize) -> usize
    requires { at ≤ farthest }
    ensures lines { Put too_large_lines out.old at out.new result }
    ensures short { result ≤ at + 256 }
{
    let mut writer = Writer { out, at };
    writer.put_line(b"verdict", b"toolarge");
    writer.at
}

pub fn put_refused(out: &mut [u8], at: usize, number: u64, place: u64) -> usize
    requires { at ≤ farthest }
    ensures lines { Put (refused_lines number place) out.old at out.new result }
    ensures short { result ≤ at + 256 }
{
    let mut writer = Writer { out, at };
    writer.put_line(b"verdict", b"refused");
    writer.put_count(b"refusal", number);
    writer.put_count(b"place", place);
    writer.at
}

pub fn put_checked(
    out: &mut [u8],
    at: usize,
    errors: u64,
    warnings: u64,
    infos: u64,
    total: u64,
) -> usize
    requires { at ≤ farthest }
    ensures lines { Put (checked_lines errors warnings infos total) out.old at out.new result }
    ensures short { result ≤ at + 256 }
{
    let mut writer = Writer { out, at };
    writer.put_line(b"verdict", b"checked");
    writer.put_count(b"errors", errors);
    writer.put_count(b"warnings", warnings);
    writer.put_count(b"infos", infos);
    writer.put_count(b"findings", total);
    writer.at
}

// A severity or a code past the last name has an empty value.
pub fn put_finding(
    out: &mut [u8],
    at: usize,
    severity: u64,
    code: u64,
    line: u64,
    column: u64,
    message: &[u8],
) -> usize
    requires { (at ≤ farthest) × (length message.now ≤ farthest) }
    ensures { Put (finding_lines severity code line column message.now) out.old at out.new result }
{
    let mut writer = Writer { out, at };
    writer.put_named(b"severity", &SEVERITY_NAMES, severity);
    writer.put_named(b"code", &CODE_NAMES, code);
    writer.put_count(b"line", line);
    writer.put_count(b"column", column);
    writer.put_line(b"message", message);
    writer.at
}

// Line and column of every place of a source, its end among them, one pass for all of them. In a well-formed source a character
// begins at each byte outside 80 to BF, and at no other.
pub fn lines_and_columns(source: &[u8], lines: &mut [u32], columns: &mut [u32])
    requires { (length source.now ≤ 1048576) × (length source.now < length lines.old) × (length source.now < length columns.old) × (first_ill_formed source.now ≡ None) }
    ensures lines { lines.new ≡ over lines.old 0 (lines_from source.now 0 (length source.now + 1)) }
    ensures columns { columns.new ≡ over columns.old 0 (columns_from source.now 0 (length source.now + 1)) }
{
    let mut line: u32 = 1;
    let mut column: u32 = 1;
    for (i, b) in source.iter().enumerate() {
        lines[i] = line;
        columns[i] = column;
        match *b {
            10 => {
                line += 1;
                column = 1;
            }
            0x80..=0xBF => {}
            _ => column += 1,
        }
    }
    lines[source.len()] = line;
    columns[source.len()] = column;
}

// The lines before the findings, by what the check answers.
pub fn put_head<E: Numbered>(out: &mut [u8], answer: Result<Report, E>) -> usize
    ensures lines { Put (head_lines (answer_in E.says answer)) out.old 0 out.new result }
    ensures short { result ≤ 256 }
{
    match answer {
        Err(r) => put_refused(out, 0, r.number(), r.place()),
        Ok(r) => put_checked(out, 0, r.errors, r.warnings, r.infos, r.total),
    }
}

// How many findings the check has written.
pub fn held<E: Numbered>(answer: Result<Report, E>) -> u64
    ensures { result ≡ held_count (answer_in E.says answer) }
{
    match answer {
        Err(_) => 0,
        Ok(r) => r.written,
    }
}

// Writes the message of a finding, and gives how many bytes of it are shown: none if it doesn't fit.
fn write_shown<'a>(
    table: &'a [u8],
    index: &[u64],
    entries: usize,
    doc: Document<'a, '_>,
    q: MessageRequest,
    text: &mut [u8],
) -> usize
    requires { (Indexed table.now index.now entries) × (Accepted doc.source.now doc.tape.now) × (length doc.source.now ≤ 1048576) }
    ensures { ShownIn (message_shown (length text.old) (message_text table.now doc.entry.source.now doc.entry.tape.now (request_by q))) text.new result }
{
    match messages::message_in(table, index, entries, doc, q, text) {
        Ok(n) => n,
        Err(_) => 0,
    }
}

// A place of the source; past its end line and column are those of the end.
fn place(start: u64, len: usize) -> usize
    ensures { result ≡ smaller start len }
{
    start.min(len as u64) as usize
}

// What a finding's lines show beside its message.
#[derive(Clone, Copy)]
struct Listed {
    severity: u64,
    code: u64,
    line: u64,
    column: u64,
}

fn listed_at(source: &[u8], list: &[u64], k: usize, lines: &[u32], columns: &[u32]) -> Listed
    requires { (PlacesOf source.now lines.now columns.now) × (length source.now ≤ 1048576) × (k < whole_records list.now) }
    ensures { result ≡ listed_of source.now (record_at list.now k) }
{
    let at = 8 * k;
    let i = place(list[at + 2], source.len());
    Listed {
        severity: list[at],
        code: list[at + 1],
        line: lines[i] as u64,
        column: columns[i] as u64,
    }
}

// The place behind the lines of a finding: written over an empty list, they are measured.
fn end_of(at: usize, f: Listed, message: &[u8]) -> usize
    requires { (at ≤ farthest) × (length message.now ≤ farthest) }
    ensures { result ≡ at + length (finding_lines f.severity f.code f.line f.column message.now) }
{
    let mut nothing = [0u8; 0];
    put_finding(
        &mut nothing,
        at,
        f.severity,
        f.code,
        f.line,
        f.column,
        message,
    )
}

// Writes the lines of a finding of a list from a place on, if they have whole room there, and gives the place behind them.
fn put_whole<'a>(
    table: &'a [u8],
    index: &[u64],
    entries: usize,
    doc: Document<'a, '_>,
    list: &[u64],
    k: usize,
    lines: &[u32],
    columns: &[u32],
    text: &mut [u8],
    out: &mut [u8],
    at: usize,
) -> usize
    requires { (Listable table.now index.now entries doc.source.now doc.tape.now lines.now columns.now) × (k < whole_records list.now) × (length text.old ≤ farthest) × (at ≤ farthest) }
    ensures { PutWhole (listed_finding (length text.old) table.now doc.entry.source.now doc.entry.tape.now (record_at list.now k)) out.old at out.new result }
{
    let q = messages::request_at(list, k);
    let n = write_shown(table, index, entries, doc, q, text);
    let f = listed_at(doc.source, list, k, lines, columns);
    let end = end_of(at, f, &text[..n]);
    if end <= out.len() {
        put_finding(out, at, f.severity, f.code, f.line, f.column, &text[..n]);
    }
    end
}

// A piece of a listing: where its bytes end, and which finding is next.
#[derive(Clone, Copy)]
pub struct Piece {
    pub end: usize,
    pub next: usize,
}

// Writes as many whole findings as fit, of the first `held` of a list, from one on. Line and column are read from the lists that
// `lines_and_columns` writes; a message that has no room in `text` is empty, and what `text` holds afterwards is left free.
pub fn put_findings<'a>(
    table: &'a [u8],
    index: &[u64],
    entries: usize,
    doc: Document<'a, '_>,
    list: &[u64],
    held: usize,
    from: usize,
    lines: &[u32],
    columns: &[u32],
    text: &mut [u8],
    out: &mut [u8],
) -> Piece
    requires { (Listable table.now index.now entries doc.source.now doc.tape.now lines.now columns.now) × (held ≤ whole_records list.now) × (from ≤ held) × (length text.old ≤ farthest) × (length out.old ≤ farthest) }
    ensures piece { Put (piece_of (listed_each (length text.old) table.now doc.entry.source.now doc.entry.tape.now (held_findings held list.now)) from (length out.old)) out.old 0 out.new result.end }
    ensures next { result.next ≡ next_of (listed_each (length text.old) table.now doc.entry.source.now doc.entry.tape.now (held_findings held list.now)) from (length out.old) }
{
    let mut at: usize = 0;
    for k in from..held {
        let end = put_whole(
            table, index, entries, doc, list, k, lines, columns, text, out, at,
        );
        if out.len() < end {
            return Piece { end: at, next: k };
        }
        at = end;
    }
    Piece {
        end: at,
        next: held,
    }
}
