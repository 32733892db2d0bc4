// The visit of a leaf: the checks of a Chapter or a Verse, and the record after it.
#![tactic(auto)]

ghost use Rattle.std.specs.Prelude.{◌≡◌, not, ◌&&◌, ◌||◌, [], ◌+◌, ◌<◌, ◌≤◌, eqb, ltb, length, get_or};
ghost use Rattle.tape.specs.Nodes.{count, node_at};
ghost use Rattle.table.specs.Entries.{info_of};
ghost use Rattle.cursor.specs.Inner.{Spanned};
ghost use Rattle.findings.specs.Written.{only};
ghost use Rattle.findings.specs.Codes.{unreadable_verse_number};
ghost use Rattle.numbers.specs.Label.{label_of};
ghost use Rattle.numbers.specs.Verse.{position_of, read_of, suffix_of, verse_part, verse_end};
ghost use Rattle.attachment.specs.Attached.{among};
ghost use Rattle.definition.specs.Checks;
ghost use Rattle.definition.specs.Checks.{about, error, warning, given, number_form, chapter_checks, verse_checks, letter_byte, unread, unread_form, end_or, expected_after, leaf_checked};
ghost use Rattle.state.specs.Inner.{latest, state_of, context_of, counts_of, VerseBounded};
ghost use Rattle.chapter_verse.specs.Inner.{LowRead, LabelRead, PassedChapter, PassedVerse};
ghost use Rattle.chapter_verse.specs.InnerVisit.{LeafVisited};
ghost use Rattle.table.specs.Inner.{Indexed};
ghost use Rattle.findings.specs.Inner.{Room, Wrote};

use cursor::Document;
use findings::{
    CHAR_CROSSES_VERSE_BOUNDARY, Counts, DUPLICATE_CHAPTER, INVALID_CHAPTER_SEQUENCE,
    INVALID_VERSE_SEQUENCE, LEADING_ZEROS, MISSING_CHAPTER_NUMBER, MISSING_SPACE_BEFORE_NUMBER,
    MISSING_VERSE_NUMBER, Severity, UNREADABLE_VERSE_NUMBER, VERSE_OUTSIDE_PARAGRAPH,
};
use numbers::{Suffix, Unread, VersePart};
use state::{Context, State};
use table::MarkerInfo;

// Whether a number is among the first k words.
fn is_among_few(seen: &[u32], k: usize, num: u32) -> bool
    requires { k ≤ length seen.now }
    ensures { result ≡ among num (latest seen.now k) }
{
    seen[..k].contains(&num)
}

// Whether a number is among 16 words from a place, or known to be among those before it. No word ends the loop, so that it
// becomes vector code.
fn is_in_block(seen: &[u32], at: usize, num: u32) -> bool
    requires { at + 16 ≤ length seen.now }
    ensures { (result || among num (latest seen.now at)) ≡ among num (latest seen.now (at + 16)) }
{
    let mut found = false;
    for i in 0..16 {
        found |= seen[at + i] == num;
    }
    found
}

// Whether a number is among the first k words.
fn is_seen(seen: &[u32], k: usize, num: u32) -> bool
    requires { k ≤ length seen.now }
    ensures { result ≡ among num (latest seen.now k) }
{
    let mut i = k;
    // A while: it goes back by sixteen words.
    while 16 <= i {
        i -= 16;
        if is_in_block(seen, i, num) {
            return true;
        }
    }
    is_among_few(seen, i, num)
}

fn neither(a: bool, b: bool) -> bool
    ensures { result ≡ (not a && not b) }
{
    !a && !b
}

fn or_not(a: bool, b: bool) -> bool
    ensures { result ≡ (a || not b) }
{
    a || !b
}

fn leading_zeros(label: &[u8]) -> bool
    ensures { result ≡ (ltb 1 (length label.now) && eqb (get_or label.now 0 0) 0x30) }
{
    1 < label.len() && label[0] == b'0'
}

// An error with the span of a node, if it is there.
fn error_if(
    tape: &[u8],
    i: usize,
    code: u64,
    form: u64,
    there: bool,
    list: &mut [u64],
    c: Counts,
) -> Counts
    requires { (i < count tape.now) × Room c (only there (error (node_at [] tape.now i) code form)) }
    ensures { Wrote (only there (error (node_at [] tape.now i) code form)) list.old c list.new result }
{
    let f = state::about(tape, i, Severity::Error, code, form, 0, 0);
    findings::push_if(list, c, there, f)
}

// A warning with the span of a node and two numbers, if it is there.
fn warn_if(
    tape: &[u8],
    i: usize,
    code: u64,
    first: u64,
    second: u64,
    there: bool,
    list: &mut [u64],
    c: Counts,
) -> Counts
    requires { (i < count tape.now) × Room c (only there (about (node_at [] tape.now i) 1 code 0 first second)) }
    ensures { Wrote (only there (about (node_at [] tape.now i) 1 code 0 first second)) list.old c list.new result }
{
    let f = state::about(tape, i, Severity::Warning, code, 0, first, second);
    findings::push_if(list, c, there, f)
}

// How the number of a chapter (form 0) or a verse (form 1) is written, by its label.
fn check_number_form(
    form: u64,
    info: Option<MarkerInfo>,
    label: &[u8],
    glued: bool,
    doc: Document<'_, '_>,
    i: usize,
    list: &mut [u64],
    c: Counts,
) -> Counts
    requires { (i < count doc.tape.now) × LabelRead (info_of info) (node_at doc.source.now doc.tape.now i) label.now glued × Room c (given (number_form form (info_of info) (node_at doc.source.now doc.tape.now i))) }
    ensures { Wrote (given (number_form form (info_of info) (node_at doc.entry.source.now doc.entry.tape.now i))) list.old c list.new result }
{
    let zeros = leading_zeros(label);
    let d = warn_if(
        doc.tape,
        i,
        MISSING_SPACE_BEFORE_NUMBER,
        0,
        0,
        glued,
        list,
        c,
    );
    error_if(doc.tape, i, LEADING_ZEROS, form, zeros, list, d)
}

// The findings of a Chapter, by its label and the chapters seen so far. Its number is its link.
fn chapter_findings(
    info: Option<MarkerInfo>,
    label: &[u8],
    glued: bool,
    doc: Document<'_, '_>,
    i: usize,
    seen: &[u32],
    rec: State,
    list: &mut [u64],
) -> Counts
    requires { (i < count doc.tape.now) × LabelRead (info_of info) (node_at doc.source.now doc.tape.now i) label.now glued × (rec.seen_len ≤ length seen.now) × Room (counts_of rec) (given (chapter_checks (info_of info) (state_of doc.source.now doc.tape.now seen.now [] rec) (node_at doc.source.now doc.tape.now i))) }
    ensures { Wrote (given (chapter_checks (info_of info) (state_of doc.entry.source.now doc.entry.tape.now seen.now [] rec) (node_at doc.entry.source.now doc.entry.tape.now i))) list.old (counts_of rec) list.new result }
{
    let bare = label.len() == 0;
    let number = tape::link_at(doc.tape, i);
    let n = number as u64;
    let twice = is_seen(seen, rec.seen_len, number);
    let next = rec.expected_chapter;
    let leaps = n != next;
    let c = state::counts(rec);
    let d = error_if(doc.tape, i, MISSING_CHAPTER_NUMBER, 0, bare, list, c);
    let e = warn_if(doc.tape, i, DUPLICATE_CHAPTER, n, 0, twice, list, d);
    let g = warn_if(
        doc.tape,
        i,
        INVALID_CHAPTER_SEQUENCE,
        next,
        n,
        leaps,
        list,
        e,
    );
    check_number_form(findings::CHAPTER_FORM, info, label, glued, doc, i, list, g)
}

// Whether what is read of a label breaks the sequence of verses.
fn breaks(read: Result<VersePart, Unread>, v: VersePart) -> bool
    requires { (v.num ≤ 4294967296) × LowRead read }
    ensures { result ≡ Checks.breaks (read_of read) (position_of v) }
{
    match read {
        Ok(p) => !numbers::is_valid_verse_sequence(v, p),
        Err(_) => false,
    }
}

// Whether a label has something and nothing is read of its start.
fn is_unread(bare: bool, read: Result<VersePart, Unread>) -> bool
    ensures { result ≡ (not bare && unread (read_of read)) }
{
    !bare && read.is_err()
}

// Why nothing is read, as a form of UnreadableVerseNumber.
fn unread_form(read: Result<VersePart, Unread>) -> u64
    ensures { result ≡ unread_form (read_of read) }
{
    match read {
        Err(Unread::TooLarge) => findings::TOO_LARGE_FORM,
        _ => findings::NO_DIGITS_FORM,
    }
}

// UnreadableVerseNumber, by whether the label is empty and what is read of its start.
fn unread_finding(
    bare: bool,
    read: Result<VersePart, Unread>,
    tape: &[u8],
    i: usize,
    list: &mut [u64],
    c: Counts,
) -> Counts
    requires { (i < count tape.now) × Room c (only (not bare && unread (read_of read)) (warning (node_at [] tape.now i) unreadable_verse_number (unread_form (read_of read)))) }
    ensures { Wrote (only (not bare && unread (read_of read)) (warning (node_at [] tape.now i) unreadable_verse_number (unread_form (read_of read)))) list.old c list.new result }
{
    let there = is_unread(bare, read);
    let form = unread_form(read);
    let f = state::about(
        tape,
        i,
        Severity::Warning,
        UNREADABLE_VERSE_NUMBER,
        form,
        0,
        0,
    );
    findings::push_if(list, c, there, f)
}

// The byte of a position's letter, or 0.
fn letter_byte(v: VersePart) -> u64
    ensures { result ≡ letter_byte (suffix_of v.suffix) }
{
    match v.suffix {
        Suffix::Letter(b) => b as u64,
        Suffix::None => 0,
    }
}

// The findings of a Verse, by its label and what is read of it.
fn verse_findings(
    info: Option<MarkerInfo>,
    label: &[u8],
    glued: bool,
    read: Result<VersePart, Unread>,
    doc: Document<'_, '_>,
    i: usize,
    context: Context,
    rec: State,
    list: &mut [u64],
) -> Counts
    requires { (i < count doc.tape.now) × LabelRead (info_of info) (node_at doc.source.now doc.tape.now i) label.now glued × (read_of read ≡ verse_part label.now) × VerseBounded rec × Room (counts_of rec) (given (verse_checks (info_of info) (context_of context) (state_of doc.source.now doc.tape.now [] [] rec) (node_at doc.source.now doc.tape.now i))) }
    ensures { Wrote (given (verse_checks (info_of info) (context_of context) (state_of doc.entry.source.now doc.entry.tape.now [] [] rec) (node_at doc.entry.source.now doc.entry.tape.now i))) list.old (counts_of rec) list.new result }
{
    let bare = label.len() == 0;
    let v = rec.expected_verse;
    let n = v.num;
    let amiss = breaks(read, v);
    let letter = letter_byte(v);
    let outside = neither(context.in_body_para, rec.verse_outside_warned);
    let crosses = context.in_char;
    let c = state::counts(rec);
    let d = warn_if(doc.tape, i, VERSE_OUTSIDE_PARAGRAPH, 0, 0, outside, list, c);
    let e = error_if(
        doc.tape,
        i,
        CHAR_CROSSES_VERSE_BOUNDARY,
        0,
        crosses,
        list,
        d,
    );
    let g = error_if(doc.tape, i, MISSING_VERSE_NUMBER, 0, bare, list, e);
    let h = warn_if(
        doc.tape,
        i,
        INVALID_VERSE_SEQUENCE,
        n,
        letter,
        amiss,
        list,
        g,
    );
    let k = unread_finding(bare, read, doc.tape, i, list, h);
    check_number_form(findings::VERSE_FORM, info, label, glued, doc, i, list, k)
}

// The record after a Chapter, whose number is added to the chapters seen.
fn after_chapter(tape: &[u8], i: usize, rec: State, seen: &mut [u32]) -> State
    requires { (i < count tape.now) × (rec.seen_len < length seen.old) }
    ensures { PassedChapter tape.now i seen.old rec seen.new result }
{
    let number = tape::link_at(tape, i);
    let k = rec.seen_len;
    seen[k] = number;
    let first = VersePart {
        num: 1,
        suffix: Suffix::None,
    };
    let mut after = rec;
    after.has_chapter = true;
    after.expected_chapter = number as u64 + 1;
    after.expected_verse = first;
    after.seen_len = k + 1;
    after
}

// What is read of a label's end, by what is read of its start, which is the end of a label without a hyphen.
fn end_read(label: &[u8], start: Result<VersePart, Unread>) -> Result<VersePart, Unread>
    requires { read_of start ≡ verse_part label.now }
    ensures { read_of result ≡ verse_end label.now }
{
    if text::find_byte(label, b'-') < label.len() {
        numbers::parse_verse_range_end(label)
    } else {
        start
    }
}

// The position that a label ends with: an end that isn't read lets the start serve.
fn end_or(end: Result<VersePart, Unread>, start: VersePart) -> VersePart
    ensures { position_of result ≡ end_or (read_of end) (position_of start) }
{
    end.unwrap_or(start)
}

// The position expected after a label, by what is read of its start. A label that isn't read doesn't change it.
fn verse_after(label: &[u8], read: Result<VersePart, Unread>, v: VersePart) -> VersePart
    requires { (v.num ≤ 4294967296) × (read_of read ≡ verse_part label.now) }
    ensures { (position_of result ≡ expected_after (verse_part label.now) label.now (position_of v)) × (result.num ≤ 4294967296) }
{
    match read {
        Ok(start) => numbers::next_expected(end_or(end_read(label, read), start)),
        Err(_) => v,
    }
}

// The record after a Verse, by its label and what is read of it.
fn after_verse(
    info: Option<MarkerInfo>,
    label: &[u8],
    read: Result<VersePart, Unread>,
    doc: Document<'_, '_>,
    i: usize,
    context: Context,
    rec: State,
) -> State
    requires { (label.now ≡ label_of (info_of info) (node_at doc.source.now doc.tape.now i).text) × (read_of read ≡ verse_part label.now) × VerseBounded rec × (rec.verses < 4611686018427387904) }
    ensures { PassedVerse (info_of info) doc.entry.source.now doc.entry.tape.now (context_of context) i rec result }
{
    let v = rec.expected_verse;
    let next = verse_after(label, read, v);
    let warned = or_not(rec.verse_outside_warned, context.in_body_para);
    let mut after = rec;
    after.has_verse = true;
    after.verse_outside_warned = warned;
    after.expected_verse = next;
    after.verses = rec.verses + 1;
    after
}

// Checks a Chapter or a Verse, and skips any other leaf.
pub fn visit_leaf(
    table: &[u8],
    index: &[u64],
    entries: usize,
    doc: Document<'_, '_>,
    i: usize,
    context: Context,
    rec: State,
    seen: &mut [u32],
    list: &mut [u64],
) -> State
    requires { (Indexed table.now index.now entries) × (Spanned doc.source.now doc.tape.now i) × VerseBounded rec × (rec.seen_len < length seen.old) × (rec.verses < 4611686018427387904) × Room (counts_of rec) (leaf_checked table.now (context_of context) (state_of doc.source.now doc.tape.now seen.old [] rec) (node_at doc.source.now doc.tape.now i)).findings }
    ensures { LeafVisited table.now doc.entry.source.now doc.entry.tape.now (context_of context) i seen.old list.old rec seen.new list.new result }
{
    let kind = tape::kind_at(doc.tape, i);
    if !numbers::is_numbered(kind) {
        return rec;
    }
    let info = cursor::marker_info(table, index, entries, doc.tape, i);
    let text = doc.text(i);
    let at = numbers::label_span(info, text);
    let from = at.start;
    let to = at.end;
    let label = &text[from..to];
    let glued = at.glued;
    if kind == tape::CHAPTER {
        let c = chapter_findings(info, label, glued, doc, i, seen, rec, list);
        let q = after_chapter(doc.tape, i, rec, seen);
        return state::with_counts(q, c);
    }
    let read = numbers::parse_verse_part(label);
    let c = verse_findings(info, label, glued, read, doc, i, context, rec, list);
    let q = after_verse(info, label, read, doc, i, context, rec);
    state::with_counts(q, c)
}
