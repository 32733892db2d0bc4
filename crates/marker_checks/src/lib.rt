// The checks of a marker that has a table entry, all but the milestone's, in the Rust's order, and the record after `id`.
#![tactic(auto)]

ghost use Rattle.std.specs.Prelude.{◌≡◌, true, false, not, ◌&&◌, ◌||◌, [], ◌+◌, ◌<◌, ◌≤◌, eqb, length};
ghost use Rattle.text.specs.Pick.{pick};
ghost use Rattle.tape.specs.Nodes.{count, node_at, kind_at, start_at, link_at, is_open};
ghost use Rattle.tape.specs.Forest.{forest};
ghost use Rattle.table.specs.Names.{note_only};
ghost use Rattle.table.specs.Entries.{entry_of_info, character_category};
ghost use Rattle.cursor.specs.Names.{name_of};
ghost use Rattle.cursor.specs.Inner.{Run, Spanned};
ghost use Rattle.findings.specs.Finding.{severity_of};
ghost use Rattle.findings.specs.Written.{only};
ghost use Rattle.attachment.specs.Attached.{starts_of, among};
ghost use Rattle.rows.specs.Row.{row_findings};
ghost use Rattle.definition.specs.Checks;
ghost use Rattle.definition.specs.Checks.{given, id_checks, place_checks, content_checks, book_code, is_book, front_by, inline_content, has_leaf, has_text, has_attribute, has_markers, number_markers, b_name, fig_name, w_name, rb_name, tr_name, is_body};
ghost use Rattle.state.specs.Inner.{context_of, anchor_of, starts_for, state_of, counts_of};
ghost use Rattle.marker_checks.specs.InnerSkip.{only_texts, has_own_check, placed, can_skip_marker_at};
ghost use Rattle.marker_checks.specs.InnerVisit.{own_at, MarkerVisited, children_at};
ghost use Rattle.marker_checks.specs.Inner.{has_content, settles, with_id};
ghost use Rattle.findings.specs.Codes.{should_be_uppercase, not_valid};
ghost use Rattle.text.specs.Bytes.{equal, one_of, upper};
ghost use Rattle.findings.specs.Inner.{Room, Wrote};

use attachment::Attached;
use cursor::{Document, Siblings};
use findings::{
    BODY_PARAGRAPH_BEFORE_CHAPTER, Counts, DUPLICATE_ID, EMPTY_FIGURE, EMPTY_WORD_MARKER,
    INVALID_BOOK_CODE, MISPLACED_NUMBER_MARKER, MISSING_REQUIRED_ATTRIBUTE, NON_EMPTY_BLANK_LINE,
    NOTE_SUBMARKER_OUTSIDE_NOTE, Severity,
};
use state::{Context, State};
use table::{BookId, MarkerInfo};

// A finding with the span of a node, if it is there.
fn push_for_node(
    tape: &[u8],
    i: usize,
    there: bool,
    severity: Severity,
    code: u64,
    form: u64,
    list: &mut [u64],
    c: Counts,
) -> Counts
    requires { (i < count tape.now) × Room c (only there (Checks.about (node_at [] tape.now i) (severity_of severity) code form 0 0)) }
    ensures { Wrote (only there (Checks.about (node_at [] tape.now i) (severity_of severity) code form 0 0)) list.old c list.new result }
{
    if !there {
        return c;
    }
    findings::push(list, c, state::about(tape, i, severity, code, form, 0, 0))
}

// The first word of the first Text of a run; empty where there is none.
pub fn book_code<'a>(doc: Document<'a, '_>, from: usize, to: usize) -> &'a [u8]
    requires { Run doc.source.now doc.tape.now from to }
    ensures { result.now ≡ book_code (forest doc.entry.source.now doc.entry.tape.now from to) }
{
    match Siblings::new(doc.tape, from, to).find(|i| tape::kind_at(doc.tape, *i) == tape::TEXT) {
        Some(i) => text::first_word(doc.text(i)),
        None => &doc.source[..0],
    }
}

// Whether a node settles if a line has content: a marker, a chapter, a verse, or a text that isn't blank.
fn settles(doc: Document<'_, '_>, i: usize) -> bool
    requires { Spanned doc.source.now doc.tape.now i }
    ensures { result ≡ settles (node_at doc.entry.source.now doc.entry.tape.now i) }
{
    let kind = tape::kind_at(doc.tape, i);
    kind == tape::MARKER_OPEN || numbers::is_numbered(kind) || doc.is_kind(i, tape::TEXT, false)
}

// Whether a line has a text that isn't blank or a marker, before any verse or chapter.
fn blank_line_has_inline_content(doc: Document<'_, '_>, from: usize, to: usize) -> bool
    requires { Run doc.source.now doc.tape.now from to }
    ensures { result ≡ inline_content (forest doc.entry.source.now doc.entry.tape.now from to) }
{
    match Siblings::new(doc.tape, from, to).find(|i| settles(doc, *i)) {
        Some(i) => !numbers::is_numbered(tape::kind_at(doc.tape, i)),
        None => false,
    }
}

// Whether a run has a leaf of a kind; one whose text is blank counts if `blank` says so.
fn has_leaf(doc: Document<'_, '_>, from: usize, to: usize, kind: u8, blank: bool) -> bool
    requires { (Run doc.source.now doc.tape.now from to) × (is_open kind ≡ false) }
    ensures { result ≡ has_leaf kind blank (forest doc.entry.source.now doc.entry.tape.now from to) }
{
    Siblings::new(doc.tape, from, to).any(|i| doc.is_kind(i, kind, blank))
}

fn is_book(code: &[u8]) -> bool
    ensures { result ≡ is_book code.now }
{
    BookId::from_code(code).is_some()
}

// Whether the code in upper case is a book. All codes have three bytes.
fn is_book_upper(code: &[u8]) -> bool
    ensures { result ≡ is_book (upper code.now) }
{
    code.len() == 3
        && is_book(&[
            text::upper(code[0]),
            text::upper(code[1]),
            text::upper(code[2]),
        ])
}

// Whether a book code is there and not in the list.
fn is_bad_code(code: &[u8]) -> bool
    ensures { result ≡ (not (eqb (length code.now) 0) && not (is_book code.now)) }
{
    !code.is_empty() && !is_book(code)
}

// The form of a bad code's finding.
fn code_form(code: &[u8]) -> u64
    ensures { result ≡ pick (is_book (upper code.now)) should_be_uppercase not_valid }
{
    if is_book_upper(code) {
        findings::SHOULD_BE_UPPERCASE
    } else {
        findings::NOT_VALID
    }
}

// The findings of node i if it is an `id`: `link` is the end of its children.
fn id_findings(
    named: bool,
    doc: Document<'_, '_>,
    i: usize,
    link: usize,
    rec: State,
    list: &mut [u64],
    c: Counts,
) -> Counts
    requires { (i < count doc.tape.now) × (Run doc.source.now doc.tape.now (i + 1) link) × Room c (given (id_checks named (state_of doc.source.now doc.tape.now [] [] rec) (book_code (forest doc.source.now doc.tape.now (i + 1) link)) (node_at doc.source.now doc.tape.now i))) }
    ensures { Wrote (given (id_checks named (state_of doc.entry.source.now doc.entry.tape.now [] [] rec) (book_code (forest doc.entry.source.now doc.entry.tape.now (i + 1) link)) (node_at doc.entry.source.now doc.entry.tape.now i))) list.old c list.new result }
{
    if !named {
        return c;
    }
    let code = book_code(doc, i + 1, link);
    let e = Severity::Error;
    let d = push_for_node(doc.tape, i, rec.has_id, e, DUPLICATE_ID, 0, list, c);
    let bad = is_bad_code(code);
    let form = code_form(code);
    let w = Severity::Warning;
    push_for_node(doc.tape, i, bad, w, INVALID_BOOK_CODE, form, list, d)
}

// Without a code the flag stays.
fn front_after(code: &[u8], before: bool) -> bool
    ensures { result ≡ front_by code.now before }
{
    if code.is_empty() {
        before
    } else {
        table::is_front_matter_code(code)
    }
}

// The record after a marker with the children from one node up to another.
fn after_id(named: bool, doc: Document<'_, '_>, from: usize, to: usize, rec: State) -> State
    requires { Run doc.source.now doc.tape.now from to }
    ensures { result ≡ with_id named (book_code (forest doc.entry.source.now doc.entry.tape.now from to)) rec }
{
    if !named {
        return rec;
    }
    let front = front_after(book_code(doc, from, to), rec.front_matter);
    State {
        has_id: true,
        front_matter: front,
        ..rec
    }
}

#[tactic(auto, unfolding(text::specs::Literal::ascii, text::specs::Bytes::one_of, definition::specs::Checks::number_markers))]
pub fn is_number_marker(name: &[u8]) -> bool
    ensures { result ≡ one_of number_markers name.now }
{
    text::equal(b"ca", name)
        || text::equal(b"cp", name)
        || text::equal(b"va", name)
        || text::equal(b"vp", name)
}

// A marker of notes that stands outside one.
fn outside_note(m: MarkerInfo, note: bool, name: &[u8]) -> bool
    ensures { result ≡ (eqb (entry_of_info m).category character_category && (not note && one_of note_only name.now)) }
{
    !note && state::is_of(m, table::CHARACTER) && table::is_note_only_marker(name)
}

#[tactic(auto, unfolding(text::specs::Literal::ascii))]
fn filled_blank_line(name: &[u8], doc: Document<'_, '_>, from: usize, to: usize) -> bool
    requires { Run doc.source.now doc.tape.now from to }
    ensures { result ≡ (equal name.now b_name && inline_content (forest doc.entry.source.now doc.entry.tape.now from to)) }
{
    text::equal(name, b"b") && blank_line_has_inline_content(doc, from, to)
}

fn before_chapter(m: MarkerInfo, rec: State) -> bool
    ensures { result ≡ (is_body (entry_of_info m) && (not rec.has_chapter && not rec.front_matter)) }
{
    !rec.has_chapter && !rec.front_matter && state::is_body(m)
}

// A number that isn't attached, by the table's name and the name as written.
fn is_misplaced(name: &[u8], doc: Document<'_, '_>, i: usize, numbers: Attached) -> bool
    requires { Spanned doc.source.now doc.tape.now i }
    ensures { result ≡ (one_of number_markers name.now && (one_of number_markers (name_of (node_at doc.entry.source.now doc.entry.tape.now i).text) && not (among (start_at doc.entry.tape.now i) (starts_of numbers)))) }
{
    is_number_marker(name)
        && is_number_marker(doc.marker_name(i))
        && !attachment::is_attached(numbers, tape::start_at(doc.tape, i))
}

// The findings about the place of node i, by its name in the table and the record after `id`. Its run ends at `to`.
fn place_findings(
    name: &[u8],
    m: MarkerInfo,
    doc: Document<'_, '_>,
    i: usize,
    to: usize,
    context: Context,
    numbers: Attached,
    rec: State,
    list: &mut [u64],
    c: Counts,
) -> Counts
    requires { (Run doc.source.now doc.tape.now i to) × (i < to) × (is_open (kind_at doc.tape.now i) ≡ true) × (starts_of numbers ≡ starts_for (anchor_of doc.source.now doc.tape.now rec.anchor i) (forest doc.source.now doc.tape.now i to)) × Room c (given (place_checks name.now (entry_of_info m) (context_of context) (anchor_of doc.source.now doc.tape.now rec.anchor i) (state_of doc.source.now doc.tape.now [] [] rec) (node_at doc.source.now doc.tape.now i) (children_at doc.source.now doc.tape.now i) (forest doc.source.now doc.tape.now i to))) }
    ensures { Wrote (given (place_checks name.now (entry_of_info m) (context_of context) (anchor_of doc.entry.source.now doc.entry.tape.now rec.anchor i) (state_of doc.entry.source.now doc.entry.tape.now [] [] rec) (node_at doc.entry.source.now doc.entry.tape.now i) (children_at doc.entry.source.now doc.entry.tape.now i) (forest doc.entry.source.now doc.entry.tape.now i to))) list.old c list.new result }
{
    let link = tape::link_at(doc.tape, i) as usize;
    let outside = outside_note(m, context.in_note, name);
    let filled = filled_blank_line(name, doc, i + 1, link);
    let early = before_chapter(m, rec);
    let misplaced = is_misplaced(name, doc, i, numbers);
    let e = Severity::Error;
    let w = Severity::Warning;
    let mut d = push_for_node(
        doc.tape,
        i,
        outside,
        e,
        NOTE_SUBMARKER_OUTSIDE_NOTE,
        0,
        list,
        c,
    );
    d = push_for_node(doc.tape, i, filled, e, NON_EMPTY_BLANK_LINE, 0, list, d);
    d = push_for_node(
        doc.tape,
        i,
        early,
        e,
        BODY_PARAGRAPH_BEFORE_CHAPTER,
        0,
        list,
        d,
    );
    push_for_node(
        doc.tape,
        i,
        misplaced,
        w,
        MISPLACED_NUMBER_MARKER,
        0,
        list,
        d,
    )
}

// A figure without text, or with blank text alone; attributes don't count.
#[tactic(auto, unfolding(text::specs::Literal::ascii))]
fn is_empty_figure(name: &[u8], doc: Document<'_, '_>, from: usize, to: usize) -> bool
    requires { Run doc.source.now doc.tape.now from to }
    ensures { result ≡ (equal name.now fig_name && not (has_text (forest doc.entry.source.now doc.entry.tape.now from to))) }
{
    text::equal(name, b"fig") && !has_leaf(doc, from, to, tape::TEXT, false)
}

// A `\\w` without text, but for blank text, without an attribute and without a marker.
#[tactic(auto, using(crate::proofs::Children::markers_plain), unfolding(text::specs::Literal::ascii))]
fn is_empty_word(name: &[u8], doc: Document<'_, '_>, from: usize, to: usize) -> bool
    requires { Run doc.source.now doc.tape.now from to }
    ensures { result ≡ (equal name.now w_name && not (has_content (forest doc.entry.source.now doc.entry.tape.now from to))) }
{
    text::equal(name, b"w")
        && !has_leaf(doc, from, to, tape::TEXT, false)
        && !has_leaf(doc, from, to, tape::ATTRIBUTE, true)
        && attachment::is_plain_text(doc, from, to)
}

#[tactic(auto, unfolding(text::specs::Literal::ascii))]
fn lacks_required_attributes(name: &[u8], doc: Document<'_, '_>, from: usize, to: usize) -> bool
    requires { Run doc.source.now doc.tape.now from to }
    ensures { result ≡ (equal name.now rb_name && not (has_attribute (forest doc.entry.source.now doc.entry.tape.now from to))) }
{
    text::equal(name, b"rb") && !has_leaf(doc, from, to, tape::ATTRIBUTE, true)
}

// The findings about the children of node i, which end at `link`.
fn content_findings(
    name: &[u8],
    doc: Document<'_, '_>,
    i: usize,
    link: usize,
    list: &mut [u64],
    c: Counts,
) -> Counts
    requires { (i < count doc.tape.now) × (Run doc.source.now doc.tape.now (i + 1) link) × Room c (given (content_checks name.now (node_at doc.source.now doc.tape.now i) (forest doc.source.now doc.tape.now (i + 1) link))) }
    ensures { Wrote (given (content_checks name.now (node_at doc.entry.source.now doc.entry.tape.now i) (forest doc.entry.source.now doc.entry.tape.now (i + 1) link))) list.old c list.new result }
{
    let figure = is_empty_figure(name, doc, i + 1, link);
    let word = is_empty_word(name, doc, i + 1, link);
    let attribute = lacks_required_attributes(name, doc, i + 1, link);
    let e = Severity::Error;
    let mut d = push_for_node(doc.tape, i, figure, e, EMPTY_FIGURE, 0, list, c);
    d = push_for_node(doc.tape, i, word, e, EMPTY_WORD_MARKER, 0, list, d);
    push_for_node(
        doc.tape,
        i,
        attribute,
        e,
        MISSING_REQUIRED_ATTRIBUTE,
        0,
        list,
        d,
    )
}

// The order of the cells, if the marker is a row.
#[tactic(auto, unfolding(text::specs::Literal::ascii))]
fn row_findings(
    name: &[u8],
    doc: Document<'_, '_>,
    from: usize,
    to: usize,
    list: &mut [u64],
    c: Counts,
) -> Counts
    requires { (Run doc.source.now doc.tape.now from to) × Room c (pick (equal name.now tr_name) (row_findings (forest doc.source.now doc.tape.now from to)) []) }
    ensures { Wrote (pick (equal name.now tr_name) (row_findings (forest doc.entry.source.now doc.entry.tape.now from to)) []) list.old c list.new result }
{
    if text::equal(name, b"tr") {
        return rows::validate_table_row(doc, from, to, list, c);
    }
    c
}

// The findings of a marker, but for its milestone's and its children's. `numbers` are those attached to the anchor of its run, which ends at `to`.
pub fn visit_marker(
    table: &[u8],
    m: MarkerInfo,
    doc: Document<'_, '_>,
    i: usize,
    to: usize,
    context: Context,
    numbers: Attached,
    rec: State,
    list: &mut [u64],
) -> State
    requires { (m.name_start + m.name_len ≤ length table.now) × (Run doc.source.now doc.tape.now i to) × (i < to) × (is_open (kind_at doc.tape.now i) ≡ true) × (starts_of numbers ≡ starts_for (anchor_of doc.source.now doc.tape.now rec.anchor i) (forest doc.source.now doc.tape.now i to)) × Room (counts_of rec) (own_at table.now doc.source.now doc.tape.now (context_of context) (anchor_of doc.source.now doc.tape.now rec.anchor i) (entry_of_info m) i to rec) }
    ensures { MarkerVisited table.now doc.entry.source.now doc.entry.tape.now (context_of context) (anchor_of doc.entry.source.now doc.entry.tape.now rec.anchor i) (entry_of_info m) i to list.old rec list.new result }
{
    let name = table::name(table, m);
    let link = tape::link_at(doc.tape, i) as usize;
    let from = i + 1;
    let named = text::equal(name, b"id");
    let next = after_id(named, doc, from, link, rec);
    let mut c = state::counts(rec);
    c = id_findings(named, doc, i, link, rec, list, c);
    c = place_findings(name, m, doc, i, to, context, numbers, next, list, c);
    c = content_findings(name, doc, i, link, list, c);
    c = row_findings(name, doc, from, link, list, c);
    c = attributes::validate_attributes(doc, from, link, i, list, c);
    state::with_counts(next, c)
}

// Whether a run has Texts alone.
fn has_only_texts(doc: Document<'_, '_>, from: usize, to: usize) -> bool
    requires { Run doc.source.now doc.tape.now from to }
    ensures { result ≡ only_texts (forest doc.entry.source.now doc.entry.tape.now from to) }
{
    Siblings::new(doc.tape, from, to).all(|i| tape::kind_at(doc.tape, i) == tape::TEXT)
}

// Whether there is a check for markers of this name.
#[tactic(auto, unfolding(text::specs::Literal::ascii))]
fn has_own_check(name: &[u8]) -> bool
    ensures { result ≡ has_own_check name.now }
{
    text::equal(name, b"b")
        || text::equal(name, b"w")
        || text::equal(name, b"id")
        || text::equal(name, b"rb")
        || text::equal(name, b"tr")
        || text::equal(name, b"fig")
        || is_number_marker(name)
}

fn is_placed(m: MarkerInfo, context: Context, chapter: bool) -> bool
    ensures { result ≡ placed (entry_of_info m) (context_of context) chapter }
{
    if state::is_of(m, table::PARAGRAPH) {
        chapter
    } else {
        state::is_of(m, table::CHARACTER) && context.in_note
    }
}

// Whether a marker has no finding and its children change nothing, so that its visit can be skipped. `chapter` says
// whether a chapter stands before it.
pub fn can_skip_marker(
    table: &[u8],
    m: MarkerInfo,
    doc: Document<'_, '_>,
    i: usize,
    context: Context,
    chapter: bool,
) -> bool
    requires { (m.name_start + m.name_len ≤ length table.now) × (i < count doc.tape.now) × (Run doc.source.now doc.tape.now (i + 1) (link_at doc.tape.now i)) }
    ensures { result ≡ can_skip_marker_at table.now doc.entry.source.now doc.entry.tape.now (context_of context) (entry_of_info m) i chapter }
{
    is_placed(m, context, chapter)
        && has_only_texts(doc, i + 1, tape::link_at(doc.tape, i) as usize)
        && !has_own_check(table::name(table, m))
}
