// The state of the walk: the record by value, and the context of a run of siblings.
#![tactic(auto)]

ghost use Rattle.std.specs.Prelude.{◌&&◌, ◌||◌, ◌≡◌, [], ◌<◌, eqb};
ghost use Rattle.tape.specs.Nodes.{count, node_at};
ghost use Rattle.findings.specs.Finding.{finding_of, severity_of};
ghost use Rattle.table.specs.Entries.{entry_of_info};
ghost use Rattle.definition.specs.Checks;
ghost use Rattle.definition.specs.Checks.{is_body};
ghost use Rattle.definition.specs.Walk;
ghost use Rattle.state.specs.Inner.{counts_of, with_counts, with_anchor, context_of};

use findings::{Counts, Finding, Severity};
use numbers::VersePart;
use table::MarkerInfo;

// The running record: flags, what is expected next, how long the two working lists are, the verses visited, the node of the latest anchor or 0, and the counts of findings.
#[derive(Clone, Copy)]
pub struct State {
    pub has_id: bool,
    pub has_chapter: bool,
    pub has_verse: bool,
    pub front_matter: bool,
    pub verse_outside_warned: bool,
    pub expected_chapter: u64,
    pub expected_verse: VersePart,
    pub seen_len: usize,
    pub open_len: usize,
    pub verses: u64,
    pub anchor: usize,
    pub errors: u64,
    pub warnings: u64,
    pub infos: u64,
}

// Whether a run of siblings is in a body paragraph, in a note, in a character marker.
#[derive(Clone, Copy)]
pub struct Context {
    pub in_body_para: bool,
    pub in_note: bool,
    pub in_char: bool,
}

pub fn counts(r: State) -> Counts
    ensures { result ≡ counts_of r }
{
    Counts {
        errors: r.errors,
        warnings: r.warnings,
        infos: r.infos,
    }
}

// The record with other counts.
pub fn with_counts(r: State, c: Counts) -> State
    ensures { result ≡ with_counts r c }
{
    State {
        errors: c.errors,
        warnings: c.warnings,
        infos: c.infos,
        ..r
    }
}

// A finding with the span of a node.
pub fn about(
    tape: &[u8],
    i: usize,
    severity: Severity,
    code: u64,
    form: u64,
    first: u64,
    second: u64,
) -> Finding
    requires { i < count tape.now }
    ensures { finding_of result ≡ Checks.about (node_at [] tape.now i) (severity_of severity) code form first second }
{
    Finding {
        severity,
        code,
        start: tape::start_at(tape, i) as u64,
        len: tape::len_at(tape, i) as u64,
        node: i as u64,
        form,
        first,
        second,
    }
}

// The record with another anchor.
pub fn with_anchor(r: State, n: usize) -> State
    ensures { result ≡ with_anchor r n }
{
    State { anchor: n, ..r }
}

// Whether an entry is of the category, by its number.
pub fn is_of(m: MarkerInfo, category: u64) -> bool
    ensures { result ≡ eqb (entry_of_info m).category category }
{
    table::category_number(m.category) == category
}

// Whether an entry is a paragraph that can hold verse text.
pub fn is_body(m: MarkerInfo) -> bool
    ensures { result ≡ is_body (entry_of_info m) }
{
    is_of(m, table::PARAGRAPH) && table::role_number(m.text_role) == table::BOUNDARY
}

// The context of a marker's children.
pub fn inside(o: Context, m: MarkerInfo) -> Context
    ensures { context_of result ≡ Walk.inside (context_of o) (entry_of_info m) }
{
    Context {
        in_body_para: o.in_body_para || is_body(m),
        in_note: o.in_note || is_of(m, table::NOTE),
        in_char: o.in_char || is_of(m, table::CHARACTER),
    }
}
