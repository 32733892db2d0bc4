// The check of a document: whatever is lent, the answer and every lent list at exit are the definition's.
#![tactic(auto)]

ghost use Rattle.std.specs.Prelude.{◌≡◌, ◌/◌, ◌≤◌, length};
ghost use Rattle.std.specs.Prelude.{None, Ok};
ghost use Rattle.tape.specs.Nodes.{link_at};
ghost use Rattle.tape.specs.Nodes.{count};
ghost use Rattle.tape.specs.Forest.{Accepted};
ghost use Rattle.cursor.specs.Inner.{Run};
ghost use Rattle.refusals.specs.Reasons.{refusal_in};
ghost use Rattle.findings.specs.Written.{total};
ghost use Rattle.definition.specs.Outcome.{answer, list_after, seen_after, open_after};
ghost use Rattle.state.specs.Inner.{counts_of};
ghost use Rattle.validate.specs.Entry.{answer_of, report_of};
ghost use Rattle.table.specs.Inner.{Indexed};
ghost use Rattle.findings.specs.Inner.{count_limit};
ghost use Rattle.validate.specs.Inner.{source_refusal, lists_refusal, from_table, AcceptedIndex, fresh, Begun, Endable, MissingWritten, Ran, Fit, reported, Finished};
ghost use Rattle.validate.specs.Entry.{lent};

use cursor::Document;
use definition::OpenStart;
use findings::Counts;
use numbers::{Suffix, VersePart};
use refusals::{Reason, Refusal};
use state::{Context, State};

fn initial() -> State
    ensures { result ≡ fresh }
{
    State {
        has_id: false,
        has_chapter: false,
        has_verse: false,
        front_matter: false,
        verse_outside_warned: false,
        expected_chapter: 1,
        expected_verse: VersePart {
            num: 1,
            suffix: Suffix::None,
        },
        seen_len: 0,
        open_len: 0,
        verses: 0,
        anchor: 0,
        errors: 0,
        warnings: 0,
        infos: 0,
    }
}

// The record before the walk.
fn begun(doc: Document<'_, '_>, to: usize, list: &mut [u64]) -> State
    requires { (Run doc.source.now doc.tape.now 1 to) × (to ≡ link_at doc.tape.now 0) }
    ensures { Begun doc.entry.source.now doc.entry.tape.now list.old list.new result }
{
    let start = initial();
    state::with_counts(start, closing::text_before(doc, to, start, list))
}

// The record after the findings of the open starts that are left.
fn ended(rec: State, list: &mut [u64], left: Counts) -> State
    requires { Endable rec left }
    ensures { MissingWritten rec left list.old list.new result }
{
    state::with_counts(rec, closing::missing(rec, list, left))
}

// The whole list of an accepted document.
fn run(
    table: &[u8],
    index: &[u64],
    entries: usize,
    doc: Document<'_, '_>,
    seen: &mut [u32],
    opens: &mut [OpenStart],
    list: &mut [u64],
) -> State
    requires { Fit table.now index.now entries doc.source.now doc.tape.now seen.old opens.old }
    ensures { Ran table.now doc.entry.source.now doc.entry.tape.now list.old list.new result }
{
    let to = tape::link_at(doc.tape, 0) as usize;
    let mut rec = begun(doc, to, list);
    let outside = Context {
        in_body_para: false,
        in_note: false,
        in_char: false,
    };
    walk::walk(
        table, index, entries, doc, 1, to, 64, outside, &mut rec, seen, opens, list,
    );
    let left = closing::unclosed(doc, opens, rec, list);
    ended(rec, list, left)
}

// What a checked document has: how many findings, how many of them its list holds, whether that list is cut, how many verses were
// visited, and how many findings of each severity there are.
#[derive(Clone, Copy)]
pub struct Report {
    pub total: u64,
    pub written: u64,
    pub is_cut: bool,
    pub verses: u64,
    pub errors: u64,
    pub warnings: u64,
    pub infos: u64,
}

// The most bytes that a source may have.
const LONGEST_SOURCE: usize = 1048576;

// Numbers 2 and 3.
pub fn check_source(source: &[u8]) -> Result<(), Refusal>
    ensures { refusal_in result ≡ source_refusal source.now }
{
    if LONGEST_SOURCE < source.len() {
        return Err(Reason::SourceTooLong.at(0));
    }
    match text::utf8_check(source) {
        None => Ok(()),
        Some(at) => Err(Reason::SourceNotUtf8.at(at)),
    }
}

// Number 10.
fn check_lists(n: usize, seen: usize, opens: usize) -> Result<(), Refusal>
    ensures { refusal_in result ≡ lists_refusal n seen opens }
{
    if seen < n || opens < n {
        return Err(Reason::WorkingListTooShort.at(n));
    }
    Ok(())
}

// Numbers 1 to 10, in order. Where none is given, the words are the table's index, and the answer is how many entries it has.
pub fn check_input(
    table: &[u8],
    index: &mut [u64],
    source: &[u8],
    tape: &[u8],
    seen: usize,
    opens: usize,
) -> Result<usize, Refusal>
    requires { 512 ≤ length index.old }
    ensures number { refusal_in result ≡ from_table table.now source.now tape.now seen opens }
    ensures index { AcceptedIndex table.now index.new result }
{
    let entries = table::index(table, index)?;
    check_source(source)?;
    tape::tape_check(source, tape)?;
    numbers::label_check(table, index, entries, Document { source, tape })?;
    check_lists(tape.len() / 16, seen, opens)?;
    Ok(entries)
}

fn node_count(tape: &[u8]) -> usize
    ensures { result ≡ count tape.now }
{
    tape.len() / 16
}

// The report on a document after its walk, by the length of the findings list.
fn reported(r: State, len: usize) -> Report
    requires { total (counts_of r) ≤ count_limit }
    ensures { report_of result ≡ reported r (len / 8) }
{
    let total = r.errors + r.warnings + r.infos;
    let written = total.min((len / 8) as u64);
    Report {
        total,
        written,
        is_cut: written < total,
        verses: r.verses,
        errors: r.errors,
        warnings: r.warnings,
        infos: r.infos,
    }
}

// A document that nothing turns back, with working lists of just as many entries as it has nodes.
fn checked(
    table: &[u8],
    index: &[u64],
    entries: usize,
    doc: Document<'_, '_>,
    seen: &mut [u32],
    opens: &mut [OpenStart],
    list: &mut [u64],
) -> Report
    requires { Fit table.now index.now entries doc.source.now doc.tape.now seen.old opens.old }
    ensures { Finished table.now doc.entry.source.now doc.entry.tape.now seen.old opens.old list.old seen.new opens.new list.new result }
{
    let r = run(table, index, entries, doc, seen, opens, list);
    let n = node_count(doc.tape);
    closing::clear_seen(seen, n);
    closing::clear_opens(opens, n);
    reported(r, list.len())
}

// A document that no number turns back, with the table's index: its report and every lent list at exit are the definition's.
pub fn passed(
    table: &[u8],
    index: &[u64],
    entries: usize,
    doc: Document<'_, '_>,
    seen: &mut [u32],
    opens: &mut [OpenStart],
    list: &mut [u64],
) -> Report
    requires { (Indexed table.now index.now entries) × (None ≡ from_table table.now doc.source.now doc.tape.now (length seen.old) (length opens.old)) }
    ensures answer { answer_of (Ok result) ≡ answer (lent table.now doc.entry.source.now doc.entry.tape.now seen.old opens.old list.old) }
    ensures list { list.new ≡ list_after (lent table.now doc.entry.source.now doc.entry.tape.now seen.old opens.old list.old) }
    ensures seen { seen.new ≡ seen_after (lent table.now doc.entry.source.now doc.entry.tape.now seen.old opens.old list.old) }
    ensures opens { opens.new ≡ open_after (lent table.now doc.entry.source.now doc.entry.tape.now seen.old opens.old list.old) }
{
    let n = node_count(doc.tape);
    checked(
        table,
        index,
        entries,
        doc,
        &mut seen[..n],
        &mut opens[..n],
        list,
    )
}

// The check: whatever is lent, the answer and every lent list at exit are the definition's.
pub fn check(
    table: &[u8],
    source: &[u8],
    tape: &[u8],
    seen: &mut [u32],
    opens: &mut [OpenStart],
    list: &mut [u64],
) -> Result<Report, Refusal>
    ensures answer { answer_of result ≡ answer (lent table.now source.now tape.now seen.old opens.old list.old) }
    ensures list { list.new ≡ list_after (lent table.now source.now tape.now seen.old opens.old list.old) }
    ensures seen { seen.new ≡ seen_after (lent table.now source.now tape.now seen.old opens.old list.old) }
    ensures opens { opens.new ≡ open_after (lent table.now source.now tape.now seen.old opens.old list.old) }
{
    let mut index = [0u64; 512];
    let entries = check_input(table, &mut index, source, tape, seen.len(), opens.len())?;
    Ok(passed(
        table,
        &index,
        entries,
        Document { source, tape },
        seen,
        opens,
        list,
    ))
}
