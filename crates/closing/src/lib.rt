// Before the walk and after it: text before `\id`, the closing findings, and the working lists cleared.
#![tactic(auto)]

ghost use Rattle.std.specs.Prelude.{◌≡◌, ◌≤◌, not, ◌&&◌, ◌||◌, length};
ghost use Rattle.tape.specs.Forest.{forest};
ghost use Rattle.cursor.specs.Inner.{Run};
ghost use Rattle.findings.specs.Finding.{finding_of};
ghost use Rattle.definition.specs.Checks.{given};
ghost use Rattle.definition.specs.Document.{text_before, of_document};
ghost use Rattle.definition.specs.Document as document;
ghost use Rattle.definition.specs.Outcome.{no_start, cleared};
ghost use Rattle.state.specs.Inner.{counts_of, open_nodes};
ghost use Rattle.closing.specs.Inner.{missing_checks, Left, of_open, UnclosedReady};
ghost use Rattle.findings.specs.Inner.{Wrote, Room};

use cursor::Document;
use definition::OpenStart;
use findings::{
    Counts, Finding, MILESTONE_MISMATCH, MISSING_CHAPTER_MARKER, MISSING_ID_MARKER, Severity,
    TEXT_BEFORE_ID,
};
use state::State;

// A finding of no node.
fn of_document(code: u64) -> Finding
    ensures { finding_of result ≡ of_document code }
{
    Finding {
        severity: Severity::Error,
        code: code,
        start: 0,
        len: 0,
        node: 0,
        form: 0,
        first: 0,
        second: 0,
    }
}

// Text before the `\id` marker: the first child of the root.
pub fn text_before(doc: Document<'_, '_>, to: usize, rec: State, list: &mut [u64]) -> Counts
    requires { (Run doc.source.now doc.tape.now 1 to) × Room (counts_of rec) (text_before (forest doc.source.now doc.tape.now 1 to)) }
    ensures { Wrote (text_before (forest doc.entry.source.now doc.entry.tape.now 1 to)) list.old (counts_of rec) list.new result }
{
    let c = state::counts(rec);
    if to <= 1 {
        return c;
    }
    let there = doc.is_kind(1, tape::TEXT, false);
    findings::push_if(
        list,
        c,
        there,
        state::about(doc.tape, 1, Severity::Warning, TEXT_BEFORE_ID, 0, 0, 0),
    )
}

// The finding of an open start that is left.
fn push_unclosed(tape: &[u8], o: OpenStart, list: &mut [u64], c: Counts) -> Counts
    requires { UnclosedReady tape.now o c }
    ensures { Wrote (of_open tape.now o) list.old c list.new result }
{
    let f = state::about(
        tape,
        o.node as usize,
        Severity::Error,
        MILESTONE_MISMATCH,
        findings::UNCLOSED_START,
        0,
        0,
    );
    findings::push(list, c, f)
}

// The open starts that are left, in opening order.
pub fn unclosed(
    doc: Document<'_, '_>,
    opens: &mut [OpenStart],
    rec: State,
    list: &mut [u64],
) -> Counts
    requires { Left doc.source.now doc.tape.now opens.old rec }
    ensures { (opens.new ≡ opens.old) × Wrote (document.unclosed (open_nodes doc.entry.source.now doc.entry.tape.now opens.old rec.open_len)) list.old (counts_of rec) list.new result }
{
    let mut c = state::counts(rec);
    for o in &opens[..rec.open_len] {
        c = push_unclosed(doc.tape, *o, list, c);
    }
    c
}

fn lacks_id(rec: State) -> bool
    ensures { result ≡ (not rec.has_id && (rec.has_chapter || rec.has_verse)) }
{
    !rec.has_id && (rec.has_chapter || rec.has_verse)
}

fn lacks_chapter(rec: State) -> bool
    ensures { result ≡ ((rec.has_id || rec.has_verse) && (not rec.has_chapter && not rec.front_matter)) }
{
    (rec.has_id || rec.has_verse) && !rec.has_chapter && !rec.front_matter
}

// MissingIdMarker and MissingChapterMarker.
pub fn missing(rec: State, list: &mut [u64], c: Counts) -> Counts
    requires { Room c (given (missing_checks rec)) }
    ensures { Wrote (given (missing_checks rec)) list.old c list.new result }
{
    let first = findings::push_if(list, c, lacks_id(rec), of_document(MISSING_ID_MARKER));
    findings::push_if(
        list,
        first,
        lacks_chapter(rec),
        of_document(MISSING_CHAPTER_MARKER),
    )
}

pub fn clear_seen(seen: &mut [u32], n: usize)
    requires { n ≤ length seen.old }
    ensures { seen.new ≡ cleared 0 n seen.old }
{
    seen[..n].fill(0);
}

pub fn clear_opens(opens: &mut [OpenStart], n: usize)
    requires { n ≤ length opens.old }
    ensures { opens.new ≡ cleared no_start n opens.old }
{
    let nothing = OpenStart {
        node: 0,
        base_len: 0,
    };
    opens[..n].fill(nothing);
}
