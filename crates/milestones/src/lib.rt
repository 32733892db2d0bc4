// Milestones: starts and ends by their names, and the open starts, a lent list of records.
#![tactic(auto)]

ghost use Rattle.std.specs.Prelude.{◌≡◌, [], ◌∷◌, ◌+◌, ◌<◌, ◌≤◌, length, set};
ghost use Rattle.tape.specs.Nodes.{node_at, count};
ghost use Rattle.table.specs.Entries.{Entry, entry_of_info, milestone_category};
ghost use Rattle.cursor.specs.Inner.{Spanned};
ghost use Rattle.definition.specs.Checks.{error};
ghost use Rattle.definition.specs.Milestones.{ends_in, base_of};
ghost use Rattle.state.specs.Inner.{counts_of, Opens};
ghost use Rattle.milestones.specs.Inner.{base_in, Measured, among_milestones, step_means, Placed, base_at, nearest_in, removed, opens_by, paired_by, with_opens, WroteEndAlone, Counted, Countable};
ghost use Rattle.milestones.specs.InnerStep.{Milestoned, Steppable};
ghost use Rattle.findings.specs.Codes.{milestone_mismatch, end_alone};
ghost use Rattle.text.specs.Bytes.{equal};
ghost use Rattle.findings.specs.Inner.{Room};

use cursor::Document;
use definition::OpenStart;
use findings::Severity;
use state::State;
use table::MarkerInfo;

// A milestone: a start as an entry of the open starts, or an end with the place of its base in the source.
#[derive(Clone, Copy)]
pub enum MilestoneSide {
    Start(OpenStart),
    End(usize, usize),
}

// Whether a name ends in a hyphen and the letter.
#[tactic(auto, using(crate::proofs::Endings::ends_are))]
pub fn ends_in(name: &[u8], letter: u8) -> bool
    ensures { result ≡ ends_in letter name.now }
{
    matches!(name, [.., b'-', last] if *last == letter)
}

// The base of a start or an end, `qt` of `qt-s`: its name without the last two bytes, a part of it.
pub fn milestone_base(name: &[u8]) -> &[u8]
    ensures { result.now ≡ base_in name.now }
{
    &name[..name.len().saturating_sub(2)]
}

// What a marker whose category is milestone is, by its name.
fn step_named(doc: Document<'_, '_>, i: usize) -> Option<MilestoneSide>
    requires { (Spanned doc.source.now doc.tape.now i) × (i < 4294967296) }
    ensures { ((e : Entry) → e.category ≡ milestone_category → step_means doc.entry.source.now result ≡ among_milestones e (node_at doc.entry.source.now doc.entry.tape.now i)) × (Placed doc.entry.source.now result) }
{
    let a = tape::start_at(doc.tape, i) as usize;
    let n = tape::len_at(doc.tape, i) as usize;
    let text = &doc.source[a..a + n];
    let at = cursor::name_span(text);
    let b = at.start;
    let e = at.end;
    let name = &text[b..e];
    if ends_in(name, b's') {
        return Some(MilestoneSide::Start(OpenStart {
            node: i as u32,
            base_len: (e - b - 2) as u32,
        }));
    }
    if ends_in(name, b'e') {
        return Some(MilestoneSide::End(a + b, e - b - 2));
    }
    None
}

// What a marker is. Most are no milestones, and their names aren't read.
pub fn step_of(m: MarkerInfo, doc: Document<'_, '_>, i: usize) -> Option<MilestoneSide>
    requires { (Spanned doc.source.now doc.tape.now i) × (i < 4294967296) }
    ensures { (step_means doc.entry.source.now result ≡ among_milestones (entry_of_info m) (node_at doc.entry.source.now doc.entry.tape.now i)) × (Placed doc.entry.source.now result) }
{
    if state::is_of(m, table::MILESTONE) {
        return step_named(doc, i);
    }
    None
}

// Whether an open start has the base that stands at a place of the source; the length of its own is known, and most differ by it.
fn has_base(doc: Document<'_, '_>, o: OpenStart, at: usize, len: usize) -> bool
    requires { (Measured doc.source.now doc.tape.now o.node o.base_len) × (at + len ≤ length doc.source.now) }
    ensures { result ≡ equal (base_of (node_at doc.entry.source.now doc.entry.tape.now o.node)) (base_at doc.entry.source.now at len) }
{
    let n = o.base_len as usize;
    if n != len {
        return false;
    }
    if n == 0 {
        return true;
    }
    let from = doc.name_at(o.node as usize);
    let end = from + n;
    let to = at + len;
    text::equal(&doc.source[from..end], &doc.source[at..to])
}

fn with_open(r: State, n: usize) -> State
    ensures { result ≡ with_opens r n }
{
    let mut q = r;
    q.open_len = n;
    q
}

// Writes the finding of an end without an open start.
fn push_end_alone(tape: &[u8], i: usize, rec: State, list: &mut [u64]) -> State
    requires { (i < count tape.now) × Room (counts_of rec) (error (node_at [] tape.now i) milestone_mismatch end_alone ∷ []) }
    ensures { WroteEndAlone tape.now i list.old rec list.new result }
{
    let f = state::about(
        tape,
        i,
        Severity::Error,
        findings::MILESTONE_MISMATCH,
        findings::END_ALONE,
        0,
        0,
    );
    state::with_counts(rec, findings::push(list, state::counts(rec), f))
}

// The latest of the first k open starts with the base that stands at a place of the source.
fn nearest(
    doc: Document<'_, '_>,
    opens: &mut [OpenStart],
    k: usize,
    at: usize,
    len: usize,
) -> Option<usize>
    requires { (Opens doc.source.now doc.tape.now opens.old k) × (at + len ≤ length doc.source.now) }
    ensures { (opens.new ≡ opens.old) × (result ≡ nearest_in doc.entry.source.now doc.entry.tape.now opens.old k (base_at doc.entry.source.now at len)) }
{
    for j in (0..k).rev() {
        if has_base(doc, opens[j], at, len) {
            return Some(j);
        }
    }
    None
}

fn push(opens: &mut [OpenStart], k: usize, o: OpenStart)
    requires { k < length opens.old }
    ensures { opens.new ≡ set opens.old k o }
{
    opens[k] = o;
}

// The later open starts move down by one.
fn remove(opens: &mut [OpenStart], k: usize, at: usize)
    requires { (at < k) × (k ≤ length opens.old) }
    ensures { opens.new ≡ removed opens.old k at }
{
    for i in at..k - 1 {
        opens[i] = opens[i + 1];
    }
}

// How many open starts there are after a marker, of k before it: a start is one more, an end takes the latest of its base. None is an end
// without an open start.
fn pair(
    doc: Document<'_, '_>,
    step: Option<MilestoneSide>,
    opens: &mut [OpenStart],
    k: usize,
) -> Option<usize>
    requires { (Opens doc.source.now doc.tape.now opens.old k) × (k < length opens.old) × (Placed doc.source.now step) }
    ensures { (opens.new ≡ opens_by doc.entry.source.now doc.entry.tape.now opens.old k (step_means doc.entry.source.now step)) × (result ≡ paired_by doc.entry.source.now doc.entry.tape.now opens.old k (step_means doc.entry.source.now step)) }
{
    let Some(side) = step else {
        return Some(k);
    };
    match side {
        MilestoneSide::Start(o) => {
            push(opens, k, o);
            Some(k + 1)
        }
        MilestoneSide::End(at, len) => {
            let j = nearest(doc, opens, k, at, len)?;
            remove(opens, k, j);
            Some(k - 1)
        }
    }
}

// The record after a marker, by how many open starts there are after it; none says that it is an end without an open start.
pub fn after_pair(
    tape: &[u8],
    i: usize,
    paired: Option<usize>,
    rec: State,
    list: &mut [u64],
) -> State
    requires { (i < count tape.now) × Countable tape.now i paired rec }
    ensures { Counted tape.now i paired list.old rec list.new result }
{
    match paired {
        Some(n) => with_open(rec, n),
        None => push_end_alone(tape, i, rec, list),
    }
}

// The finding and the step of a marker: most are no milestones.
pub fn milestone(
    m: MarkerInfo,
    doc: Document<'_, '_>,
    i: usize,
    opens: &mut [OpenStart],
    rec: State,
    list: &mut [u64],
) -> State
    requires { Steppable (entry_of_info m) doc.source.now doc.tape.now i opens.old rec }
    ensures { Milestoned (entry_of_info m) doc.entry.source.now doc.entry.tape.now i opens.old list.old rec opens.new list.new result }
{
    let step = step_of(m, doc, i);
    let paired = pair(doc, step, opens, rec.open_len);
    after_pair(doc.tape, i, paired, rec, list)
}
