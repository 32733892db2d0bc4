// The first pass over a text: finds its first fault, or counts its nodes, and writes to no lent list.
//
// The open characters and notes have no limit, and no list for them is lent: a window keeps the places of the innermost ones in
// the text, from which their names are read again. Where closes have emptied the window, it is filled again from the text's start.
#![tactic(auto)]

ghost use Rattle.std.specs.Prelude.{◌≡◌, [], ◌<◌, ◌≤◌, IfSome, length};
ghost use Rattle.table.specs.Inner.{Indexed, Chained};
ghost use Rattle.reader_spec.specs.Pass.{outcome};
ghost use Rattle.reader_spec.specs.Promise.{Legible};
ghost use Rattle.reader_spec.specs.InnerSteps.{counted_on, open_from, Kept};
ghost use Rattle.reader_spec.specs.InnerSteps;
ghost use Rattle.first_pass.specs.Counted.{count_of, run_count, nodes_in, block_after, innermost_place, close_fault, piece_fault, place_kept, Windowed, ReadyFor, Nameable, InnermostClosed};

use pieces::Piece;
use refusals::{Reason, Refusal};

// How many places the window keeps. A text of 1 MiB has at most 209,715 opens that are closed, so it is read again from its start
// at most 25 times.
const WINDOW: usize = 8192;

// How many nodes a run gives: with nothing open one Text, else what stands before its first `|` and what stands from there on.
fn nodes_of_run(l: &[u8], depth: usize) -> usize
    ensures { result ≡ run_count depth l.now }
{
    if depth == 0 {
        return 1;
    }
    let bar = pieces::run_bar(l);
    usize::from(0 < bar) + usize::from(bar < l.len())
}

// How many nodes a piece gives that is no fault; `l` is its text.
fn nodes_of(p: Piece, l: &[u8], depth: usize, block: bool) -> usize
    ensures { result ≡ nodes_in depth block l.now p }
{
    match p {
        Piece::Run(_) => nodes_of_run(l, depth),
        Piece::Block(_, _) | Piece::Chapter(_, _) => usize::from(block) + 1,
        Piece::Milestone(_, _, x, y) => 2 + usize::from(0 < x) + usize::from(0 < y),
        Piece::Close(_) | Piece::Verse(_, _) | Piece::Inline(_, _) => 1,
        Piece::Fault(_) => 0,
    }
}

// Whether a block is open behind a piece.
fn block_after(p: Piece, block: bool) -> bool
    ensures { result ≡ block_after p block }
{
    match p {
        Piece::Block(_, _) => true,
        Piece::Chapter(_, _) => false,
        _ => block,
    }
}

// Keeps the place of a character or note marker that the window reaches; `depth` others are open around it.
fn keep_place(p: Piece, at: usize, depth: usize, low: usize, window: &mut [u32])
    requires { (length window.old ≡ InnerSteps.window) × (at < 4294967296) × (low < 4294967296) }
    ensures { window.new ≡ place_kept window.old low depth at p }
{
    if let Piece::Inline(_, _) = p {
        if (low..low + WINDOW).contains(&depth) {
            window[depth % WINDOW] = at as u32;
        }
    }
}

// Finds the places of what is open at a place `to` again, and keeps those from `low` on.
fn fill_window(
    table: &[u8],
    index: &[u64],
    entries: usize,
    chains: &[u16],
    s: &[u8],
    to: usize,
    low: usize,
    window: &mut [u32],
)
    requires { Indexed table.now index.now entries × Chained table.now chains.now × Legible table.now s.now × (to ≤ length s.now) × (low ≤ to) × (length window.old ≡ InnerSteps.window) }
    ensures { Kept window.new low (open_from table.now s.now to 0 []) }
{
    let mut at: usize = 0;
    let mut depth: usize = 0;
    // A while: the step is the piece's size.
    while at < to {
        let p = pieces::piece_at(table, index, entries, chains, &s[at..]);
        keep_place(p, at, depth, low, window);
        depth = pieces::depth_after(p, depth);
        at += pieces::size_of(p, s.len() - at);
    }
}

// The window for a close at a place: filled again where it has no place left. Gives from where on it keeps places.
fn refill(
    table: &[u8],
    index: &[u64],
    entries: usize,
    chains: &[u16],
    s: &[u8],
    at: usize,
    depth: usize,
    low: usize,
    window: &mut [u32],
) -> usize
    requires { Indexed table.now index.now entries × Chained table.now chains.now × Legible table.now s.now × (at ≤ length s.now) × (depth ≤ at) × Windowed table.now s.now at depth low window.old }
    ensures { Windowed table.now s.now at depth result window.new × (0 < depth → result < depth) }
{
    if low < depth {
        return low;
    }
    let first = depth.saturating_sub(WINDOW);
    fill_window(table, index, entries, chains, s, at, first, window);
    first
}

// The window for a piece at a place. Where it is full it gives up the outermost place for a character or note marker.
#[tactic(auto, using(crate::proofs::Windows::raised))]
fn prepare(
    table: &[u8],
    index: &[u64],
    entries: usize,
    chains: &[u16],
    s: &[u8],
    at: usize,
    p: Piece,
    depth: usize,
    low: usize,
    window: &mut [u32],
) -> usize
    requires { Indexed table.now index.now entries × Chained table.now chains.now × Legible table.now s.now × (at ≤ length s.now) × (depth ≤ at) × Windowed table.now s.now at depth low window.old }
    ensures { Windowed table.now s.now at depth result window.new × ReadyFor p depth result }
{
    match p {
        Piece::Close(_) => refill(table, index, entries, chains, s, at, depth, low, window),
        Piece::Inline(_, _) => if depth < low + WINDOW { low } else { low + 1 },
        _ => low,
    }
}

// The reason that turns a close at a place back: it needs the name of the innermost open.
fn close_fault(s: &[u8], at: usize, depth: usize, window: &[u32]) -> Option<Reason>
    requires { (at ≤ length s.now) × (length window.now ≡ InnerSteps.window) × (0 < depth → innermost_place window.now depth ≤ length s.now) }
    ensures { result ≡ close_fault s.now at window.now depth }
{
    if 0 < depth {
        let open = window[(depth - 1) % WINDOW] as usize;
        if text::equal(cursor::name_of(&s[open..]), cursor::name_of(&s[at..])) {
            return None;
        }
    }
    Some(Reason::UnmatchedMarker)
}

// The reason that turns a piece at a place back. No character or note may be open at a block marker or a Chapter.
fn piece_fault(s: &[u8], at: usize, p: Piece, depth: usize, window: &[u32]) -> Option<Reason>
    requires { (at ≤ length s.now) × (length window.now ≡ InnerSteps.window) × Nameable p s.now window.now depth }
    ensures { result ≡ piece_fault s.now at window.now depth p }
{
    match p {
        Piece::Close(_) => close_fault(s, at, depth, window),
        Piece::Block(_, _) | Piece::Chapter(_, _) => (0 < depth).then_some(Reason::UnmatchedMarker),
        Piece::Fault(reason) => Some(reason),
        _ => None,
    }
}

// The bytes of a close of the innermost open marker at a place, if the window has that marker, else None, which says nothing.
fn innermost_close(s: &[u8], at: usize, depth: usize, low: usize, window: &[u32]) -> Option<usize>
    requires { (at ≤ length s.now) × (length window.now ≡ InnerSteps.window) × (low < depth → innermost_place window.now depth ≤ length s.now) }
    ensures { IfSome result (λ r. InnermostClosed s.now at window.now depth low r) }
{
    if depth <= low {
        return None;
    }
    let open = window[(depth - 1) % WINDOW] as usize;
    pieces::own_close(&s[open..], &s[at..])
}

// The first fault of a text, or the number of its nodes, with a window that may hold anything.
fn survey_with(
    table: &[u8],
    index: &[u64],
    entries: usize,
    chains: &[u16],
    s: &[u8],
    window: &mut [u32],
) -> Result<usize, Refusal>
    requires { Indexed table.now index.now entries × Chained table.now chains.now × Legible table.now s.now × (length window.old ≡ InnerSteps.window) }
    ensures { count_of result ≡ counted_on 1 (outcome table.now s.now) }
{
    let mut at: usize = 0;
    let mut nodes: usize = 1;
    let mut depth: usize = 0;
    let mut low: usize = 0;
    let mut block = false;
    // A while: the step is the piece's size.
    while at < s.len() {
        if let Some(n) = innermost_close(s, at, depth, low, window) {
            at += n;
            nodes += 1;
            depth -= 1;
            continue;
        }
        let p = pieces::piece_at(table, index, entries, chains, &s[at..]);
        low = prepare(table, index, entries, chains, s, at, p, depth, low, window);
        if let Some(reason) = piece_fault(s, at, p, depth, window) {
            return Err(reason.at(at));
        }
        let to = at + pieces::size_of(p, s.len() - at);
        nodes += nodes_of(p, &s[at..to], depth, block);
        keep_place(p, at, depth, low, window);
        block = block_after(p, block);
        depth = pieces::depth_after(p, depth);
        at = to;
    }
    if 0 < depth {
        return Err(Reason::UnmatchedMarker.at(at));
    }
    Ok(nodes + usize::from(block))
}

// The first fault of a text, number 16 or 17 with its place, or how many nodes there are, the root among them.
pub fn survey(
    table: &[u8],
    index: &[u64],
    entries: usize,
    chains: &[u16],
    s: &[u8],
) -> Result<usize, Refusal>
    requires { Indexed table.now index.now entries × Chained table.now chains.now × Legible table.now s.now }
    ensures { count_of result ≡ counted_on 1 (outcome table.now s.now) }
{
    let mut window = [0u32; WINDOW];
    survey_with(table, index, entries, chains, s, &mut window)
}
