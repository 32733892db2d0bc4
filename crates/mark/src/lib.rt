// The mark of a paper out of one hundred, in hundredths, from the counts of a checked document.
#![tactic(auto)]

ghost use Rattle.std.specs.Prelude.{◌≡◌, ◌≤◌};
ghost use Rattle.buffer.specs.Over.{Put};
ghost use Rattle.validate.specs.Entry.{answer_in};
ghost use Rattle.mark.specs.Mark.{is_over, mark_answer, mark_answer_in, mark_answer_of};
ghost use Rattle.mark.specs.MarkLines.{mark_lines, mark_of_answer};

use refusals::{Numbered, Reason, Refusal};
use validate::Report;

// "over 1,000,000"
const MOST_COUNTED: u64 = 1000000;

const FULL_MARK: u64 = 10000;

// Loss and mark of a paper, in hundredths.
#[derive(Clone, Copy)]
pub struct PaperMark {
    pub loss: u64,
    pub mark: u64,
}

fn is_over(errors: u64, warnings: u64, verses: u64) -> bool
    ensures { result ≡ is_over errors warnings verses }
{
    MOST_COUNTED < errors || MOST_COUNTED < warnings || MOST_COUNTED < verses
}

// The mark, or number 14 or 15: whatever the counts are, the answer is the definition's.
pub fn mark(errors: u64, warnings: u64, verses: u64) -> Result<PaperMark, Refusal>
    ensures { mark_answer_of result ≡ mark_answer errors warnings verses }
{
    if is_over(errors, warnings, verses) {
        return Err(Reason::CountTooLarge.at(0));
    }
    if verses == 0 {
        return Err(Reason::NoVerses.at(0));
    }
    let loss = (250 * errors + 75 * warnings) * 10 / verses;
    Ok(PaperMark {
        loss,
        mark: FULL_MARK.saturating_sub(loss),
    })
}

// The mark by what the check answers.
pub fn mark_of<E: Numbered>(answer: Result<Report, E>) -> Result<PaperMark, E>
    ensures { mark_answer_in E.says result ≡ mark_of_answer (answer_in E.says answer) }
{
    let r = answer?;
    match mark(r.errors, r.warnings, r.verses) {
        Ok(m) => Ok(m),
        Err(refusal) => Err(E::of(refusal)),
    }
}

// Writes the lines of mark-exercise over a lent list, by the mark.
pub fn put_mark<E: Numbered>(out: &mut [u8], answer: Result<PaperMark, E>) -> usize
    ensures lines { Put (mark_lines (mark_answer_in E.says answer)) out.old 0 out.new result }
    ensures short { result ≤ 256 }
{
    match answer {
        Err(r) => listing::put_refused(out, 0, r.number(), r.place()),
        Ok(m) => {
            let second = listing::put_count(out, 0, b"loss", m.loss);
            listing::put_count(out, second, b"mark", m.mark)
        }
    }
}
