// The tally: how many findings of a list have each code.
#![tactic(auto)]

ghost use Rattle.std.specs.Prelude.{◌≡◌, length, replicate};
ghost use Rattle.std.specs.Prelude.{None};
ghost use Rattle.buffer.specs.Over.{over};
ghost use Rattle.tally.specs.Tally.{bad_record, tally_refusal, tally_of, counts_after};
ghost use Rattle.findings.specs.Codes.{code_count};
ghost use Rattle.refusals.specs.Reasons.{refusal_in};

use refusals::{Reason, Refusal};

fn bad_record(words: &[u64]) -> bool
    requires { length words.now ≡ 8 }
    ensures { result ≡ bad_record words.now 0 }
{
    2 < words[0] || findings::CODES <= words[1]
}

// Number 11.
fn list_check(list: &[u64]) -> Result<(), Refusal>
    ensures { refusal_in result ≡ tally_refusal list.now }
{
    for (k, record) in list.chunks_exact(8).enumerate() {
        if bad_record(record) {
            return Err(Reason::BadTallyList.at(k));
        }
    }
    if list.len() % 8 != 0 {
        return Err(Reason::BadTallyList.at(list.len() / 8));
    }
    Ok(())
}

fn clear(counts: &mut [u64])
    ensures { counts.new ≡ over counts.old 0 (replicate code_count 0) }
{
    let n = counts.len().min(findings::CODES as usize);
    counts[..n].fill(0);
}

// One pass over the records of a list that isn't turned back. A code without a place among the counts is skipped.
fn count(list: &[u64], counts: &mut [u64])
    requires { tally_refusal list.now ≡ None }
    ensures { counts.new ≡ over counts.old 0 (tally_of list.now) }
{
    clear(counts);
    for record in list.chunks_exact(8) {
        let code = record[1] as usize;
        if code < counts.len() {
            counts[code] += 1;
        }
    }
}

// Writes the counts by code of a list of findings over the lent list, as far as it has room. A list that is turned back leaves it
// unchanged.
pub fn tally(list: &[u64], counts: &mut [u64]) -> Result<(), Refusal>
    ensures answer { refusal_in result ≡ tally_refusal list.now }
    ensures counts { counts.new ≡ counts_after list.now counts.old }
{
    list_check(list)?;
    count(list, counts);
    Ok(())
}
