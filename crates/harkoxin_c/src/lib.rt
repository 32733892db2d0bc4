// The library under C names, as a static library: each function calls the one of crate harkoxin that has its name, and promises the
// same. A caller must pass valid slices that don't overlap.
#![tactic(auto)]

ghost use Rattle.std.specs.Prelude.{◌≡◌, ◌++◌, length};
ghost use Rattle.definition.specs.Outcome.{answer, list_after, seen_after, open_after};
ghost use Rattle.validate.specs.Entry.{lent};
ghost use Rattle.buffer.specs.Over.{over};
ghost use Rattle.messages.specs.Answer.{message_answer, message_after};
ghost use Rattle.messages.specs.Messages.{messages_answer, messages_after, ends_after};
ghost use Rattle.tally.specs.Tally.{tally_refusal, counts_after};
ghost use Rattle.mark.specs.Mark.{mark_answer};
ghost use Rattle.reader_spec.specs.Answer.{read_answer, nodes_after};
ghost use Rattle.harkoxin.specs.Words.{answer_words, message_words, messages_words, tally_words, mark_words, read_words};
ghost use Rattle.harkoxin.specs.Report.{report_answer, report_text, report_ends};

use definition::OpenStart;

// The check. It writes its answer over the list `out`: the verdict (0 checked, 1 cut, 2 refused), a refusal's number and place, a
// checked document's total, written, verses, errors, warnings and infos.
#[unsafe(no_mangle)]
pub extern "C" fn harkoxin_check(
    table: &[u8],
    source: &[u8],
    tape: &[u8],
    seen: &mut [u32],
    opens: &mut [OpenStart],
    list: &mut [u64],
    out: &mut [u64],
)
    ensures answer { out.new ≡ over out.old 0 (answer_words (answer (lent table.now source.now tape.now seen.old opens.old list.old))) }
    ensures list { list.new ≡ list_after (lent table.now source.now tape.now seen.old opens.old list.old) }
    ensures seen { seen.new ≡ seen_after (lent table.now source.now tape.now seen.old opens.old list.old) }
    ensures opens { opens.new ≡ open_after (lent table.now source.now tape.now seen.old opens.old list.old) }
{
    harkoxin::harkoxin_check(table, source, tape, seen, opens, list, out)
}

// The text of a finding that has these words. It writes its answer over the list `out`: the verdict (0 written, 2 refused), a
// refusal's number and place, the text's length.
#[unsafe(no_mangle)]
pub extern "C" fn harkoxin_message<'a>(
    table: &'a [u8],
    source: &'a [u8],
    tape: &[u8],
    code: u64,
    form: u64,
    node: u64,
    first: u64,
    second: u64,
    text: &mut [u8],
    out: &mut [u64],
)
    ensures answer { out.new ≡ over out.old 0 (message_words (message_answer table.now source.now tape.now (record { code = code; form = form; node = node; first = first; second = second }) text.old)) }
    ensures text { text.new ≡ message_after table.now source.now tape.now (record { code = code; form = form; node = node; first = first; second = second }) text.old }
{
    harkoxin::harkoxin_message(
        table, source, tape, code, form, node, first, second, text, out,
    )
}

// The texts of a list's findings, one behind another, and where each ends. It writes its answer over the list `out`: the verdict (0 all
// written, 1 stopped, 2 refused), number and place of a refusal or of what turns the next text back, how many texts are written, their
// bytes.
#[unsafe(no_mangle)]
pub extern "C" fn harkoxin_messages<'a>(
    table: &'a [u8],
    source: &'a [u8],
    tape: &[u8],
    list: &[u64],
    ends: &mut [u64],
    text: &mut [u8],
    out: &mut [u64],
)
    ensures answer { out.new ≡ over out.old 0 (messages_words (messages_answer table.now source.now tape.now list.now (length text.old))) }
    ensures text { text.new ≡ messages_after table.now source.now tape.now list.now text.old }
    ensures ends { ends.new ≡ ends_after table.now source.now tape.now list.now (length text.old) ends.old }
{
    harkoxin::harkoxin_messages(table, source, tape, list, ends, text, out)
}

// The check, and the texts of the findings that it wrote, by one reading of the document. It writes its answer over the list `out`:
// the nine words of `harkoxin_check`, then the five of `harkoxin_messages`.
#[unsafe(no_mangle)]
pub extern "C" fn harkoxin_report<'a>(
    table: &'a [u8],
    source: &'a [u8],
    tape: &[u8],
    seen: &mut [u32],
    opens: &mut [OpenStart],
    list: &mut [u64],
    ends: &mut [u64],
    text: &mut [u8],
    out: &mut [u64],
)
    ensures answer { out.new ≡ over out.old 0 (answer_words (answer (lent table.now source.now tape.now seen.old opens.old list.old)) ++ messages_words (report_answer (lent table.now source.now tape.now seen.old opens.old list.old) (length text.old))) }
    ensures list { list.new ≡ list_after (lent table.now source.now tape.now seen.old opens.old list.old) }
    ensures seen { seen.new ≡ seen_after (lent table.now source.now tape.now seen.old opens.old list.old) }
    ensures opens { opens.new ≡ open_after (lent table.now source.now tape.now seen.old opens.old list.old) }
    ensures text { text.new ≡ report_text (lent table.now source.now tape.now seen.old opens.old list.old) text.old }
    ensures ends { ends.new ≡ report_ends (lent table.now source.now tape.now seen.old opens.old list.old) (length text.old) ends.old }
{
    harkoxin::harkoxin_report(table, source, tape, seen, opens, list, ends, text, out)
}

// The counts by code of a list of findings. It writes its answer over the list `out`: the verdict (0 counted, 2 refused), a refusal's
// number and place.
#[unsafe(no_mangle)]
pub extern "C" fn harkoxin_tally(list: &[u64], counts: &mut [u64], out: &mut [u64])
    ensures answer { out.new ≡ over out.old 0 (tally_words (tally_refusal list.now)) }
    ensures counts { counts.new ≡ counts_after list.now counts.old }
{
    harkoxin::harkoxin_tally(list, counts, out)
}

// Loss and mark of a paper with these counts. It writes its answer over the list `out`: the verdict (0 marked, 2 refused), a refusal's
// number and place, loss and mark in hundredths.
#[unsafe(no_mangle)]
pub extern "C" fn harkoxin_mark(errors: u64, warnings: u64, verses: u64, out: &mut [u64])
    ensures { out.new ≡ over out.old 0 (mark_words (mark_answer errors warnings verses)) }
{
    harkoxin::harkoxin_mark(errors, warnings, verses, out)
}

// Reads a text under a marker table to a tape, 16 bytes a node. It writes its answer over the list `out`: the verdict (0 read,
// 2 refused), a refusal's number and place, the number of nodes.
#[unsafe(no_mangle)]
pub extern "C" fn harkoxin_read(table: &[u8], text: &[u8], tape: &mut [u8], out: &mut [u64])
    ensures answer { out.new ≡ over out.old 0 (read_words (read_answer table.now text.now tape.old)) }
    ensures nodes { tape.new ≡ nodes_after table.now text.now tape.old }
{
    harkoxin::harkoxin_read(table, text, tape, out)
}
