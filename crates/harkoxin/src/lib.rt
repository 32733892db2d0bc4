// The library under C names. A caller must pass valid slices that don't overlap.
#![tactic(auto)]

ghost use Rattle.std.specs.Prelude.{◌≡◌, ◌++◌, ◌*◌, ◌≤◌, length};
ghost use Rattle.definition.specs.Outcome.{answer, checked, list_after, seen_after, open_after};
ghost use Rattle.refusals.specs.Reasons.{number_of, refusal_in};
ghost use Rattle.validate.specs.Entry.{answer_of, report_of};
ghost use Rattle.tape.specs.Forest.{Accepted};
ghost use Rattle.buffer.specs.Over.{over};
ghost use Rattle.messages.specs.Answer.{message_answer, message_after};
ghost use Rattle.messages.specs.Answer as message;
ghost use Rattle.tally.specs.Tally as tally;
ghost use Rattle.tally.specs.Tally.{tally_refusal, counts_after};
ghost use Rattle.messages.specs.Messages.{texts_of, ends_from, messages_answer, messages_answer_of, messages_after, ends_after};
ghost use Rattle.message_texts.specs.Filled.{joined};
ghost use Rattle.harkoxin.specs.Words.{answer_words, refusal_words, message_words, messages_words, tally_words, mark_words, read_words};
ghost use Rattle.harkoxin.specs.Report.{held_of, held_in, held_answer, turned_words, report_answer, report_text, report_ends};
ghost use Rattle.table.specs.Inner.{Indexed};
ghost use Rattle.mark.specs.Mark.{mark_answer, mark_answer_of};
ghost use Rattle.reader_spec.specs.Answer.{read_answer, nodes_after};
ghost use Rattle.reader.specs.Read.{read_answer_of};
ghost use Rattle.validate.specs.Entry.{lent};

use cursor::Document;
use definition::OpenStart;
use mark::PaperMark;
use messages::{MessageRequest, Texts};
use refusals::Refusal;
use validate::Report;

// Writes words over a lent list from a place on, as far as there is room.
fn write_words(words: &[u64], at: usize, out: &mut [u64])
    ensures { out.new ≡ over out.old at words.now }
{
    let n = buffer::fitting(words.len(), out.len(), at);
    for i in 0..n {
        out[at + i] = words[i];
    }
}

fn write_report(r: Report, out: &mut [u64])
    ensures { out.new ≡ over out.old 0 (answer_words (checked (report_of r))) }
{
    let verdict = u64::from(r.is_cut);
    let words = [
        verdict, 0, 0, r.total, r.written, r.verses, r.errors, r.warnings, r.infos,
    ];
    write_words(&words, 0, out);
}

fn write_refusal(r: Refusal, out: &mut [u64])
    ensures { out.new ≡ over out.old 0 (refusal_words (number_of r.reason) r.place) }
{
    let words = [2, r.reason.number(), r.place as u64, 0, 0, 0, 0, 0, 0];
    write_words(&words, 0, out);
}

fn write_answer(a: Result<Report, Refusal>, out: &mut [u64])
    ensures { out.new ≡ over out.old 0 (answer_words (answer_of a)) }
{
    match a {
        Ok(r) => write_report(r, out),
        Err(r) => write_refusal(r, out),
    }
}

// The check. It writes its answer over the list `out`: the verdict (0 checked, 1 cut, 2 refused), a refusal's number and place, a
// checked document's total, written, verses, errors, warnings and infos.
#[unsafe(no_mangle)]
pub extern "C" fn harkoxin_check(
    table: &[u8],
    source: &[u8],
    tape: &[u8],
    seen: &mut [u32],
    opens: &mut [OpenStart],
    list: &mut [u64],
    out: &mut [u64],
)
    ensures answer { out.new ≡ over out.old 0 (answer_words (answer (lent table.now source.now tape.now seen.old opens.old list.old))) }
    ensures list { list.new ≡ list_after (lent table.now source.now tape.now seen.old opens.old list.old) }
    ensures seen { seen.new ≡ seen_after (lent table.now source.now tape.now seen.old opens.old list.old) }
    ensures opens { opens.new ≡ open_after (lent table.now source.now tape.now seen.old opens.old list.old) }
{
    write_answer(validate::check(table, source, tape, seen, opens, list), out)
}

fn write_message_answer(a: Result<usize, Refusal>, out: &mut [u64])
    ensures { out.new ≡ over out.old 0 (message_words (message.message_answer_of a)) }
{
    match a {
        Ok(n) => write_words(&[0, 0, 0, n as u64], 0, out),
        Err(r) => write_words(&[2, r.reason.number(), r.place as u64, 0], 0, out),
    }
}

// The text of a finding that has these words. It writes its answer over the list `out`: the verdict (0 written, 2 refused), a
// refusal's number and place, the text's length.
#[unsafe(no_mangle)]
pub extern "C" fn harkoxin_message<'a>(
    table: &'a [u8],
    source: &'a [u8],
    tape: &[u8],
    code: u64,
    form: u64,
    node: u64,
    first: u64,
    second: u64,
    text: &mut [u8],
    out: &mut [u64],
)
    ensures answer { out.new ≡ over out.old 0 (message_words (message_answer table.now source.now tape.now (record { code = code; form = form; node = node; first = first; second = second }) text.old)) }
    ensures text { text.new ≡ message_after table.now source.now tape.now (record { code = code; form = form; node = node; first = first; second = second }) text.old }
{
    let q = MessageRequest {
        code,
        form,
        node,
        first,
        second,
    };
    write_message_answer(messages::message(table, source, tape, q, text), out)
}

fn write_messages_answer(a: Result<Texts, Refusal>, at: usize, out: &mut [u64])
    ensures { out.new ≡ over out.old at (messages_words (messages_answer_of a)) }
{
    match a {
        Err(r) => write_words(&[2, r.reason.number(), r.place as u64, 0, 0], at, out),
        Ok(t) => match t.stop {
            None => write_words(&[0, 0, 0, t.records as u64, t.bytes as u64], at, out),
            Some(r) => {
                let words = [
                    1,
                    r.reason.number(),
                    r.place as u64,
                    t.records as u64,
                    t.bytes as u64,
                ];
                write_words(&words, at, out)
            }
        },
    }
}

// The texts of a list's findings, one behind another, and where each ends. It writes its answer over the list `out`: the verdict (0 all
// written, 1 stopped, 2 refused), number and place of a refusal or of what turns the next text back, how many texts are written, their
// bytes.
#[unsafe(no_mangle)]
pub extern "C" fn harkoxin_messages<'a>(
    table: &'a [u8],
    source: &'a [u8],
    tape: &[u8],
    list: &[u64],
    ends: &mut [u64],
    text: &mut [u8],
    out: &mut [u64],
)
    ensures answer { out.new ≡ over out.old 0 (messages_words (messages_answer table.now source.now tape.now list.now (length text.old))) }
    ensures text { text.new ≡ messages_after table.now source.now tape.now list.now text.old }
    ensures ends { ends.new ≡ ends_after table.now source.now tape.now list.now (length text.old) ends.old }
{
    write_messages_answer(
        messages::messages(table, source, tape, list, ends, text),
        0,
        out,
    )
}

// How many findings the list of a checked document holds.
fn held(a: Result<Report, Refusal>) -> u64
    ensures { result ≡ held_of (answer_of a) }
{
    match a {
        Ok(r) => r.written,
        Err(_) => 0,
    }
}

// Writes the texts of the findings that the list of a checked document holds, and both answers one behind the other.
fn write_held<'a>(
    table: &'a [u8],
    index: &[u64],
    entries: usize,
    doc: Document<'a, '_>,
    a: Result<Report, Refusal>,
    list: &mut [u64],
    ends: &mut [u64],
    text: &mut [u8],
    out: &mut [u64],
)
    requires { (Indexed table.now index.now entries) × (Accepted doc.source.now doc.tape.now) × (length doc.source.now ≤ 1048576) × (8 * held_of (answer_of a) ≤ length list.old) }
    ensures answer { out.new ≡ over out.old 0 (answer_words (answer_of a) ++ messages_words (held_answer table.now doc.entry.source.now doc.entry.tape.now (held_in (answer_of a) list.old) (length text.old))) }
    ensures text { text.new ≡ over text.old 0 (joined (texts_of table.now doc.entry.source.now doc.entry.tape.now (held_in (answer_of a) list.old) (length text.old))) }
    ensures ends { ends.new ≡ over ends.old 0 (ends_from 0 (texts_of table.now doc.entry.source.now doc.entry.tape.now (held_in (answer_of a) list.old) (length text.old))) }
    ensures list { list.new ≡ list.old }
{
    let k = 8 * held(a) as usize;
    let t = messages::messages_in(table, index, entries, doc, &list[..k], ends, text);
    write_answer(a, out);
    write_messages_answer(Ok(t), 9, out);
}

// Writes both answers of a document that is turned back.
fn write_turned_back(r: Refusal, out: &mut [u64])
    ensures { out.new ≡ over out.old 0 (turned_words (number_of r.reason) r.place) }
{
    write_refusal(r, out);
    write_messages_answer(Err(r), 9, out);
}

// The check, and the texts of the findings that it wrote, by one reading of the document. It writes its answer over the list `out`:
// the nine words of `harkoxin_check`, then the five of `harkoxin_messages`.
#[unsafe(no_mangle)]
pub extern "C" fn harkoxin_report<'a>(
    table: &'a [u8],
    source: &'a [u8],
    tape: &[u8],
    seen: &mut [u32],
    opens: &mut [OpenStart],
    list: &mut [u64],
    ends: &mut [u64],
    text: &mut [u8],
    out: &mut [u64],
)
    ensures answer { out.new ≡ over out.old 0 (answer_words (answer (lent table.now source.now tape.now seen.old opens.old list.old)) ++ messages_words (report_answer (lent table.now source.now tape.now seen.old opens.old list.old) (length text.old))) }
    ensures list { list.new ≡ list_after (lent table.now source.now tape.now seen.old opens.old list.old) }
    ensures seen { seen.new ≡ seen_after (lent table.now source.now tape.now seen.old opens.old list.old) }
    ensures opens { opens.new ≡ open_after (lent table.now source.now tape.now seen.old opens.old list.old) }
    ensures text { text.new ≡ report_text (lent table.now source.now tape.now seen.old opens.old list.old) text.old }
    ensures ends { ends.new ≡ report_ends (lent table.now source.now tape.now seen.old opens.old list.old) (length text.old) ends.old }
{
    let mut index = [0u64; 512];
    match validate::check_input(table, &mut index, source, tape, seen.len(), opens.len()) {
        Err(r) => write_turned_back(r, out),
        Ok(entries) => {
            let doc = Document { source, tape };
            let a = Ok(validate::passed(table, &index, entries, doc, seen, opens, list));
            write_held(table, &index, entries, doc, a, list, ends, text, out)
        }
    }
}

fn write_tallied(a: Result<(), Refusal>, out: &mut [u64])
    ensures { out.new ≡ over out.old 0 (tally_words (refusal_in a)) }
{
    match a {
        Ok(()) => write_words(&[0, 0, 0], 0, out),
        Err(r) => write_words(&[2, r.reason.number(), r.place as u64], 0, out),
    }
}

// The counts by code of a list of findings. It writes its answer over the list `out`: the verdict (0 counted, 2 refused), a refusal's
// number and place.
#[unsafe(no_mangle)]
pub extern "C" fn harkoxin_tally(list: &[u64], counts: &mut [u64], out: &mut [u64])
    ensures answer { out.new ≡ over out.old 0 (tally_words (tally_refusal list.now)) }
    ensures counts { counts.new ≡ counts_after list.now counts.old }
{
    write_tallied(tally::tally(list, counts), out)
}

fn write_mark(a: Result<PaperMark, Refusal>, out: &mut [u64])
    ensures { out.new ≡ over out.old 0 (mark_words (mark_answer_of a)) }
{
    match a {
        Ok(m) => write_words(&[0, 0, 0, m.loss, m.mark], 0, out),
        Err(r) => write_words(&[2, r.reason.number(), r.place as u64, 0, 0], 0, out),
    }
}

// Loss and mark of a paper with these counts. It writes its answer over the list `out`: the verdict (0 marked, 2 refused), a refusal's
// number and place, loss and mark in hundredths.
#[unsafe(no_mangle)]
pub extern "C" fn harkoxin_mark(errors: u64, warnings: u64, verses: u64, out: &mut [u64])
    ensures { out.new ≡ over out.old 0 (mark_words (mark_answer errors warnings verses)) }
{
    write_mark(mark::mark(errors, warnings, verses), out)
}

fn write_read(a: Result<usize, Refusal>, out: &mut [u64])
    ensures { out.new ≡ over out.old 0 (read_words (read_answer_of a)) }
{
    match a {
        Ok(nodes) => write_words(&[0, 0, 0, nodes as u64], 0, out),
        Err(r) => write_words(&[2, r.reason.number(), r.place as u64, 0], 0, out),
    }
}

// Reads a text under a marker table to a tape, 16 bytes a node. It writes its answer over the list `out`: the verdict (0 read,
// 2 refused), a refusal's number and place, the number of nodes.
#[unsafe(no_mangle)]
pub extern "C" fn harkoxin_read(table: &[u8], text: &[u8], tape: &mut [u8], out: &mut [u64])
    ensures answer { out.new ≡ over out.old 0 (read_words (read_answer table.now text.now tape.old)) }
    ensures nodes { tape.new ≡ nodes_after table.now text.now tape.old }
{
    write_read(reader::read(table, text, tape), out)
}
