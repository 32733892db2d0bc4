// Reads table.txt, source.usfm and nodes.bin of the current folder, checks them and writes the listing, piece by piece.
#![tactic(auto)]

ghost use Rattle.std.specs.Prelude.{◌≡◌, ◌≤◌, length};
ghost use Rattle.std.specs.Prelude.{None};
ghost use Rattle.text.specs.Utf8.{first_ill_formed};
ghost use Rattle.tape.specs.Forest.{Accepted};
ghost use Rattle.table.specs.Inner.{Indexed};
ghost use Rattle.findings.specs.Written.{whole_records};

use cursor::Document;
use exercise::Exercise;
use refusals::Refusal;
use std::io;
use validate::Report;

fn write_head(rt: &impl Print, answer: Result<Report, Refusal>) -> io::Result<()> {
    let mut out = [0u8; 256];
    let end = listing::put_head(&mut out, answer);
    exercise::write(rt, &out, end)
}

// Writes the lines of the held findings, as many at a time as have room.
fn write_findings(
    rt: &impl Print,
    table: &[u8],
    index: &[u64],
    entries: usize,
    source: &[u8],
    tape: &[u8],
    list: &[u64],
    held: usize,
) -> io::Result<()>
    requires indexed { Indexed table.now index.now entries }
    requires accepted { Accepted source.now tape.now }
    requires short { length source.now ≤ 65536 }
    requires few { held ≤ whole_records list.now }
    requires utf8 { first_ill_formed source.now ≡ None }
{
    // A line and a column for each place of a source, its end among them.
    let mut lines = [0; 65537];
    let mut columns = [0; 65537];
    listing::lines_and_columns(source, &mut lines, &mut columns);
    let mut text = [0; 65536];
    // The lines of a finding whose message fills its list have room.
    let mut out = [0; 66048];
    let mut k = 0;
    // A while: the step is as many findings as a piece lists.
    while k < held {
        let piece = listing::put_findings(
            table,
            index,
            entries,
            Document { source, tape },
            list,
            held,
            k,
            &lines,
            &columns,
            &mut text,
            &mut out,
        );
        exercise::write(rt, &out, piece.end)?;
        k = piece.next;
    }
    Ok(())
}

// Writes the listing. The input is checked a second time for the table's index, which the check doesn't give.
fn run(rt: &impl Print, files: Exercise) -> io::Result<()> {
    let Exercise {
        table,
        source,
        tape,
    } = files;
    let mut seen = exercise::chapters_seen();
    let mut list = exercise::findings_list();
    let answer = exercise::checked(table, source, tape, &mut seen, &mut list);
    write_head(rt, answer)?;
    let mut index = [0u64; 512];
    let Ok(entries) = validate::check_input(table, &mut index, source, tape, 65535, 65535) else {
        return Ok(());
    };
    let held = listing::held(answer) as usize;
    write_findings(rt, table, &index, entries, source, tape, &list, held)
}

fn main(rt: HostRuntime) -> io::Result<()> {
    exercise::over_files(&rt, |files| run(&rt, files))
}
