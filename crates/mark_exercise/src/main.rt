// Reads table.txt, source.usfm and nodes.bin of the current folder, checks them and writes loss and mark.
#![tactic(auto)]

use exercise::Exercise;
use std::io;

fn run(rt: &impl Print, files: Exercise) -> io::Result<()> {
    let Exercise {
        table,
        source,
        tape,
    } = files;
    let mut seen = exercise::chapters_seen();
    let mut list = exercise::findings_list();
    let answer = exercise::checked(table, source, tape, &mut seen, &mut list);
    let mut out = [0u8; 256];
    let end = mark::put_mark(&mut out, mark::mark_of(answer));
    exercise::write(rt, &out, end)
}

fn main(rt: HostRuntime) -> io::Result<()> {
    exercise::over_files(&rt, |files| run(&rt, files))
}
