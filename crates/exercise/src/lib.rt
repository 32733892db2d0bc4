// What the programs over an exercise's files share: reading the files, the check with lists for as many nodes as a file has, and
// writing.
#![tactic(auto)]

ghost use Rattle.std.specs.Prelude.{◌≡◌, ◌*◌, ◌≤◌, length, false, IfOk, IfSome};
ghost use Rattle.definition.specs.Outcome.{answer, list_after, repeated, no_start};
ghost use Rattle.validate.specs.Entry.{answer_of, lent};
ghost use Rattle.text.specs.Pick.{any_over};
ghost use Rattle.listing.specs.Listing.{is_too_large, largest_file, most_held};

use definition::OpenStart;
use refusals::Refusal;
use std::fs::File;
use std::io::Read;
use std::rt::Files;
use std::{io, str};
use validate::Report;

// The most bytes that a file may have.
const LARGEST_FILE: usize = 65536;

// One byte more than a file may have. The programs' lists are made by functions, so that each length stands in one place.
pub fn file_room() -> [u8; 65537]
    ensures { 65537 ≡ length result }
{
    [0; 65537]
}

// Findings, 1,024 of them.
pub fn findings_list() -> [u64; 8192]
    ensures { 8192 ≡ length result }
{
    [0; 8192]
}

// Chapters seen, for 4,096 nodes: a file has no more.
pub fn chapters_seen() -> [u32; 4096]
    ensures { 4096 ≡ length result }
{
    [0; 4096]
}

// How many bytes an open file has, up to the list's length.
fn read_open(open: &mut impl Read, file: &mut [u8]) -> io::Result<usize>
    ensures { IfOk result (λ n. n ≤ length file.new) }
{
    let mut done = 0;
    // A while: the step is as many bytes as a read gives.
    while done < file.len() {
        match open.read(&mut file[done..])? {
            0 => break,
            more => done += more,
        }
    }
    Ok(done)
}

// How many bytes a file has, up to the list's length; `None` where it can't be read. A path that isn't UTF-8 can't be.
fn read_named(rt: &impl Files, path: &[u8], file: &mut [u8]) -> Option<usize>
    ensures { IfSome result (λ n. n ≤ length file.new) }
{
    let name = str::from_utf8(path).ok()?;
    let mut open = File::open(rt, name).ok()?;
    read_open(&mut open, file).ok()
}

// The bytes of a file, up to the list's length, in the list; none where it can't be read.
pub fn read<'a>(rt: &impl Files, path: &[u8], file: &'a mut [u8]) -> &'a [u8]
    ensures { length result.now ≤ length file.old }
{
    let n = read_named(rt, path, file).unwrap_or(0);
    &file[..n]
}

// Whether a file is too large, by how many bytes of each were read.
pub fn is_too_large(table: usize, source: usize, nodes: usize) -> bool
    ensures { result ≡ any_over largest_file table source nodes }
{
    LARGEST_FILE < table || LARGEST_FILE < source || LARGEST_FILE < nodes
}

// Writes a list up to a place, where its text ends, to standard output. On an error part of it may be written; nothing lent changes.
pub fn write(rt: &impl Print, out: &[u8], end: usize) -> io::Result<()>
    requires { end ≤ length out.now }
{
    rt.write_all(&out[..end])
}

pub fn write_too_large(rt: &impl Print) -> io::Result<()> {
    let mut out = [0u8; 256];
    let end = listing::put_too_large(&mut out, 0);
    write(rt, &out, end)
}

// An exercise's files, none of them too large.
#[derive(Clone, Copy)]
pub struct Exercise<'a> {
    pub table: &'a [u8],
    pub source: &'a [u8],
    pub tape: &'a [u8],
    pub ghost small: { is_too_large table.now source.now tape.now ≡ false },
}

// Reads the files of the current folder, and runs over them, or writes that one is too large.
pub fn over_files<F: FnOnce(Exercise<'_>) -> io::Result<()>>(
    rt: &(impl Files + Print),
    run: F,
) -> io::Result<()>
    requires { F.IsAlwaysCallable run }
{
    let mut table = file_room();
    let mut source = file_room();
    let mut tape = file_room();
    let table = read(rt, b"table.txt", &mut table);
    let source = read(rt, b"source.usfm", &mut source);
    let tape = read(rt, b"nodes.bin", &mut tape);
    if is_too_large(table.len(), source.len(), tape.len()) {
        return write_too_large(rt);
    }
    run(Exercise {
        table,
        source,
        tape,
    })
}

// The check, with open starts for 4,096 nodes, and with lists that hold what the listing asks for.
pub fn checked(
    table: &[u8],
    source: &[u8],
    tape: &[u8],
    seen: &mut [u32],
    list: &mut [u64],
) -> Result<Report, Refusal>
    requires { (4096 ≤ length seen.old) × (length list.old ≡ 8 * most_held) }
    ensures answer { answer_of result ≡ answer (lent table.now source.now tape.now seen.old (repeated no_start 4096) list.old) }
    ensures list { list.new ≡ list_after (lent table.now source.now tape.now seen.old (repeated no_start 4096) list.old) }
{
    let nothing = OpenStart {
        node: 0,
        base_len: 0,
    };
    let mut opens = [nothing; 4096];
    validate::check(table, source, tape, seen, &mut opens, list)
}
