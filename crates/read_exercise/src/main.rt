// Reads table.txt and source.usfm of the current folder and writes the bytes of the text's tape, or a refusal.
#![tactic(auto)]

ghost use Rattle.std.specs.Prelude.{◌≡◌, false, [], length};
ghost use Rattle.listing.specs.Listing.{is_too_large};

use std::io;

// A tape of 65,537 nodes: a source that isn't too large has no more. Its length is a clause, since a check of code that holds
// this array would count its elements.
fn tape_room() -> [u8; 1048592]
    ensures { 1048592 ≡ length result }
{
    [0; 1048592]
}

fn run(rt: &impl Print, table: &[u8], source: &[u8]) -> io::Result<()>
    requires { is_too_large table.now source.now [] ≡ false }
{
    let mut nodes = tape_room();
    let end = reader::put_output(table, source, &mut nodes);
    exercise::write(rt, &nodes, end)
}

fn main(rt: HostRuntime) -> io::Result<()> {
    let mut table = exercise::file_room();
    let mut source = exercise::file_room();
    let table = exercise::read(&rt, b"table.txt", &mut table);
    let source = exercise::read(&rt, b"source.usfm", &mut source);
    if exercise::is_too_large(table.len(), source.len(), 0) {
        return exercise::write_too_large(&rt);
    }
    run(&rt, table, source)
}
