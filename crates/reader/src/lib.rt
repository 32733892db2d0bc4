// Reads USFM text under a marker table to a tape. A first pass finds a fault, or counts the nodes and writes nothing; a second
// one writes them.
#![tactic(auto)]

ghost use Rattle.std.specs.Prelude.{◌≤◌, length, ◌≡◌};
ghost use Rattle.reader_spec.specs.Answer.{read_answer, nodes_after};
ghost use Rattle.reader.specs.Read.{read_answer_of};
ghost use Rattle.reader.specs.Output.{Printed};

use refusals::{Reason, Refusal};

// Whatever is lent, the answer and the list of nodes at exit are the definition's: how many nodes the text has, the root among
// them, or the reason that turns it back, with its place.
#[tactic(auto, unfolding(reader_spec::specs::Answer::read_refusal))]
pub fn read(table: &[u8], text: &[u8], nodes: &mut [u8]) -> Result<usize, Refusal>
    ensures answer { read_answer_of result ≡ read_answer table.now text.now nodes.old }
    ensures nodes { nodes.new ≡ nodes_after table.now text.now nodes.old }
{
    let mut index = [0u64; 512];
    let entries = table::index(table, &mut index)?;
    validate::check_source(text)?;
    let mut chains = [0u16; 768];
    table::link_names(table, &index, entries, &mut chains);
    let count = first_pass::survey(table, &index, entries, &chains, text)?;
    if nodes.len() / 16 < count {
        return Err(Reason::NodeListTooShort.at(count));
    }
    second_pass::write_nodes(table, &index, entries, &chains, text, nodes, count);
    Ok(count)
}

// Writes what read-exercise prints over the list of nodes: the nodes, or the lines of a refusal. Gives where that ends.
pub fn put_output(table: &[u8], text: &[u8], nodes: &mut [u8]) -> usize
    ensures output { Printed table.now text.now nodes.old nodes.new result (read_answer table.now text.now nodes.old) }
    ensures end { 256 ≤ length nodes.old → result ≤ length nodes.new }
{
    match read(table, text, nodes) {
        Ok(count) => 16 * count,
        Err(r) => listing::put_refused(nodes, 0, r.reason.number(), r.place as u64),
    }
}
