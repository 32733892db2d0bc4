// Rows of tables: the columns of a cell, and the order of the cells of a row.
#![tactic(auto)]

ghost use Rattle.std.specs.Prelude.{◌≡◌, ◌<◌, ◌≤◌, [], length};
ghost use Rattle.tape.specs.Nodes.{node_at, count};
ghost use Rattle.tape.specs.Forest.{forest};
ghost use Rattle.cursor.specs.Inner.{Run, Spanned};
ghost use Rattle.findings.specs.Finding.{finding_of};
ghost use Rattle.rows.specs.Row.{cell_in, out_of_order, row_findings};
ghost use Rattle.rows.specs.Cells.{is_cell, is_aligned, after_letters, pair, columns_in, cell_columns, cell_of};
ghost use Rattle.findings.specs.Inner.{Wrote, Room};

use cursor::{Document, Siblings};
use findings::{Counts, Finding, Severity};

// The first and the last column of a cell.
#[derive(Clone, Copy)]
pub struct Columns {
    pub start: u32,
    pub end: u32,
}

fn is_cell(name: &[u8]) -> bool
    ensures { result ≡ is_cell name.now }
{
    text::starts_with(name, b"th") || text::starts_with(name, b"tc")
}

fn is_aligned(name: &[u8]) -> bool
    ensures { result ≡ is_aligned name.now }
{
    matches!(name, [_, _, b'r' | b'c', ..])
}

// What stands after the letters of a cell's name.
fn after_letters(name: &[u8]) -> &[u8]
    requires { 2 ≤ length name.now }
    ensures { result.now ≡ after_letters name.now }
{
    if is_aligned(name) {
        &name[3..]
    } else {
        &name[2..]
    }
}

// The columns of two numbers, if both are read.
fn both_read(start: Option<u32>, end: Option<u32>) -> Option<Columns>
    ensures { cell_of result ≡ pair start end }
{
    Some(Columns {
        start: start?,
        end: end?,
    })
}

fn columns_in(s: &[u8]) -> Option<Columns>
    ensures { cell_of result ≡ columns_in s.now }
{
    let at = text::find_byte(s, b'-');
    if at < s.len() {
        return both_read(text::parse(&s[..at]), text::parse(&s[at + 1..]));
    }
    both_read(text::parse(s), text::parse(s))
}

pub fn table_cell_columns(name: &[u8]) -> Option<Columns>
    ensures { cell_of result ≡ cell_columns name.now }
{
    if !is_cell(name) {
        return None;
    }
    columns_in(after_letters(name))
}

// The columns of a node, if it is a cell.
fn cell_at(doc: Document<'_, '_>, i: usize) -> Option<Columns>
    requires { Spanned doc.source.now doc.tape.now i }
    ensures { cell_of result ≡ cell_in (node_at doc.entry.source.now doc.entry.tape.now i) }
{
    if tape::kind_at(doc.tape, i) != tape::MARKER_OPEN {
        return None;
    }
    table_cell_columns(doc.marker_name(i))
}

// The finding of a cell that stands at another column than the expected one.
fn out_of_order(tape: &[u8], i: usize, expected: u64, found: u32) -> Finding
    requires { i < count tape.now }
    ensures { finding_of result ≡ out_of_order (node_at [] tape.now i) expected found }
{
    Finding {
        severity: Severity::Error,
        code: findings::INVALID_TABLE_COLUMN_SEQUENCE,
        start: tape::start_at(tape, i) as u64,
        len: tape::len_at(tape, i) as u64,
        node: i as u64,
        form: 0,
        first: expected,
        second: found as u64,
    }
}

// The order of the cells of a row: the nodes from one up to another are its children.
pub fn validate_table_row(
    doc: Document<'_, '_>,
    from: usize,
    to: usize,
    list: &mut [u64],
    counts: Counts,
) -> Counts
    requires { (Run doc.source.now doc.tape.now from to) × Room counts (row_findings (forest doc.source.now doc.tape.now from to)) }
    ensures { Wrote (row_findings (forest doc.entry.source.now doc.entry.tape.now from to)) list.old counts list.new result }
{
    let mut c = counts;
    let mut expected: u64 = 1;
    for i in Siblings::new(doc.tape, from, to) {
        let Some(columns) = cell_at(doc, i) else {
            continue;
        };
        let found = columns.start;
        let f = out_of_order(doc.tape, i, expected, found);
        c = findings::push_if(list, c, found as u64 != expected, f);
        expected = columns.end as u64 + 1;
    }
    c
}
