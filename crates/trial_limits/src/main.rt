// Makes documents at both sides of three limits, and one with labels at both sides of a fourth, checks them, and writes
// the answers: trial items 13 to 16.
#![tactic(auto)]

ghost use Rattle.std.specs.Prelude.{◌≡◌, ◌+◌, ◌*◌, ◌≤◌, length};
ghost use Rattle.definition.specs.Outcome.{answer, list_after, repeated, no_start};
ghost use Rattle.validate.specs.Entry.{answer_of, lent};

use definition::OpenStart;
use refusals::Refusal;
use std::io;
use validate::Report;

const TABLE: &[u8] =
    b"name=id\ncategory=identification\nrole=excluded\nname=c\ncategory=chapter\nrole=content\nname=v\ncategory=verse\nrole=content\nname=p\ncategory=paragraph\nrole=boundary\n";

// Places in `TABLE`.
const ID: u16 = 0;

const C: u16 = 1;

const V: u16 = 2;

const P: u16 = 3;

// The most nodes here.
const NODES: usize = 65536;

// A node of a tape.
#[derive(Clone, Copy)]
struct Node {
    kind: u8,
    marker: u16,
    start: u32,
    len: u32,
    link: u32,
}

impl Node {
    // With an empty span at 0.
    fn new(kind: u8, marker: u16, link: u32) -> Node {
        Node {
            kind,
            marker,
            start: 0,
            len: 0,
            link,
        }
    }

    fn over(self, start: u32, len: u32) -> Node {
        Node { start, len, ..self }
    }

    fn bytes(self) -> [u8; 16] {
        let [m0, m1] = self.marker.to_le_bytes();
        let [s0, s1, s2, s3] = self.start.to_le_bytes();
        let [n0, n1, n2, n3] = self.len.to_le_bytes();
        let [k0, k1, k2, k3] = self.link.to_le_bytes();
        [
            self.kind, 0, m0, m1, s0, s1, s2, s3, n0, n1, n2, n3, k0, k1, k2, k3,
        ]
    }
}

fn write_nodes(tape: &mut [[u8; 16]], nodes: &[Node]) {
    for (bytes, node) in tape.iter_mut().zip(nodes) {
        *bytes = node.bytes();
    }
}

// A root and verses.
fn write_flat(tape: &mut [[u8; 16]])
    requires { length tape.old ≤ 65536 }
{
    let root = Node::new(tape::ROOT, 0, tape.len() as u32);
    tape.fill(Node::new(tape::VERSE, V, 0).bytes());
    write_nodes(tape, &[root]);
}

// A root, d paragraphs, each inside the one before it, and a verse in the innermost: 2 · d + 2 nodes.
fn write_nested(tape: &mut [[u8; 16]], d: usize)
    requires { (d ≤ 65) × (2 * d + 2 ≤ length tape.old) }
{
    let end = 2 * d + 2;
    tape[0] = Node::new(tape::ROOT, 0, end as u32).bytes();
    tape[d + 1] = Node::new(tape::VERSE, V, 0).bytes();
    for i in 1..=d {
        let close = end - i;
        tape[i] = Node::new(tape::MARKER_OPEN, P, close as u32).bytes();
        tape[close] = Node::new(tape::BLOCK_END, P, 0).bytes();
    }
}

// A paragraph by entry 511 of the table and one by entry 512, which only a table of more than 512 would have.
fn last_nodes() -> [Node; 5] {
    [
        Node::new(tape::ROOT, 0, 5),
        Node::new(tape::MARKER_OPEN, 511, 2),
        Node::new(tape::BLOCK_END, 511, 0),
        Node::new(tape::MARKER_OPEN, 512, 4),
        Node::new(tape::BLOCK_END, 512, 0),
    ]
}

// The nodes of the source of `labels`.
fn label_nodes() -> [Node; 11] {
    [
        Node::new(tape::ROOT, 0, 11).over(0, 63),
        Node::new(tape::MARKER_OPEN, ID, 3).over(0, 3),
        Node::new(tape::TEXT, 0, 0).over(3, 5),
        Node::new(tape::BLOCK_END, ID, 0).over(8, 0),
        Node::new(tape::CHAPTER, C, 1).over(8, 5),
        Node::new(tape::MARKER_OPEN, P, 10).over(13, 2),
        Node::new(tape::VERSE, V, 4294967294).over(16, 14),
        Node::new(tape::VERSE, V, 4294967295).over(30, 14),
        Node::new(tape::VERSE, V, 0).over(44, 14),
        Node::new(tape::VERSE, V, 1).over(58, 5),
        Node::new(tape::BLOCK_END, P, 0).over(63, 0),
    ]
}

// The check, with open starts for 65,536 nodes: as `exercise::checked` does for its 4,096, but a trial uses the library alone.
fn checked(
    table: &[u8],
    source: &[u8],
    nodes: &[u8],
    seen: &mut [u32],
    list: &mut [u64],
) -> Result<Report, Refusal>
    ensures answer { answer_of result ≡ answer (lent table.now source.now nodes.now seen.old (repeated no_start 65536) list.old) }
    ensures list { list.new ≡ list_after (lent table.now source.now nodes.now seen.old (repeated no_start 65536) list.old) }
{
    let nothing = OpenStart {
        node: 0,
        base_len: 0,
    };
    let mut opens = [nothing; 65536];
    validate::check(table, source, nodes, seen, &mut opens, list)
}

fn report(rt: &impl Print, answer: &str, r: Report) -> io::Result<u64> {
    let Report {
        total,
        written,
        verses,
        ..
    } = r;
    println!(rt; "{answer}, total {total}, written {written}, verses {verses}")?;
    Ok(written)
}

// The check's answer, and how many findings it wrote.
fn answer(
    rt: &impl Print,
    table: &[u8],
    source: &[u8],
    tape: &[[u8; 16]],
    list: &mut [u64],
) -> io::Result<u64> {
    let mut seen = [0; NODES];
    match checked(table, source, tape.as_flattened(), &mut seen, list) {
        Err(r) => {
            println!(rt; "number {} at {}", r.reason.number(), r.place)?;
            Ok(0)
        }
        Ok(r) => report(rt, if r.is_cut { "cut" } else { "checked" }, r),
    }
}

// The first findings of a list, a line of their words each.
fn findings(rt: &impl Print, list: &[u64], count: u64) -> io::Result<()> {
    let (findings, _) = list.as_chunks::<8>();
    for finding in findings.iter().take(count as usize) {
        let [severity, code, start, len, node, form, first, second] = *finding;
        println!(rt; "{severity} {code} {start} {len} {node} {form} {first} {second}")?;
    }
    Ok(())
}

fn flat(rt: &impl Print, tape: &mut [[u8; 16]]) -> io::Result<()>
    requires { length tape.old ≤ 65536 }
{
    write_flat(tape);
    print!(rt; "{} nodes: ", tape.len())?;
    answer(rt, TABLE, b"", tape, &mut [0; 1024])?;
    Ok(())
}

fn nested(rt: &impl Print, d: usize) -> io::Result<()>
    requires { d ≤ 65 }
{
    let mut tape = [[0; 16]; 132];
    write_nested(&mut tape, d);
    print!(rt; "{d} deep: ")?;
    answer(rt, TABLE, b"", &tape[..2 * d + 2], &mut [0; 1024])?;
    Ok(())
}

fn entries(rt: &impl Print, n: usize) -> io::Result<()>
    requires { n ≤ 513 }
{
    let entries = [*b"name=p\ncategory=paragraph\nrole=boundary\n"; 513];
    let table = entries[..n].as_flattened();
    let mut tape = [[0; 16]; 5];
    write_nodes(&mut tape, &last_nodes());
    print!(rt; "{n} markers: ")?;
    answer(rt, table, b"", &tape, &mut [0; 1024])?;
    Ok(())
}

fn labels(rt: &impl Print) -> io::Result<()> {
    let source = b"\\id GEN\n\\c 1\n\\p\n\\v 4294967294\n\\v 4294967295\n\\v 4294967296\n\\v 1\n";
    let mut tape = [[0; 16]; 11];
    write_nodes(&mut tape, &label_nodes());
    print!(rt; "labels: ")?;
    let mut list = [0; 1024];
    let count = answer(rt, TABLE, source, &tape, &mut list)?;
    findings(rt, &list, count)
}

fn main(rt: HostRuntime) -> io::Result<()> {
    let mut tape = [[0; 16]; NODES];
    for n in [0, 65535, 65536] {
        flat(&rt, &mut tape[..n])?;
    }
    nested(&rt, 64)?;
    nested(&rt, 65)?;
    entries(&rt, 512)?;
    entries(&rt, 513)?;
    labels(&rt)
}
