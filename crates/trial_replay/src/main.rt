// Replays recorded answers: each document of standard input is checked, and what the check gives is compared with what is
// recorded of it. The layout of the input is that of oracle/recorded/README.md.
#![tactic(auto)]

ghost use Rattle.std.specs.Prelude.{◌≡◌, ◌*◌, ◌≤◌, length, IfOk};

use definition::OpenStart;
use std::io::Read;
use std::{fmt, io};
use validate::Report;

// What the lent lists hold before a check: no zero, so that a zero at exit was written.
const FILL: u32 = 7;

const FILL_WORD: u64 = 7;

// The lists here have room for this many nodes and findings.
const NODES: usize = 2048;

const FINDINGS: usize = 512;

// The words of the findings.
const WORDS: usize = 4096;

// The most bytes that are read.
const LARGEST: usize = 1048576;

// What differs first of a finding.
#[derive(Clone, Copy)]
enum Field {
    Severity,
    Code,
    Start,
    Len,
    Form,
    First,
    Second,
    Node,
}

impl fmt::Display for Field {
    fn fmt<W: fmt::Write>(&self, f: &mut fmt::Formatter<W>) -> fmt::Result {
        f.write_str(match self {
            Field::Severity => "severity",
            Field::Code => "code",
            Field::Start => "start",
            Field::Len => "len",
            Field::Form => "form",
            Field::First => "first number",
            Field::Second => "second number",
            Field::Node => "node",
        })
    }
}

// What differs first of a document.
#[derive(Clone, Copy)]
enum Difference {
    // It is larger than the lists here.
    Room,
    Number,
    Place,
    Total,
    Finding(usize, Field),
    Counts,
    // A lent list at exit.
    Seen,
    Opens,
    List,
}

impl fmt::Display for Difference {
    fn fmt<W: fmt::Write>(&self, f: &mut fmt::Formatter<W>) -> fmt::Result {
        match self {
            Difference::Room => f.write_str("too large to be replayed"),
            Difference::Number => f.write_str("number"),
            Difference::Place => f.write_str("place"),
            Difference::Total => f.write_str("total"),
            Difference::Finding(i, field) => write!(f, "finding {i}: {field}"),
            Difference::Counts => f.write_str("counts by severity"),
            Difference::Seen => f.write_str("chapters seen at exit"),
            Difference::Opens => f.write_str("open starts at exit"),
            Difference::List => f.write_str("words past the findings"),
        }
    }
}

// The recorded bytes that are left to read. Each method reads on, and gives `None` where they end too early.
#[derive(Clone, Copy)]
struct Reader<'a> {
    rest: &'a [u8],
}

impl<'a> Reader<'a> {
    // As many bytes as a recorded length says.
    fn part(&mut self, len: u32) -> Option<&'a [u8]> {
        let (part, rest) = self.rest.split_at_checked(len as usize)?;
        self.rest = rest;
        Some(part)
    }

    fn array<const N: usize>(&mut self) -> Option<[u8; N]> {
        let (bytes, rest) = self.rest.split_first_chunk::<N>()?;
        self.rest = rest;
        Some(*bytes)
    }

    fn word(&mut self) -> Option<u32> {
        Some(u32::from_le_bytes(self.array()?))
    }

    fn long(&mut self) -> Option<u64> {
        Some(u64::from_le_bytes(self.array()?))
    }

    // A finding, past its message.
    fn finding(&mut self) -> Option<Finding> {
        let finding = Finding {
            severity: self.word()?,
            code: self.word()?,
            start: self.word()?,
            len: self.word()?,
            form: self.word()?,
            first: self.long()?,
            second: self.long()?,
        };
        let message = self.word()?;
        self.part(message)?;
        Some(finding)
    }

    fn document(&mut self) -> Option<Document<'a>> {
        let table = self.word()?;
        let source = self.word()?;
        let tape = self.word()?;
        let number = self.word()?;
        let place = self.word()?;
        let count = self.word()?;
        let document = Document {
            number,
            place,
            count,
            table: self.part(table)?,
            source: self.part(source)?,
            tape: self.part(tape)?,
            findings: *self,
        };
        for _ in 0..count {
            self.finding()?;
        }
        Some(document)
    }
}

// A finding as it is recorded.
#[derive(Clone, Copy)]
struct Finding {
    severity: u32,
    code: u32,
    start: u32,
    len: u32,
    form: u32,
    first: u64,
    second: u64,
}

impl Finding {
    // What differs first of the finding that is given in eight words.
    fn difference(&self, given: &[u64; 8], tape: &[u8]) -> Option<Field> {
        let [severity, code, start, len, node, form, first, second] = *given;
        let fields = [
            (Field::Severity, severity == u64::from(self.severity)),
            (Field::Code, code == u64::from(self.code)),
            (Field::Start, start == u64::from(self.start)),
            (Field::Len, len == u64::from(self.len)),
            (Field::Form, form == u64::from(self.form)),
            (Field::First, self.has_first(first, tape)),
            (Field::Second, second == self.second),
            (Field::Node, self.has_node(node, tape)),
        ];
        let (field, _) = fields.iter().find(|(_, is_same)| !*is_same)?;
        Some(*field)
    }

    // The first number. That of code 32 is a node that isn't recorded.
    fn has_first(&self, given: u64, tape: &[u8]) -> bool {
        if self.code == 32 {
            given < tape.len() as u64 / 16
        } else {
            given == self.first
        }
    }

    // Codes 4 and 8 are about the document; the node of any other is one of those after the root.
    fn has_node(&self, node: u64, tape: &[u8]) -> bool {
        match self.code {
            4 | 8 => node == 0,
            _ => node != 0 && span(tape, node) == Some((self.start, self.len)),
        }
    }
}

// The start and the length of a node.
fn span(tape: &[u8], node: u64) -> Option<(u32, u32)> {
    let (nodes, _) = tape.as_chunks::<16>();
    let mut node = Reader {
        rest: nodes.get(node as usize)?,
    };
    node.word()?;
    Some((node.word()?, node.word()?))
}

// The lent lists at exit.
#[derive(Clone, Copy)]
struct Lists<'a> {
    seen: &'a [u32],
    opens: &'a [OpenStart],
    findings: &'a [u64],
}

impl Lists<'_> {
    // The working lists hold one value, and the words that no finding takes hold what they held.
    fn at_exit(&self, value: u32, unwritten: &[u64]) -> Result<(), Difference> {
        if !self.seen.iter().all(|n| *n == value) {
            return Err(Difference::Seen);
        }
        if !self
            .opens
            .iter()
            .all(|o| o.node == value && o.base_len == value)
        {
            return Err(Difference::Opens);
        }
        if !unwritten.iter().all(|w| *w == FILL_WORD) {
            return Err(Difference::List);
        }
        Ok(())
    }
}

// A document and the answer that is recorded of it.
#[derive(Clone, Copy)]
struct Document<'a> {
    number: u32,
    place: u32,
    count: u32,
    table: &'a [u8],
    source: &'a [u8],
    tape: &'a [u8],
    findings: Reader<'a>,
}

impl Document<'_> {
    fn refused(&self, number: u64, place: u64, lists: Lists) -> Result<(), Difference> {
        if number != u64::from(self.number) {
            return Err(Difference::Number);
        }
        if place != u64::from(self.place) {
            return Err(Difference::Place);
        }
        if self.count != 0 {
            return Err(Difference::Total);
        }
        lists.at_exit(FILL, lists.findings)
    }

    fn checked(&self, r: Report, lists: Lists) -> Result<(), Difference>
        requires { 8 * self.now.count ≤ length lists.findings.now }
    {
        let count = u64::from(self.count);
        if self.number != 0 {
            return Err(Difference::Number);
        }
        if self.place != 0 {
            return Err(Difference::Place);
        }
        if r.total != count || r.written != count {
            return Err(Difference::Total);
        }
        let (written, unwritten) = lists.findings.split_at(8 * self.count as usize);
        let (written, _) = written.as_chunks::<8>();
        self.compare(written)?;
        let of = |severity: u64| written.iter().filter(|given| given[0] == severity).count() as u64;
        if r.errors != of(0) || r.warnings != of(1) || r.infos != of(2) {
            return Err(Difference::Counts);
        }
        lists.at_exit(0, unwritten)
    }

    // Compares the findings that are given, as many as are recorded: `Reader::document` has read past them, so none is missing.
    fn compare(&self, written: &[[u64; 8]]) -> Result<(), Difference> {
        let mut findings = self.findings;
        for (i, given) in written.iter().enumerate() {
            let recorded = findings.finding().ok_or(Difference::Total)?;
            if let Some(field) = recorded.difference(given, self.tape) {
                return Err(Difference::Finding(i, field));
            }
        }
        Ok(())
    }

    // The check with working lists that are just long enough, and with room for a finding more than is recorded.
    fn replay(&self) -> Result<(), Difference> {
        let nodes = self.tape.len() / 16;
        let count = self.count as usize;
        if NODES < nodes || FINDINGS <= count {
            return Err(Difference::Room);
        }
        let mut seen = [FILL; NODES];
        let mut opens = [OpenStart {
            node: FILL,
            base_len: FILL,
        }; NODES];
        let mut findings = [FILL_WORD; WORDS];
        let seen = &mut seen[..nodes];
        let opens = &mut opens[..nodes];
        let findings = &mut findings[..8 * count + 8];
        let answer = validate::check(self.table, self.source, self.tape, seen, opens, findings);
        let lists = Lists {
            seen,
            opens,
            findings,
        };
        match answer {
            Err(r) => self.refused(r.reason.number(), r.place as u64, lists),
            Ok(report) if report.is_cut => Err(Difference::Total),
            Ok(report) => self.checked(report, lists),
        }
    }
}

// How many documents were checked, how many of their findings agree, and how many differences there are.
#[derive(Clone, Copy, Default)]
struct Totals {
    documents: u64,
    findings: u64,
    differences: u64,
}

impl Totals {
    fn print(&self, rt: &impl Print) -> io::Result<()> {
        let Totals {
            documents,
            findings,
            differences,
        } = *self;
        println!(rt; "documents={documents}\nfindings={findings}\ndifferences={differences}")
    }
}

// What stands after the last document is a difference; so is a file that fills the room for it, since more may follow.
fn left_over(rt: &impl Print, rest: &[u8], file: &[u8]) -> io::Result<u64>
    ensures { IfOk result (λ n. n ≤ 1) }
{
    if !rest.is_empty() {
        println!(rt; "the file goes on after its last document")?;
        return Ok(1);
    }
    if LARGEST <= file.len() {
        println!(rt; "the file is too long to be read whole")?;
        return Ok(1);
    }
    Ok(0)
}

fn documents(rt: &impl Print, file: &[u8], mut reader: Reader, count: u32) -> io::Result<()> {
    let mut totals = Totals::default();
    for k in 0..count {
        let Some(document) = reader.document() else {
            println!(rt; "document {k}: the file ends inside it")?;
            totals.differences += 1;
            return totals.print(rt);
        };
        match document.replay() {
            Ok(()) => {
                totals.documents += 1;
                totals.findings += u64::from(document.count);
            }
            Err(difference) => {
                println!(rt; "document {k}: {difference}")?;
                totals.differences += 1;
                // A document that has no room here isn't checked.
                totals.documents += u64::from(!matches!(difference, Difference::Room));
            }
        }
    }
    totals.differences += left_over(rt, reader.rest, file)?;
    totals.print(rt)
}

// Past the heading, and how many documents follow.
fn heading(file: &[u8]) -> Option<(Reader<'_>, u32)> {
    let mut reader = Reader {
        rest: file.strip_prefix(b"USFM3ANS")?,
    };
    let count = reader.word()?;
    Some((reader, count))
}

fn replay(rt: &impl Print, file: &[u8]) -> io::Result<()> {
    let Some((reader, count)) = heading(file) else {
        println!(rt; "the file has no heading")?;
        let totals = Totals {
            differences: 1,
            ..Totals::default()
        };
        return totals.print(rt);
    };
    documents(rt, file, reader, count)
}

// Reads until the list is full, the input ends or a read fails: how many bytes it read.
fn read_full(input: &mut impl Read, buf: &mut [u8]) -> usize
    ensures { result ≤ length buf.new }
{
    let mut done = 0;
    // A while: the step is as many bytes as a read gives.
    while done < buf.len() {
        match input.read(&mut buf[done..]) {
            Ok(0) | Err(_) => return done,
            Ok(more) => done += more,
        }
    }
    done
}

// Room for the whole file. Its length is a clause, since a check of code that holds this array would count its elements.
fn room() -> [u8; LARGEST]
    ensures { length result ≡ LARGEST }
{
    [0; LARGEST]
}

fn main(rt: HostRuntime) -> io::Result<()> {
    let mut file = room();
    let n = read_full(&mut rt.stdin(), &mut file);
    replay(&rt, &file[..n])
}
