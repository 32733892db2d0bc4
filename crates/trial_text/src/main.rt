// Runs the vectors of standard input through the crate `text`, and writes each line with its answer. A line is a letter, a
// space and bytes or a code point in hexadecimal, or, for a number to parse, the text itself. A line that starts with `#` is copied.
#![tactic(auto)]

ghost use Rattle.std.specs.Prelude.{◌≡◌, ◌<◌, ◌≤◌, length, unwrap_or, IfSome};
ghost use Rattle.trial_text.specs.Hex.{hex_digit};

use std::io;
use std::io::Read;
use text::Decoded;

// The value of a digit in hexadecimal, upper case.
fn digit(b: u8) -> Option<u8>
    ensures value { unwrap_or result 16 ≡ hex_digit b }
    ensures below { IfSome result (λ d. d < 16) }
{
    match b {
        b'0'..=b'9' => Some(b - b'0'),
        b'A'..=b'F' => Some(b - b'A' + 10),
        _ => None,
    }
}

// The byte that two digits spell.
fn pair(two: &[u8]) -> Option<u8> {
    match two {
        [high, low] => Some(digit(*high)? * 16 + digit(*low)?),
        _ => None,
    }
}

// The bytes that the pairs of digits of a line spell, as far as there is room, and their number.
fn bytes_of(line: &[u8], out: &mut [u8]) -> usize
    ensures { result ≤ length out.new }
{
    let mut n: usize = 0;
    for two in line.windows(2) {
        if let Some(byte) = pair(two)
            && n < out.len()
        {
            out[n] = byte;
            n += 1;
        }
    }
    n
}

// One byte more of a number of at most six digits.
fn next(cp: u32, b: u8) -> u32
    ensures { result ≤ 0xFFFFFF }
{
    if 0xFFFFF < cp {
        return 0xFFFFFF;
    }
    match digit(b) {
        Some(d) => cp * 16 + u32::from(d),
        None => cp,
    }
}

// The number that the digits of a line spell.
fn code_point(line: &[u8]) -> u32
    ensures { result ≤ 0xFFFFFF }
{
    let mut cp: u32 = 0;
    for b in line {
        cp = next(cp, *b);
    }
    cp
}

// Bytes in hexadecimal, between angle brackets.
fn write_bytes(rt: &impl Print, s: &[u8]) -> io::Result<()> {
    rt.write_all(b"<")?;
    for (i, b) in s.iter().enumerate() {
        if 0 < i {
            rt.write_all(b" ")?;
        }
        print!(rt; "{b:02x}")?;
    }
    rt.write_all(b">")
}

fn check_utf8(rt: &impl Print, s: &[u8]) -> io::Result<()> {
    match text::utf8_check(s) {
        None => rt.write_all(b"well formed"),
        Some(at) => print!(rt; "ill-formed at {at}"),
    }
}

fn blank(rt: &impl Print, cp: u32) -> io::Result<()> {
    if text::is_blank(cp) {
        rt.write_all(b"blank")
    } else {
        rt.write_all(b"not blank")
    }
}

fn decode(rt: &impl Print, s: &[u8]) -> io::Result<()> {
    let Decoded { cp, width } = text::decode_at(s, 0);
    print!(rt; "{cp:04x} of width {width}")
}

fn words(rt: &impl Print, s: &[u8]) -> io::Result<()> {
    rt.write_all(b"trimmed ")?;
    write_bytes(rt, text::trim(s))?;
    rt.write_all(b", words ")?;
    write_bytes(rt, text::first_word(s))?;
    rt.write_all(b" ")?;
    write_bytes(rt, text::second_word(s))
}

fn number(rt: &impl Print, s: &[u8]) -> io::Result<()> {
    match text::parse(s) {
        Some(n) => rt.print(n),
        None => rt.write_all(b"no number"),
    }
}

// The answer to one line, by its letter.
fn answer(rt: &impl Print, letter: u8, rest: &[u8]) -> io::Result<()> {
    let mut bytes = [0u8; 64];
    let n = bytes_of(rest, &mut bytes);
    match letter {
        b'u' => check_utf8(rt, &bytes[..n]),
        b'd' => decode(rt, &bytes[..n]),
        b'w' => words(rt, &bytes[..n]),
        b'b' => blank(rt, code_point(rest)),
        b'p' => number(rt, rest),
        _ => rt.write_all(b"unknown letter"),
    }
}

fn line(rt: &impl Print, s: &[u8]) -> io::Result<()> {
    rt.write_all(s)?;
    if let [letter, _, rest @ ..] = s
        && *letter != b'#'
    {
        rt.write_all(b" -> ")?;
        answer(rt, *letter, rest)?;
    }
    rt.write_all(b"\n")
}

fn lines(rt: &impl Print, s: &[u8]) -> io::Result<()> {
    for l in s.split_inclusive(|b| *b == b'\n') {
        line(rt, l.strip_suffix(b"\n").unwrap_or(l))?;
    }
    Ok(())
}

// Reads until the list is full, the input ends or a read fails: how many bytes it read. `read_exact` doesn't say how many where the
// input ends, and `read_to_end` needs a heap.
fn read_full(input: &mut impl Read, buf: &mut [u8]) -> usize
    ensures { result ≤ length buf.new }
{
    let mut done: usize = 0;
    // A while: the step is as many bytes as a read gives.
    while done < buf.len() {
        match input.read(&mut buf[done..]) {
            Ok(0) => return done,
            Ok(more) => done += more,
            Err(_) => return done,
        }
    }
    done
}

fn main(rt: HostRuntime) -> io::Result<()> {
    let mut buf = [0u8; 65536];
    let n = read_full(&mut rt.stdin(), &mut buf);
    lines(&rt, &buf[..n])
}
