// Writes bytes over a lent list from a place on, as far as there is room.
#![tactic(auto)]

ghost use Rattle.std.specs.Prelude.{◌≡◌, ◌-◌, ◌≤◌, min, length};
ghost use Rattle.buffer.specs.Over.{Put, place_limit};
ghost use Rattle.buffer.specs.Decimal.{decimal};

// How many of some bytes have room in a list from a place on.
pub fn fitting(bytes: usize, list: usize, at: usize) -> usize
    ensures { result ≡ min bytes (list - at) }
{
    bytes.min(list.saturating_sub(at))
}

// Writes the bytes, and gives the place behind them, whether or not they had room. A loop, since with `copy_from_slice` the archive for
// C needs memmove from outside.
pub fn put(out: &mut [u8], at: usize, s: &[u8]) -> usize
    requires { (at ≤ place_limit) × (length s.now ≤ place_limit) }
    ensures { Put s.now out.old at out.new result }
{
    let n = fitting(s.len(), out.len(), at);
    for i in 0..n {
        out[at + i] = s[i];
    }
    at + s.len()
}

// Writes a number in decimal digits.
pub fn put_decimal(out: &mut [u8], at: usize, n: u64) -> usize
    requires { at ≤ place_limit }
    ensures { Put (decimal n) out.old at out.new result }
{
    let mut digits = [0u8; 20];
    let k = io::decimal(n, &mut digits);
    put(out, at, &digits[..k])
}
