// Bytes as text: UTF-8, blanks, words and numbers.
#![tactic(auto)]

ghost use Rattle.std.specs.Prelude.{◌≡◌, ℕ, ◌+◌, ◌-◌, ◌*◌, ◌%◌, ◌<◌, ◌≤◌, Bool, true, not, Some, None, ◌∷◌, [], eqb, length, drop, get_or, take};
ghost use Rattle.text.specs.Pick.{range, within, same, cut, pick};
ghost use Rattle.text.specs.Bytes;
ghost use Rattle.text.specs.Bytes.{starting, capital};
ghost use Rattle.text.specs.Utf8.{begins, width_of, first_ill_formed, replacement, decode};
ghost use Rattle.text.specs.Blank.{blank};
ghost use Rattle.text.specs.Characters.{chars, bytes_before, find, find_byte, is_boundary};
ghost use Rattle.text.specs.Words.{not_blank, blank_text, trim_start, trim, kept, first_word, second_word};
ghost use Rattle.text.specs.Number.{digit, digits, parsed};
ghost use Rattle.text.specs.Inner.{Ascii, eight_bytes, four_bytes, High, Ended, Led, Passed, IsOfByte, IsStep, blank_is};

// A code point, and how many bytes it takes.
#[derive(Clone, Copy)]
pub struct Decoded {
    pub cp: u32,
    pub width: usize,
}

// Whether a byte lies between two others, both included.
pub fn holds(b: u8, lo: u8, hi: u8) -> bool
    ensures { result ≡ within lo hi b }
{
    lo <= b && b <= hi
}

// Table 3-7 of the Unicode Standard, "Well-Formed UTF-8 Byte Sequences": its nine rows stand here once each, in the table's order,
// each with the ranges of all its bytes. As one `match` of slice patterns the rows leave the prover 82 goals.
//
// Row 1, then the rows of two, three and four bytes: how long the well-formed sequence is that begins at a place, or 0.
fn width_at(s: &[u8], at: usize) -> usize
    requires { at < length s.now }
    ensures { result ≡ width_of (drop at s.now) }
{
    let b = s[at];
    if b < 0x80 {
        return 1;
    }
    if b < 0xE0 {
        return if two_at(s, at) { 2 } else { 0 };
    }
    if b < 0xF0 {
        return if three_at(s, at) { 3 } else { 0 };
    }
    if four_at(s, at) { 4 } else { 0 }
}

// Row 2: whether the first byte, from 80 to DF, begins a sequence of two bytes; one of no other length.
pub fn two_at(s: &[u8], at: usize) -> bool
    requires { Led s.now at 0x80 0xDF }
    ensures { width_of (drop at s.now) ≡ pick result 2 0 }
{
    if !holds(s[at], 0xC2, 0xDF) {
        return false;
    }
    1 < s.len() - at && holds(s[at + 1], 0x80, 0xBF)
}

// Rows 3 to 6: whether the bytes are a sequence of three.
fn rows_of_three(first: u8, second: u8, third: u8) -> bool
    ensures { result ≡ eqb (width_of (first ∷ second ∷ third ∷ [])) 3 }
{
    match first {
        0xE0 => holds(second, 0xA0, 0xBF) && holds(third, 0x80, 0xBF),
        0xE1..=0xEC => holds(second, 0x80, 0xBF) && holds(third, 0x80, 0xBF),
        0xED => holds(second, 0x80, 0x9F) && holds(third, 0x80, 0xBF),
        0xEE..=0xEF => holds(second, 0x80, 0xBF) && holds(third, 0x80, 0xBF),
        _ => false,
    }
}

// Rows 7 to 9: whether the bytes are a sequence of four.
fn rows_of_four(first: u8, second: u8, third: u8, fourth: u8) -> bool
    ensures { result ≡ eqb (width_of (first ∷ second ∷ third ∷ fourth ∷ [])) 4 }
{
    match first {
        0xF0 => holds(second, 0x90, 0xBF) && holds(third, 0x80, 0xBF) && holds(fourth, 0x80, 0xBF),
        0xF1..=0xF3 => holds(second, 0x80, 0xBF)
            && holds(third, 0x80, 0xBF)
            && holds(fourth, 0x80, 0xBF),
        0xF4 => holds(second, 0x80, 0x8F) && holds(third, 0x80, 0xBF) && holds(fourth, 0x80, 0xBF),
        _ => false,
    }
}

// Whether the first byte, from E0 to EF, begins a sequence of three bytes; one of no other length.
pub fn three_at(s: &[u8], at: usize) -> bool
    requires { Led s.now at 0xE0 0xEF }
    ensures { width_of (drop at s.now) ≡ pick result 3 0 }
{
    2 < s.len() - at && rows_of_three(s[at], s[at + 1], s[at + 2])
}

// Whether the first byte, from F0 on, begins a sequence of four bytes; one of no other length.
fn four_at(s: &[u8], at: usize) -> bool
    requires { Led s.now at 0xF0 0xFF }
    ensures { width_of (drop at s.now) ≡ pick result 4 0 }
{
    3 < s.len() - at && rows_of_four(s[at], s[at + 1], s[at + 2], s[at + 3])
}

// Four bytes, the first the lowest. The number is one load.
fn four_bytes(s: &[u8], at: usize) -> u32
    requires { at + 4 ≤ length s.now }
    ensures { result ≡ four_bytes s.now at }
{
    u32::from_le_bytes([s[at], s[at + 1], s[at + 2], s[at + 3]])
}

// Eight bytes, the first the lowest. The sum is one load.
pub fn eight_bytes(s: &[u8], at: usize) -> u64
    requires { at + 8 ≤ length s.now }
    ensures { result ≡ eight_bytes s.now at }
{
    u64::from_le_bytes([
        s[at],
        s[at + 1],
        s[at + 2],
        s[at + 3],
        s[at + 4],
        s[at + 5],
        s[at + 6],
        s[at + 7],
    ])
}

// The highest bits of 8 bytes, which are 0 where these are ASCII.
fn high8(s: &[u8], at: usize) -> u64
    requires { at + 8 ≤ length s.now }
    ensures { High s.now at result }
{
    eight_bytes(s, at) & 0x8080808080808080
}

// The highest bits of 16 bytes.
fn high16(s: &[u8], at: usize) -> u64
    requires { at + 16 ≤ length s.now }
    ensures { result ≡ 0 → Ascii s.now at (at + 16) }
{
    high8(s, at) | high8(s, at + 8)
}

// How many of 8 bytes the run of ASCII at a place takes. The lowest bit that is set shows it without a jump, which a processor
// would often predict wrongly in a text with few bytes above ASCII.
fn ascii_of_8(s: &[u8], at: usize) -> usize
    requires { at + 8 ≤ length s.now }
    ensures { (result ≤ 8) × Ascii s.now at (at + result) }
{
    (u64::trailing_zeros(high8(s, at)) / 8) as usize
}

// The same of 16.
fn ascii_of_16(s: &[u8], at: usize) -> usize
    requires { at + 16 ≤ length s.now }
    ensures { (result ≤ 16) × Ascii s.now at (at + result) }
{
    let n = ascii_of_8(s, at);
    if n < 8 {
        return n;
    }
    8 + ascii_of_8(s, at + 8)
}

// Where a run of ASCII ends that starts at a place.
fn ascii_end(s: &[u8], from: usize) -> usize
    requires { from ≤ length s.now }
    ensures { (from ≤ result) × (result ≤ length s.now) × Ascii s.now from result }
{
    let n = s.len();
    let mut i = from;
    // A while: it goes on by sixteen bytes.
    while 16 <= n - i {
        if high16(s, i) != 0 {
            return i + ascii_of_16(s, i);
        }
        i += 16;
    }
    ascii_rest(s, i)
}

// The same byte by byte.
fn ascii_rest(s: &[u8], from: usize) -> usize
    requires { from ≤ length s.now }
    ensures { (from ≤ result) × (result ≤ length s.now) × Ascii s.now from result }
{
    for i in from..s.len() {
        if !s[i].is_ascii() {
            return i;
        }
    }
    s.len()
}

// How many bytes a scan passes at a place, or 0 at an ill-formed sequence: a run of ASCII where there may be one, for speed, else
// what a row of the table gives. In text of another script an ASCII byte seldom has an ASCII byte three places on.
fn passed(s: &[u8], at: usize) -> usize
    requires { at < length s.now }
    ensures { Passed s.now at result }
{
    if s[at] < 0x80 && 3 < s.len() - at && s[at + 3] < 0x80 {
        return ascii_end(s, at + 1) - at;
    }
    width_at(s, at)
}

// The place of the first ill-formed sequence, if there is one.
pub fn utf8_check(s: &[u8]) -> Option<usize>
    ensures { result ≡ first_ill_formed s.now }
{
    let n = s.len();
    let mut i: usize = 0;
    // A while: it goes on by what is passed.
    while i < n {
        let w = passed(s, i);
        if w == 0 {
            return Some(i);
        }
        i += w;
    }
    None
}

// U+FFFD in the place of a byte that begins no well-formed sequence.
const REPLACED: Decoded = Decoded {
    cp: 0xFFFD,
    width: 1,
};

// The code point of the three bytes at a place.
fn of_three(s: &[u8], at: usize) -> u32
    requires { at + 3 ≤ length s.now }
    ensures { result ≡ get_or s.now at 0 % 16 * 4096 + get_or s.now (at + 1) 0 % 64 * 64 + get_or s.now (at + 2) 0 % 64 }
{
    let b1 = (s[at + 1] % 64) as u32;
    let b2 = (s[at + 2] % 64) as u32;
    (s[at] % 16) as u32 * 4096 + b1 * 64 + b2
}

// The code point of a sequence that begins with a byte above ASCII.
fn decode_wide(s: &[u8], at: usize) -> Decoded
    requires { Led s.now at 0x80 0xFF }
    ensures { result ≡ decode (drop at s.now) }
{
    let b = s[at];
    if b < 0xE0 {
        if !two_at(s, at) {
            return REPLACED;
        }
        let b1 = (s[at + 1] % 64) as u32;
        return Decoded {
            cp: (b % 32) as u32 * 64 + b1,
            width: 2,
        };
    }
    if b < 0xF0 {
        if !three_at(s, at) {
            return REPLACED;
        }
        return Decoded {
            cp: of_three(s, at),
            width: 3,
        };
    }
    decode_four(s, at)
}

// The same from F0 on.
fn decode_four(s: &[u8], at: usize) -> Decoded
    requires { Led s.now at 0xF0 0xFF }
    ensures { result ≡ decode (drop at s.now) }
{
    if !four_at(s, at) {
        return REPLACED;
    }
    let b = s[at];
    let b1 = (s[at + 1] % 64) as u32;
    let b2 = (s[at + 2] % 64) as u32;
    let b3 = (s[at + 3] % 64) as u32;
    Decoded {
        cp: (b % 8) as u32 * 262144 + b1 * 4096 + b2 * 64 + b3,
        width: 4,
    }
}

// The code point at a place, with its width. A byte that begins no well-formed sequence counts as U+FFFD, and past the end the width is 0.
pub fn decode_at(s: &[u8], at: usize) -> Decoded
    ensures { result ≡ decode (drop at s.now) }
{
    if at < s.len() {
        decode_in(s, at)
    } else {
        Decoded {
            cp: 0xFFFD,
            width: 0,
        }
    }
}

// The same at a byte of the text. It stays small enough to become part of a loop, since `decode_wide` is a function of its own.
fn decode_in(s: &[u8], at: usize) -> Decoded
    requires { at < length s.now }
    ensures { result ≡ decode (drop at s.now) }
{
    let b = s[at];
    if b < 0x80 {
        return Decoded {
            cp: b as u32,
            width: 1,
        };
    }
    decode_wide(s, at)
}

// The same for searches. The blanks of three bytes begin with E1 to E3: a sequence that begins so can be of row 4 alone, and is
// decoded here.
fn decode_near(s: &[u8], at: usize) -> Decoded
    requires { at < length s.now }
    ensures { result ≡ decode (drop at s.now) }
{
    match s[at] {
        0xE1..=0xE3 if three_at(s, at) => Decoded {
            cp: of_three(s, at),
            width: 3,
        },
        _ => decode_in(s, at),
    }
}

// Whether a place of well-formed text lies between two characters, or at either end.
pub fn is_char_boundary(s: &[u8], at: usize) -> bool
    ensures { result ≡ is_boundary s.now at }
{
    match s.get(at) {
        Some(b) => *b < 0x80 || at == 0 || 0xBF < *b,
        None => at == s.len(),
    }
}

// The property White_Space, by its ranges.
#[tactic(auto, unfolding(crate::specs::Blank::blank, crate::specs::Blank::blank_ranges, crate::specs::Pick::in_any))]
pub fn is_blank(cp: u32) -> bool
    ensures { result ≡ blank cp }
{
    matches!(
        cp,
        0x09..=0x0D
            | 0x20
            | 0x85
            | 0xA0
            | 0x1680
            | 0x2000..=0x200A
            | 0x2028
            | 0x2029
            | 0x202F
            | 0x205F
            | 0x3000
    )
}

// A test of characters by their code points.
pub trait CharTest {
    ghost test: { ℕ → Bool };

    fn passes(cp: u32) -> bool
        ensures { result ≡ test cp };
}

// What a search for the first character that passes knows without decoding.
pub trait CharSearch: CharTest {
    // Whether an ASCII byte passes, or None where that isn't known of the byte alone, and of each byte above ASCII.
    fn of_byte(b: u8) -> Option<bool>
        ensures { IsOfByte Self.test b result };

    // How many bytes no character that passes begins among, or None where one passes at the place itself.
    fn step(s: &[u8], at: usize) -> Option<usize>
        requires { at < length s.now }
        ensures { IsStep Self.test s.now at result }
    {
        decoded_step::<Self>(s, at)
    }
}

// The step that decodes the character at the place.
pub fn decoded_step<T: CharTest>(s: &[u8], at: usize) -> Option<usize>
    requires { at < length s.now }
    ensures { IsStep T.test s.now at result }
{
    let d = decode_near(s, at);
    if T::passes(d.cp) { None } else { Some(d.width) }
}

// The place of the first character that passes, from a place on, or the length. Most bytes are ASCII, and known without a step: this
// part stays small enough to become part of its callers.
pub fn find_where<T: CharSearch>(s: &[u8], from: usize) -> usize
    requires { from ≤ length s.now }
    ensures { Ended s.now from (find T.test (drop from s.now)) result }
{
    for i in from..s.len() {
        match T::of_byte(s[i]) {
            Some(false) => {}
            _ => return stop_at::<T>(s, i),
        }
    }
    s.len()
}

// The same where the byte at the place passes or needs a step.
fn stop_at<T: CharSearch>(s: &[u8], at: usize) -> usize
    requires { at < length s.now }
    ensures { Ended s.now at (find T.test (drop at s.now)) result }
{
    match T::of_byte(s[at]) {
        Some(true) => at,
        _ => search_where::<T>(s, at),
    }
}

// The same by steps.
#[inline(never)]
fn search_where<T: CharSearch>(s: &[u8], from: usize) -> usize
    requires { from ≤ length s.now }
    ensures { Ended s.now from (find T.test (drop from s.now)) result }
{
    let mut i = from;
    // A while: a step takes as many bytes as the test says.
    while i < s.len() {
        match T::step(s, i) {
            Some(n) => i += n,
            None => return i,
        }
    }
    i
}

struct IsBlank;

impl CharTest for IsBlank {
    ghost test = { blank };

    fn passes(cp: u32) -> bool {
        is_blank(cp)
    }
}

// Most bytes are above the space, and most blanks are spaces.
impl CharSearch for IsBlank {
    fn of_byte(b: u8) -> Option<bool> {
        match b {
            0x21..=0x7F => Some(false),
            b' ' => Some(true),
            _ => None,
        }
    }
}

struct IsNotBlank;

impl CharTest for IsNotBlank {
    ghost test = { not_blank };

    fn passes(cp: u32) -> bool {
        !is_blank(cp)
    }
}

impl CharSearch for IsNotBlank {
    fn of_byte(b: u8) -> Option<bool> {
        match b {
            0x21..=0x7F => Some(true),
            b' ' => Some(false),
            _ => None,
        }
    }
}

// The place of the first character, from a place on, that is blank (t is true) or isn't (t is false), or the length.
pub fn find_from(s: &[u8], from: usize, t: bool) -> usize
    requires { from ≤ length s.now }
    ensures { Ended s.now from (find (blank_is t) (drop from s.now)) result }
{
    if t {
        find_where::<IsBlank>(s, from)
    } else {
        find_where::<IsNotBlank>(s, from)
    }
}

// The place of the first byte that equals b, or the length.
pub fn find_byte(s: &[u8], b: u8) -> usize
    ensures { result ≡ find_byte (eqb b) s.now }
{
    s.iter().position(|x| b == *x).unwrap_or(s.len())
}

// The place of the first byte that is no ASCII digit, or the length.
pub fn find_non_digit(s: &[u8]) -> usize
    ensures { result ≡ find_byte (λ b. not (digit b)) s.now }
{
    s.iter()
        .position(|b| !b.is_ascii_digit())
        .unwrap_or(s.len())
}

// The place of the first blank character, or the length.
pub fn find_blank(s: &[u8]) -> usize
    ensures { result ≡ find blank s.now }
{
    find_from(s, 0, true)
}

// How many bytes the text has up to the end of its last character that isn't blank, from the front.
fn kept_forward(s: &[u8]) -> usize
    ensures { Ended s.now 0 (kept (chars s.now)) result }
{
    let mut end: usize = 0;
    let mut i: usize = 0;
    // A while: it goes on by the character's width.
    while i < s.len() {
        let d = decode_in(s, i);
        i += d.width;
        if !is_blank(d.cp) {
            end = i;
        }
    }
    end
}

// The same from the back, as long as the bytes are ASCII: such a byte is a character of its own.
fn kept_len(s: &[u8]) -> usize
    ensures { Ended s.now 0 (kept (chars s.now)) result }
{
    let mut rest = s;
    while let [front @ .., last] = rest {
        if !last.is_ascii() {
            return kept_forward(rest);
        }
        if !is_blank(u32::from(*last)) {
            return rest.len();
        }
        rest = front;
    }
    0
}

// As `str::trim_start`.
pub fn trim_start(s: &[u8]) -> &[u8]
    ensures { result.now ≡ cut (trim_start s.now) s.now }
{
    let a = find_from(s, 0, false);
    &s[a..]
}

// As `str::trim`.
pub fn trim(s: &[u8]) -> &[u8]
    ensures { result.now ≡ cut (trim s.now) s.now }
{
    let a = find_from(s, 0, false);
    let n = kept_len(&s[a..]);
    let e = a + n;
    &s[a..e]
}

// Whether nothing is left of the text when it is trimmed.
pub fn is_blank_text(s: &[u8]) -> bool
    ensures { result ≡ blank_text s.now }
{
    find_from(s, 0, false) == s.len()
}

// The first of `str::split_whitespace`; empty where there is none.
pub fn first_word(s: &[u8]) -> &[u8]
    ensures { result.now ≡ cut (first_word s.now) s.now }
{
    let a = find_from(s, 0, false);
    let e = find_from(s, a, true);
    &s[a..e]
}

// The second of `str::split_whitespace`; empty where there is none.
pub fn second_word(s: &[u8]) -> &[u8]
    ensures { result.now ≡ cut (second_word s.now) s.now }
{
    let a = find_from(s, 0, false);
    let e = find_from(s, a, true);
    let a2 = find_from(s, e, false);
    let e2 = find_from(s, a2, true);
    &s[a2..e2]
}

fn digits(s: &[u8]) -> Option<u32>
    ensures { result ≡ digits s.now }
{
    if s.is_empty() {
        return None;
    }
    let mut n: u32 = 0;
    for b in s {
        if !b.is_ascii_digit() {
            return None;
        }
        n = n.checked_mul(10)?.checked_add(u32::from(*b - b'0'))?;
    }
    Some(n)
}

// As `str::parse::<u32>`.
pub fn parse(s: &[u8]) -> Option<u32>
    ensures { result ≡ parsed s.now }
{
    match s.strip_prefix(b"+") {
        Some(rest) => digits(rest),
        None => digits(s),
    }
}

// Whether eight bytes of two lists are the same.
fn equal_8(a: &[u8], b: &[u8], at: usize) -> bool
    requires { (at + 8 ≤ length a.now) × (at + 8 ≤ length b.now) }
    ensures { result ≡ Bytes.equal (take 8 (drop at a.now)) (take 8 (drop at b.now)) }
{
    eight_bytes(a, at) == eight_bytes(b, at)
}

// Whether four bytes of two lists are the same.
fn equal_4(a: &[u8], b: &[u8], at: usize) -> bool
    requires { (at + 4 ≤ length a.now) × (at + 4 ≤ length b.now) }
    ensures { result ≡ Bytes.equal (take 4 (drop at a.now)) (take 4 (drop at b.now)) }
{
    four_bytes(a, at) == four_bytes(b, at)
}

// Whether two long lists of one length are equal. Their ends are compared first, so that the blocks need no rest. `==` takes 40 to
// 70 % longer at equal lists of 12 bytes.
fn equal_long(a: &[u8], b: &[u8]) -> bool
    requires { (length a.now ≡ length b.now) × (8 ≤ length a.now) }
    ensures { result ≡ Bytes.equal a.now b.now }
{
    let last = a.len() - 8;
    if !equal_8(a, b, last) {
        return false;
    }
    let mut i: usize = 0;
    // A while: it goes on by eight bytes.
    while i < last {
        if !equal_8(a, b, i) {
            return false;
        }
        i += 8;
    }
    true
}

// Whether two lists of one length are equal from a place on, byte by byte. With `==` here, `equal` isn't made part of its callers, and
// takes 45 % longer at lists of 12 bytes.
fn equal_from(a: &[u8], b: &[u8], from: usize) -> bool
    requires { length a.now ≡ length b.now }
    ensures { result ≡ Bytes.equal (drop from a.now) (drop from b.now) }
{
    for i in from..a.len() {
        if a[i] != b[i] {
            return false;
        }
    }
    true
}

// Whether two short lists of one length are equal. Where one is a constant, a block is one comparison with a number, if no two
// blocks overlap.
fn equal_short(a: &[u8], b: &[u8]) -> bool
    requires { length a.now ≡ length b.now }
    ensures { result ≡ Bytes.equal a.now b.now }
{
    if 8 <= a.len() {
        return equal_8(a, b, 0) && equal_from(a, b, 8);
    }
    if 4 <= a.len() {
        return equal_4(a, b, 0) && equal_from(a, b, 4);
    }
    equal_from(a, b, 0)
}

// Whether two lists of bytes are equal.
pub fn equal(a: &[u8], b: &[u8]) -> bool
    ensures { result ≡ Bytes.equal a.now b.now }
{
    if a.len() != b.len() {
        return false;
    }
    if a.len() < 8 {
        return equal_from(a, b, 0);
    }
    equal_long(a, b)
}

// `==` here reads the two ends of a key, so that its blocks overlap.
pub fn starts_with(s: &[u8], key: &[u8]) -> bool
    ensures { result ≡ starting key.now s.now }
{
    key.len() <= s.len() && equal_short(key, &s[..key.len()])
}

// A capital for a small letter of ASCII.
pub fn upper(b: u8) -> u8
    ensures { result ≡ capital b }
{
    b.to_ascii_uppercase()
}
