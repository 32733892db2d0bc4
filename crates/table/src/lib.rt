// The marker table: its layout, its entries, and what is looked up in it.
#![tactic(auto)]

ghost use Rattle.std.specs.Prelude.{◌≡◌, ◌+◌, ◌^◌, ◌<◌, ◌≤◌, not, length, drop, take};
ghost use Rattle.std.specs.Prelude.{Some};
ghost use Rattle.text.specs.Pick;
ghost use Rattle.text.specs.Pick.{cut};
ghost use Rattle.text.specs.Characters.{find_byte};
ghost use Rattle.table.specs.Lines.{name_byte, categories, roles, bad_table};
ghost use Rattle.table.specs.Entries;
ghost use Rattle.table.specs.Entries.{nth, info_of, entry_of_info, category_of, role_of};
ghost use Rattle.table.specs.Names.{undigited, stripped_length, tail_off, entry_named, looked_up, found_of, default_name, attribute_name, front_matter, note_only, glued_digit};
ghost use Rattle.table.specs.Books.{code_from, book_of, id_of};
ghost use Rattle.table.specs.Inner.{lines_of, triples, name_length, step_by, step_with, behind_key, step_of, head_of, further, past_of, LinesRead, attribute_at, category_at, role_at, stripped, unglued, Indexed, leaves, name_in, bucket_of, Cleared, Chained};
ghost use Rattle.text.specs.Bytes.{one_of, starting};
ghost use Rattle.refusals.specs.Refusal.{at_place, bad_table_layout};
ghost use Rattle.refusals.specs.Reasons.{refusal_in};

use refusals::{Reason, Refusal};

// A place in the marker table.
#[derive(Clone, Copy)]
pub struct MarkerId(pub u16);

// A place in the book list.
#[derive(Clone, Copy)]
pub struct BookId(pub u8);

#[derive(Clone, Copy)]
pub enum Category {
    Identification,
    Chapter,
    Verse,
    Paragraph,
    Character,
    Note,
    Milestone,
    Other,
}

#[derive(Clone, Copy)]
pub enum TextRole {
    Content,
    Excluded,
    Boundary,
}

// Categories and roles by number, in the order of document 01's lists.
pub const IDENTIFICATION: u64 = 0;

pub const CHAPTER: u64 = 1;

pub const VERSE: u64 = 2;

pub const PARAGRAPH: u64 = 3;

pub const CHARACTER: u64 = 4;

pub const NOTE: u64 = 5;

pub const MILESTONE: u64 = 6;

pub const OTHER: u64 = 7;

pub const CONTENT: u64 = 0;

pub const EXCLUDED: u64 = 1;

pub const BOUNDARY: u64 = 2;

// An entry: where its name stands in the table's text, and its other two lines.
#[derive(Clone, Copy)]
pub struct MarkerInfo {
    pub name_start: usize,
    pub name_len: usize,
    pub category: Category,
    pub text_role: TextRole,
}

// The attribute that a marker's bare value sets.
#[derive(Clone, Copy)]
pub enum DefaultAttribute {
    Lemma,
    Gloss,
    Href,
    Loc,
    LinkHref,
    Id,
    Who,
}

const BOOK_CODES: [u8; 348] =
    *b"GENEXOLEVNUMDEUJOSJDGRUT1SA2SA1KI2KI1CH2CHEZRNEHESTJOBPSAPROECCSNGISAJERLAMEZK\
    DANHOSJOLAMOOBAJONMICNAMHABZEPHAGZECMALMATMRKLUKJHNACTROM1CO2COGALEPHPHPCOL1TH\
    2TH1TI2TITITPHMHEBJAS1PE2PE1JN2JN3JNJUDREVTOBJDTESGWISSIRBARLJES3YSUSBEL1MA2MA\
    3MA4MA1ES2ESMANPS2ODAPSSEZA5EZ6EZDAGPS32BALBAJUBENO1MQ2MQ3MQREP4BALAOFRTBAKOTH\
    INTCNCGLOTDXNDXXXAXXBXXCXXDXXEXXFXXG";

// What `head` gives of the words that have eight bytes or more with byte 10 behind them.
const IDENTIFI_WORD: u64 = 7594873770396181609;

const CHAPTER_WORD: u64 = 752775638500337763;

const PARAGRAP_WORD: u64 = 8097879393330946416;

const CHARACTE_WORD: u64 = 7310577365311121507;

const MILESTON_WORD: u64 = 7957707105558620525;

const CONTENT_WORD: u64 = 753348419701862243;

const EXCLUDED_WORD: u64 = 7234298831932979301;

const BOUNDARY_WORD: u64 = 8751164109912108898;

// The position in a list of codes, each of three bytes.
fn code_in(codes: &[u8], s: &[u8]) -> Option<usize>
    ensures { result ≡ code_from 0 (triples codes.now) s.now }
{
    codes.chunks_exact(3).position(|code| text::equal(code, s))
}

// The position in a list of words, each ended by byte 10.
fn word_in(words: &[u8], s: &[u8]) -> Option<usize>
    ensures { result ≡ code_from 0 (lines_of words.now) s.now }
{
    let mut at: usize = 0;
    let mut k: usize = 0;
    // A while: the step is the word's length. `split` gives one empty word more, behind the last byte 10.
    while at < words.len() {
        let rest = &words[at..];
        let n = text::find_byte(rest, 10);
        if text::equal(&rest[..n], s) {
            return Some(k);
        }
        at = at + n + 1;
        k += 1;
    }
    None
}

impl BookId {
    // The book that a code stands for.
    pub fn from_code(code: &[u8]) -> Option<BookId>
        ensures { id_of result ≡ book_of code.now }
    {
        let k = code_in(&BOOK_CODES, code)?;
        Some(BookId(k as u8))
    }
}

pub fn is_front_matter_code(code: &[u8]) -> bool
    ensures { result ≡ one_of front_matter code.now }
{
    code_in(b"FRTINTBAKOTHCNCGLOTDXNDX", code).is_some()
}

pub fn is_note_only_marker(name: &[u8]) -> bool
    ensures { result ≡ one_of note_only name.now }
{
    // All of them begin with one of two letters, and few other names do.
    matches!(name, [b'f' | b'x', ..])
        && word_in(
            b"fr\nft\nfk\nfq\nfqa\nfl\nfw\nfp\nfv\nfdc\nxop\nxot\nxnt\nxdc\n",
            name,
        )
        .is_some()
}

fn attribute(p: usize) -> DefaultAttribute
    ensures { result ≡ attribute_at p }
{
    match p {
        0..=3 => DefaultAttribute::Lemma,
        4 => DefaultAttribute::Gloss,
        5 => DefaultAttribute::Href,
        6 => DefaultAttribute::Loc,
        7 => DefaultAttribute::LinkHref,
        _ => DefaultAttribute::Id,
    }
}

pub fn default_attribute(name: &[u8]) -> Option<DefaultAttribute>
    ensures { attribute_name result ≡ default_name name.now }
{
    match word_in(b"w\nwa\nwg\nwh\nrb\nxt\nref\njmp\nperiph\n", name) {
        Some(p) => Some(attribute(p)),
        None => if text::starts_with(name, b"qt") {
            Some(DefaultAttribute::Who)
        } else {
            None
        },
    }
}

// How many of the first bytes are left when the digits at their end are taken off.
fn undigited_len(s: &[u8], end: usize) -> usize
    requires { end ≤ length s.now }
    ensures { result ≡ undigited (take end s.now) }
{
    for i in (0..end).rev() {
        if !s[i].is_ascii_digit() {
            return i + 1;
        }
    }
    0
}

fn tail_off(s: &[u8]) -> usize
    ensures { result ≡ tail_off s.now }
{
    let n = s.len();
    let i = undigited_len(s, n);
    if i < n && 0 < i && s[i - 1] == b'-' {
        i - 1
    } else {
        n
    }
}

// The name without the level or the columns at its end.
#[tactic(auto, unfolding(crate::specs::Names::stripped_length))]
pub fn strip_level_suffix(name: &[u8]) -> &[u8]
    ensures { result.now ≡ take (stripped_length name.now) name.now }
{
    let end = tail_off(name);
    let base = undigited_len(name, end);
    if 0 < base && base < end {
        &name[..base]
    } else {
        name
    }
}

fn is_name_byte(b: u8) -> bool
    ensures { result ≡ name_byte b }
{
    matches!(b, b'A'..=b'Z' | b'a'..=b'z' | b'0'..=b'9' | b'-')
}

// The number of name bytes at the start.
fn name_len(s: &[u8]) -> usize
    ensures { result ≡ find_byte (λ b. not (name_byte b)) s.now }
{
    s.iter().position(|b| !is_name_byte(*b)).unwrap_or(s.len())
}

// The first eight bytes as a number, the first the lowest, or 0 where there are fewer.
fn head(s: &[u8]) -> u64
    ensures { result ≡ head_of s.now }
{
    if s.len() < 8 {
        0
    } else {
        text::eight_bytes(s, 0)
    }
}

// What a line says whose first eight bytes are a word's, if the word's other bytes stand behind them.
fn tail_step(s: &[u8], tail: &[u8], value: usize, next: usize) -> Option<(usize, usize)>
    requires { 8 ≤ length s.now }
    ensures { result ≡ step_by (starting tail.now (drop 8 s.now)) (Some value) next }
{
    text::starts_with(&s[8..], tail).then_some((value, next))
}

// What a name's line says, from behind its key on. No name byte is byte 10, so that the search for the end of the name finds the end of the line.
fn name_step(s: &[u8]) -> Option<(usize, usize)>
    ensures { result ≡ step_with name_length 5 s.now }
{
    let n = name_len(s);
    if n == s.len() {
        return None;
    }
    if s[n] != 10 {
        return None;
    }
    match n {
        1..=16 => Some((n, n + 6)),
        _ => None,
    }
}

// The same of a category's. The second number counts the key, the word and byte 10.
// Compared with byte 10 behind it, a word needs no search for the end of the line. The first eight bytes, as one number, distinguish most words.
fn category_step(s: &[u8]) -> Option<(usize, usize)>
    ensures { result ≡ step_with (code_from 0 categories) 9 s.now }
{
    let w = head(s);
    if w == CHARACTE_WORD {
        return tail_step(s, b"r\n", 4, 19);
    }
    if w == PARAGRAP_WORD {
        return tail_step(s, b"h\n", 3, 19);
    }
    if w == MILESTON_WORD {
        return tail_step(s, b"e\n", 6, 19);
    }
    if w == IDENTIFI_WORD {
        return tail_step(s, b"cation\n", 0, 24);
    }
    if w == CHAPTER_WORD {
        return Some((1, 17));
    }
    if text::starts_with(s, b"verse\n") {
        return Some((2, 15));
    }
    if text::starts_with(s, b"note\n") {
        return Some((5, 14));
    }
    if text::starts_with(s, b"other\n") {
        return Some((7, 15));
    }
    None
}

// The same of a role's.
fn role_step(s: &[u8]) -> Option<(usize, usize)>
    ensures { result ≡ step_with (code_from 0 roles) 5 s.now }
{
    let w = head(s);
    if w == CONTENT_WORD {
        return Some((0, 13));
    }
    if w == EXCLUDED_WORD {
        return tail_step(s, b"\n", 1, 14);
    }
    if w == BOUNDARY_WORD {
        return tail_step(s, b"\n", 2, 14);
    }
    None
}

// What follows a key, or nothing where the text does not begin with it, since an empty text has no good line.
fn behind<'a>(s: &'a [u8], key: &[u8]) -> &'a [u8]
    ensures { result.now ≡ behind_key key.now s.now }
{
    if text::starts_with(s, key) {
        let from = key.len();
        return &s[from..];
    }
    &s[..0]
}

// What a line at a place says, its end counted from the start of the table.
fn moved(at: usize, step: Option<(usize, usize)>) -> Option<(usize, usize)>
    requires { at + past_of step < 2 ^ 64 }
    ensures { result ≡ further at step }
{
    let (v, n) = step?;
    Some((v, at + n))
}

// The first line of a marker, at a place of the table. Each line has its own function, so that the compiler knows what it is compared with.
fn name_line(table: &[u8], at: usize) -> Option<(usize, usize)>
    requires { at ≤ length table.now }
    ensures { result ≡ step_of 0 at (drop at table.now) }
{
    moved(at, name_step(behind(&table[at..], b"name=")))
}

// The second.
fn category_line(table: &[u8], at: usize) -> Option<(usize, usize)>
    requires { at ≤ length table.now }
    ensures { result ≡ step_of 1 at (drop at table.now) }
{
    moved(at, category_step(behind(&table[at..], b"category=")))
}

// The third.
fn role_line(table: &[u8], at: usize) -> Option<(usize, usize)>
    requires { at ≤ length table.now }
    ensures { result ≡ step_of 2 at (drop at table.now) }
{
    moved(at, role_step(behind(&table[at..], b"role=")))
}

// A text that ends within a marker has its next line at its end, where no byte 10 follows.
// The place is low enough that the start of the name takes 16 bits of the word.
fn marker_at(table: &[u8], at: usize) -> Result<(u64, usize), Refusal>
    requires { (at < length table.now) × (at < 65000) }
    ensures { LinesRead table.now at result }
{
    let reason = Reason::BadTableLayout;
    let (len, second) = name_line(table, at).ok_or(reason.at(at))?;
    let (category, third) = category_line(table, second).ok_or(reason.at(second))?;
    let (role, next) = role_line(table, third).ok_or(reason.at(third))?;
    let start = (at + 5) as u64;
    Ok((
        start + 65536 * (len as u64 + 32 * (category as u64 + 8 * role as u64)),
        next,
    ))
}

// Number 1: checks the layout of a table and writes its entries to the index, a word each. Gives how many entries it has.
pub fn index(table: &[u8], index: &mut [u64]) -> Result<usize, Refusal>
    requires { 512 ≤ length index.old }
    ensures refusal { refusal_in result ≡ at_place bad_table_layout (bad_table table.now) }
    ensures entries { leaves table.now index.new result }
{
    let mut at: usize = 0;
    let mut k: usize = 0;
    // A while: the step is the length of three lines.
    while at < table.len() {
        if k == 512 {
            return Err(Reason::BadTableLayout.at(at));
        }
        let (word, next) = marker_at(table, at)?;
        index[k] = word;
        k += 1;
        at = next;
    }
    Ok(k)
}

fn category_of(n: u64) -> Category
    ensures { result ≡ category_at n }
{
    match n {
        IDENTIFICATION => Category::Identification,
        CHAPTER => Category::Chapter,
        VERSE => Category::Verse,
        PARAGRAPH => Category::Paragraph,
        CHARACTER => Category::Character,
        NOTE => Category::Note,
        MILESTONE => Category::Milestone,
        _ => Category::Other,
    }
}

fn role_of(n: u64) -> TextRole
    ensures { result ≡ role_at n }
{
    match n {
        CONTENT => TextRole::Content,
        EXCLUDED => TextRole::Excluded,
        _ => TextRole::Boundary,
    }
}

pub fn category_number(c: Category) -> u64
    ensures { result ≡ category_of c }
{
    match c {
        Category::Identification => IDENTIFICATION,
        Category::Chapter => CHAPTER,
        Category::Verse => VERSE,
        Category::Paragraph => PARAGRAPH,
        Category::Character => CHARACTER,
        Category::Note => NOTE,
        Category::Milestone => MILESTONE,
        Category::Other => OTHER,
    }
}

pub fn role_number(r: TextRole) -> u64
    ensures { result ≡ role_of r }
{
    match r {
        TextRole::Content => CONTENT,
        TextRole::Excluded => EXCLUDED,
        TextRole::Boundary => BOUNDARY,
    }
}

// The name of an entry.
pub fn name<'a>(table: &'a [u8], m: MarkerInfo) -> &'a [u8]
    requires { m.name_start + m.name_len ≤ length table.now }
    ensures { result.now ≡ cut (entry_of_info m).name table.now }
{
    let start = m.name_start;
    let end = start + m.name_len;
    &table[start..end]
}

// The name in an entry's word.
fn name_in<'a>(table: &'a [u8], word: u64) -> &'a [u8]
    requires { Pick.end (name_in word) ≤ length table.now }
    ensures { result.now ≡ cut (name_in word) table.now }
{
    let start = (word % 65536) as usize;
    let end = start + (word / 65536 % 32) as usize;
    &table[start..end]
}

// The bucket of a name, below 256. Of the markers of USFM 3.1 at most three share one.
fn bucket_of(name: &[u8]) -> usize
    ensures { result ≡ bucket_of name.now }
{
    let n = name.len();
    if n == 0 {
        return 0;
    }
    let first = name[0] as usize;
    let middle = name[n / 2] as usize;
    let last = name[n - 1] as usize;
    (5 * first + middle + 8 * last) % 256
}

fn clear_heads(chains: &mut [u16])
    requires { 256 ≤ length chains.old }
    ensures { Cleared 256 chains.new }
{
    chains[..256].fill(0);
}

// Links the entries whose names share a bucket, so that a name is compared with few others: 256 numbers for the first entry of
// each bucket, then one for each entry, for the next of its bucket. A number is one more than the entry's, 0 for none.
// From the last entry to the first, so that of equal names the first is met first.
pub fn link_names(table: &[u8], index: &[u64], entries: usize, chains: &mut [u16])
    requires { Indexed table.now index.now entries × (768 ≤ length chains.old) }
    ensures { Chained table.now chains.new }
{
    clear_heads(chains);
    for k in (0..entries).rev() {
        let h = bucket_of(name_in(table, index[k]));
        chains[256 + k] = chains[h];
        chains[h] = (k + 1) as u16;
    }
}

// The first entry of that name, found among those of the name's bucket alone.
fn find_name(
    table: &[u8],
    index: &[u64],
    entries: usize,
    chains: &[u16],
    name: &[u8],
) -> Option<MarkerId>
    requires { Indexed table.now index.now entries × Chained table.now chains.now }
    ensures { found_of result ≡ entry_named table.now name.now }
{
    let mut link = chains[bucket_of(name)] as usize;
    // A while: it goes from entry to entry by the numbers of the chain.
    while 0 < link {
        let k = link - 1;
        if text::equal(name_in(table, index[k]), name) {
            return Some(MarkerId(k as u16));
        }
        link = chains[256 + k] as usize;
    }
    None
}

fn find_stripped(
    table: &[u8],
    index: &[u64],
    entries: usize,
    chains: &[u16],
    name: &[u8],
) -> Option<MarkerId>
    requires { Indexed table.now index.now entries × Chained table.now chains.now }
    ensures { found_of result ≡ stripped table.now name.now }
{
    let base = strip_level_suffix(name);
    if base.len() < name.len() {
        find_name(table, index, entries, chains, base)
    } else {
        None
    }
}

fn is_glued(s: &[u8]) -> bool
    ensures { result ≡ glued_digit s.now }
{
    matches!(s, [b'v' | b'c', b'0'..=b'9', ..])
}

fn find_glued(
    table: &[u8],
    index: &[u64],
    entries: usize,
    chains: &[u16],
    name: &[u8],
) -> Option<MarkerId>
    requires { Indexed table.now index.now entries × Chained table.now chains.now }
    ensures { found_of result ≡ unglued table.now name.now }
{
    if is_glued(name) {
        find_name(table, index, entries, chains, &name[..1])
    } else {
        None
    }
}

// Functions of a type, since the names of free functions may not be those of the enums in lower case.
impl MarkerId {
    // What a marker number stands for.
    pub fn info(table: &[u8], index: &[u64], entries: usize, id: MarkerId) -> Option<MarkerInfo>
        requires { Indexed table.now index.now entries }
        ensures { info_of result ≡ nth (Entries.entries table.now) id.0 }
    {
        let k = id.0 as usize;
        if entries <= k {
            return None;
        }
        let w = index[k];
        let category = category_of(w / 2097152 % 8);
        let text_role = role_of(w / 16777216);
        Some(MarkerInfo {
            name_start: (w % 65536) as usize,
            name_len: (w / 65536 % 32) as usize,
            category,
            text_role,
        })
    }

    // The number of the marker that a name stands for.
    pub fn lookup(
        table: &[u8],
        index: &[u64],
        entries: usize,
        chains: &[u16],
        name: &[u8],
    ) -> Option<MarkerId>
        requires { Indexed table.now index.now entries × Chained table.now chains.now }
        ensures { found_of result ≡ looked_up table.now name.now }
    {
        if let Some(id) = find_name(table, index, entries, chains, name) {
            return Some(id);
        }
        if let Some(id) = find_stripped(table, index, entries, chains, name) {
            return Some(id);
        }
        find_glued(table, index, entries, chains, name)
    }
}
