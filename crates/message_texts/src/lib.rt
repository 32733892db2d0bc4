// The texts of findings: writes the text that a code and a form have over a lent list, its values in their places.
#![tactic(auto)]

ghost use Rattle.std.specs.Prelude.{◌≡◌, [], ◌∷◌, ◌++◌, ◌≤◌, length, drop, map, position, All};
ghost use Rattle.std.specs.Prelude.{Some};
ghost use Rattle.buffer.specs.Over.{Put, place_limit};
ghost use Rattle.message_texts.specs.Texts.{number_texts, marker_texts, attribute_texts};
ghost use Rattle.message_texts.specs.Filled.{byte_of, filled, all_texts};
ghost use Rattle.message_texts.specs.Inner.{values, Short, is_value, WrittenAs, WrittenFrom, WrittenOf};
ghost use Rattle.text.specs.Bytes.{upper};

// Writes the bytes with capitals for small letters, and gives the place behind them, whether or not they had room.
fn put_capitals(out: &mut [u8], at: usize, s: &[u8]) -> usize
    requires { (at ≤ place_limit) × (length s.now ≤ place_limit) }
    ensures { Put (upper s.now) out.old at out.new result }
{
    for i in 0..buffer::fitting(s.len(), out.len(), at) {
        out[at + i] = text::upper(s[i]);
    }
    at + s.len()
}

// Writes what a byte of a text stands for: 1, 2 and 3 for the values, 4 for the first in capitals, any other for itself.
fn put_value(n: u8, a: &[u8], b: &[u8], c: &[u8], out: &mut [u8], at: usize) -> usize
    requires { (at ≤ place_limit) × Short a.now b.now c.now }
    ensures { Put (byte_of n (values a.now b.now c.now)) out.old at out.new result }
{
    match n {
        1 => buffer::put(out, at, a),
        2 => buffer::put(out, at, b),
        3 => buffer::put(out, at, c),
        4 => put_capitals(out, at, a),
        _ => {
            let itself = [n; 1];
            buffer::put(out, at, &itself)
        }
    }
}

// Where the first byte is that stands for a value; all from 5 on stand for themselves.
fn first_value(text: &[u8]) -> Option<usize>
    ensures { result ≡ position is_value text.now }
{
    text.iter().position(|b| *b < 5)
}

// Writes a text with its values in their places, and gives its length. A text is mostly bytes that stand for themselves: each run of them is written at once. The bounds keep the sum of the lengths in 64 bits.
fn fill(text: &[u8], a: &[u8], b: &[u8], c: &[u8], out: &mut [u8]) -> usize
    requires { (length text.now ≤ 256) × Short a.now b.now c.now }
    ensures { Put (filled text.now (values a.now b.now c.now)) out.old 0 out.new result }
{
    let mut at = 0;
    let mut rest = text;
    while let Some(n) = first_value(rest) {
        at = buffer::put(out, at, &rest[..n]);
        at = put_value(rest[n], a, b, c, out, at);
        rest = &rest[n + 1..];
    }
    buffer::put(out, at, rest)
}

// Writes a text with its values in their places if it has room, and gives its length. Only where the list may be too short is its length found first, by writing over no list.
fn fill_within(text: &[u8], a: &[u8], b: &[u8], c: &[u8], out: &mut [u8]) -> usize
    requires { (length text.now ≤ 256) × Short a.now b.now c.now }
    ensures { WrittenAs (Some (filled text.now (values a.now b.now c.now))) out.old out.new (Some result) }
{
    if out.len() < text.len() * (1 + a.len() + b.len() + c.len()) {
        let n = fill(text, a, b, c, &mut out[..0]);
        if out.len() < n {
            return n;
        }
    }
    fill(text, a, b, c, out)
}

// The functions from here on write a text if there is one and it has room, and give its length.

// The text of a form among those of a code.
fn write_form(
    texts: &[&[u8]],
    form: u64,
    a: &[u8],
    b: &[u8],
    c: &[u8],
    out: &mut [u8],
) -> Option<usize>
    requires { All (λ t. length t.now ≤ 256) texts.now × Short a.now b.now c.now }
    ensures { WrittenOf (map (λ t. t.now) texts.now) form a.now b.now c.now out.old out.new result }
{
    let text = texts.get(form as usize)?;
    Some(fill_within(text, a, b, c, out))
}

// The texts of each code, in the order of its forms. They are statics, since a text made in an arm is copied to the stack at the start of its function, whatever the code is.

static MISSING_ID_MARKER_TEXTS: [&[u8]; 1] = [
    b"document has chapters/verses but no \\id (book) marker",
];

static INVALID_BOOK_CODE_TEXTS: [&[u8]; 2] = [
    b"book code \"\x01\" should be uppercase: \"\x04\"",
    b"\"\x01\" is not a valid USFM book code",
];

static DUPLICATE_ID_TEXTS: [&[u8]; 1] = [b"more than one \\id marker"];

static TEXT_BEFORE_ID_TEXTS: [&[u8]; 1] = [b"text appears before the \\id marker"];

static MISSING_CHAPTER_MARKER_TEXTS: [&[u8]; 1] = [b"the document has no \\c (chapter) marker"];

static INVALID_CHAPTER_SEQUENCE_TEXTS: [&[u8]; 1] = [b"expected chapter \x01 but found \x02"];

static DUPLICATE_CHAPTER_TEXTS: [&[u8]; 1] = [b"chapter \x01 appears more than once"];

static INVALID_VERSE_SEQUENCE_TEXTS: [&[u8]; 1] = [b"expected verse \x01 but found \x02"];

static VERSE_OUTSIDE_PARAGRAPH_TEXTS: [&[u8]; 1] = [
    b"\\v is not inside a body paragraph (e.g. \\c or \\s directly followed by \\v with no \\p)",
];

static LEADING_ZEROS_TEXTS: [&[u8]; 2] = [
    b"chapter number `\x01` has leading zeros",
    b"verse number `\x01` has leading zeros",
];

static MISSING_CHAPTER_NUMBER_TEXTS: [&[u8]; 1] = [b"\\c is missing its chapter number"];

static MISSING_VERSE_NUMBER_TEXTS: [&[u8]; 1] = [b"\\v is missing its verse number"];

static CHAR_CROSSES_VERSE_BOUNDARY_TEXTS: [&[u8]; 1] = [
    b"a character marker spans a verse boundary (\\v inside a \\char span)",
];

static MISSING_SPACE_BEFORE_NUMBER_TEXTS: [&[u8]; 1] = [
    b"\\\x01 needs a space before its number; read as \\\x02 \x03",
];

static UNREADABLE_VERSE_NUMBER_TEXTS: [&[u8]; 2] = [
    b"verse label \x01 has no number",
    b"verse label \x01 is too large",
];

static NOTE_SUBMARKER_OUTSIDE_NOTE_TEXTS: [&[u8]; 1] = [b"\\\x01 is only valid inside a note"];

static NON_EMPTY_BLANK_LINE_TEXTS: [&[u8]; 1] = [b"\\b (blank line) must not contain content"];

static MILESTONE_MISMATCH_TEXTS: [&[u8]; 2] = [
    b"milestone \\\x01-s has no matching \\\x01-e",
    b"milestone \\\x01-e has no matching \\\x01-s",
];

static EMPTY_FIGURE_TEXTS: [&[u8]; 1] = [b"\\fig has no caption content"];

static MISSING_REQUIRED_ATTRIBUTE_TEXTS: [&[u8]; 1] = [
    b"\\\x01 is missing its required \"gloss\" attribute",
];

static BODY_PARAGRAPH_BEFORE_CHAPTER_TEXTS: [&[u8]; 1] = [
    b"body paragraph \\\x01 appears before any \\c (chapter)",
];

static EMPTY_WORD_MARKER_TEXTS: [&[u8]; 1] = [b"\\w has no text content or attributes"];

static INVALID_TABLE_COLUMN_SEQUENCE_TEXTS: [&[u8]; 1] = [
    b"expected table column \x01 but found column \x02",
];

static MISPLACED_NUMBER_MARKER_TEXTS: [&[u8]; 1] = [
    b"\\\x01 must directly follow its \\\x02 (at most once per \x03); it is kept as character text",
];

static INVALID_ATTRIBUTES_TEXTS: [&[u8]; 4] = [
    b"empty attribute list after `|`",
    b"attribute key without a `=\"value\"`",
    b"attribute has an empty value (e.g. `lemma=\"\"`)",
    b"unterminated quoted attribute value",
];

static UNQUOTED_ATTRIBUTE_VALUE_TEXTS: [&[u8]; 1] = [b"attribute value must be quoted"];

static DEFAULT_ATTRIBUTE_NOT_DEFINED_TEXTS: [&[u8]; 1] = [
    b"\\\x01 has no default attribute; the value after `|` is invalid",
];

// The codes of the document and its book, else those below.
fn document_text(
    code: u64,
    form: u64,
    a: &[u8],
    b: &[u8],
    c: &[u8],
    out: &mut [u8],
) -> Option<usize>
    requires { Short a.now b.now c.now }
    ensures { WrittenFrom all_texts code form a.now b.now c.now out.old out.new result }
{
    match code {
        findings::MISSING_ID_MARKER => write_form(&MISSING_ID_MARKER_TEXTS, form, a, b, c, out),
        findings::INVALID_BOOK_CODE => write_form(&INVALID_BOOK_CODE_TEXTS, form, a, b, c, out),
        findings::DUPLICATE_ID => write_form(&DUPLICATE_ID_TEXTS, form, a, b, c, out),
        findings::TEXT_BEFORE_ID => write_form(&TEXT_BEFORE_ID_TEXTS, form, a, b, c, out),
        findings::MISSING_CHAPTER_MARKER => write_form(
            &MISSING_CHAPTER_MARKER_TEXTS,
            form,
            a,
            b,
            c,
            out,
        ),
        _ => number_text(code, form, a, b, c, out),
    }
}

// Of the codes of chapters and verses the first five, else those below.
fn number_text(code: u64, form: u64, a: &[u8], b: &[u8], c: &[u8], out: &mut [u8]) -> Option<usize>
    requires { Short a.now b.now c.now }
    ensures { WrittenFrom (number_texts ++ marker_texts ++ attribute_texts) code form a.now b.now c.now out.old out.new result }
{
    match code {
        findings::INVALID_CHAPTER_SEQUENCE => write_form(
            &INVALID_CHAPTER_SEQUENCE_TEXTS,
            form,
            a,
            b,
            c,
            out,
        ),
        findings::DUPLICATE_CHAPTER => write_form(&DUPLICATE_CHAPTER_TEXTS, form, a, b, c, out),
        findings::INVALID_VERSE_SEQUENCE => write_form(
            &INVALID_VERSE_SEQUENCE_TEXTS,
            form,
            a,
            b,
            c,
            out,
        ),
        findings::VERSE_OUTSIDE_PARAGRAPH => write_form(
            &VERSE_OUTSIDE_PARAGRAPH_TEXTS,
            form,
            a,
            b,
            c,
            out,
        ),
        findings::LEADING_ZEROS => write_form(&LEADING_ZEROS_TEXTS, form, a, b, c, out),
        _ => more_number_text(code, form, a, b, c, out),
    }
}

// The others of them, else those below.
fn more_number_text(
    code: u64,
    form: u64,
    a: &[u8],
    b: &[u8],
    c: &[u8],
    out: &mut [u8],
) -> Option<usize>
    requires { Short a.now b.now c.now }
    ensures { WrittenFrom (drop 5 number_texts ++ marker_texts ++ attribute_texts) code form a.now b.now c.now out.old out.new result }
{
    match code {
        findings::MISSING_CHAPTER_NUMBER => write_form(
            &MISSING_CHAPTER_NUMBER_TEXTS,
            form,
            a,
            b,
            c,
            out,
        ),
        findings::MISSING_VERSE_NUMBER => write_form(
            &MISSING_VERSE_NUMBER_TEXTS,
            form,
            a,
            b,
            c,
            out,
        ),
        findings::CHAR_CROSSES_VERSE_BOUNDARY => write_form(
            &CHAR_CROSSES_VERSE_BOUNDARY_TEXTS,
            form,
            a,
            b,
            c,
            out,
        ),
        findings::MISSING_SPACE_BEFORE_NUMBER => write_form(
            &MISSING_SPACE_BEFORE_NUMBER_TEXTS,
            form,
            a,
            b,
            c,
            out,
        ),
        findings::UNREADABLE_VERSE_NUMBER => write_form(
            &UNREADABLE_VERSE_NUMBER_TEXTS,
            form,
            a,
            b,
            c,
            out,
        ),
        _ => marker_text(code, form, a, b, c, out),
    }
}

// Of the codes of markers the first four, else those below.
fn marker_text(code: u64, form: u64, a: &[u8], b: &[u8], c: &[u8], out: &mut [u8]) -> Option<usize>
    requires { Short a.now b.now c.now }
    ensures { WrittenFrom (marker_texts ++ attribute_texts) code form a.now b.now c.now out.old out.new result }
{
    match code {
        findings::NOTE_SUBMARKER_OUTSIDE_NOTE => write_form(
            &NOTE_SUBMARKER_OUTSIDE_NOTE_TEXTS,
            form,
            a,
            b,
            c,
            out,
        ),
        findings::NON_EMPTY_BLANK_LINE => write_form(
            &NON_EMPTY_BLANK_LINE_TEXTS,
            form,
            a,
            b,
            c,
            out,
        ),
        findings::MILESTONE_MISMATCH => write_form(&MILESTONE_MISMATCH_TEXTS, form, a, b, c, out),
        findings::EMPTY_FIGURE => write_form(&EMPTY_FIGURE_TEXTS, form, a, b, c, out),
        _ => more_marker_text(code, form, a, b, c, out),
    }
}

// The others of them, else those below.
fn more_marker_text(
    code: u64,
    form: u64,
    a: &[u8],
    b: &[u8],
    c: &[u8],
    out: &mut [u8],
) -> Option<usize>
    requires { Short a.now b.now c.now }
    ensures { WrittenFrom (drop 4 marker_texts ++ attribute_texts) code form a.now b.now c.now out.old out.new result }
{
    match code {
        findings::MISSING_REQUIRED_ATTRIBUTE => write_form(
            &MISSING_REQUIRED_ATTRIBUTE_TEXTS,
            form,
            a,
            b,
            c,
            out,
        ),
        findings::BODY_PARAGRAPH_BEFORE_CHAPTER => write_form(
            &BODY_PARAGRAPH_BEFORE_CHAPTER_TEXTS,
            form,
            a,
            b,
            c,
            out,
        ),
        findings::EMPTY_WORD_MARKER => write_form(&EMPTY_WORD_MARKER_TEXTS, form, a, b, c, out),
        findings::INVALID_TABLE_COLUMN_SEQUENCE => write_form(
            &INVALID_TABLE_COLUMN_SEQUENCE_TEXTS,
            form,
            a,
            b,
            c,
            out,
        ),
        findings::MISPLACED_NUMBER_MARKER => write_form(
            &MISPLACED_NUMBER_MARKER_TEXTS,
            form,
            a,
            b,
            c,
            out,
        ),
        _ => attribute_text(code, form, a, b, c, out),
    }
}

// The codes of attributes, which are the last.
fn attribute_text(
    code: u64,
    form: u64,
    a: &[u8],
    b: &[u8],
    c: &[u8],
    out: &mut [u8],
) -> Option<usize>
    requires { Short a.now b.now c.now }
    ensures { WrittenFrom attribute_texts code form a.now b.now c.now out.old out.new result }
{
    match code {
        findings::INVALID_ATTRIBUTES => write_form(&INVALID_ATTRIBUTES_TEXTS, form, a, b, c, out),
        findings::UNQUOTED_ATTRIBUTE_VALUE => write_form(
            &UNQUOTED_ATTRIBUTE_VALUE_TEXTS,
            form,
            a,
            b,
            c,
            out,
        ),
        findings::DEFAULT_ATTRIBUTE_NOT_DEFINED => write_form(
            &DEFAULT_ATTRIBUTE_NOT_DEFINED_TEXTS,
            form,
            a,
            b,
            c,
            out,
        ),
        _ => None,
    }
}

// Writes the text that the code and the form have.
pub fn write_text(
    code: u64,
    form: u64,
    a: &[u8],
    b: &[u8],
    c: &[u8],
    out: &mut [u8],
) -> Option<usize>
    requires { Short a.now b.now c.now }
    ensures { WrittenFrom all_texts code form a.now b.now c.now out.old out.new result }
{
    document_text(code, form, a, b, c, out)
}
