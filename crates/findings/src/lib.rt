// The findings: what a finding says, and the lent list that holds them, eight words each.
#![tactic(auto)]

ghost use Rattle.std.specs.Prelude.{◌<◌, [], ◌∷◌, ◌≡◌};
ghost use Rattle.findings.specs.Finding.{finding_of, severity_of};
ghost use Rattle.findings.specs.Written.{only, total};
ghost use Rattle.findings.specs.Inner.{Wrote, Room, count_limit, by_severity};

// In the Rust's order, with its names.
pub const MISSING_ID_MARKER: u64 = 4;

pub const INVALID_BOOK_CODE: u64 = 5;

pub const DUPLICATE_ID: u64 = 6;

pub const TEXT_BEFORE_ID: u64 = 7;

pub const MISSING_CHAPTER_MARKER: u64 = 8;

pub const INVALID_CHAPTER_SEQUENCE: u64 = 9;

pub const DUPLICATE_CHAPTER: u64 = 10;

pub const INVALID_VERSE_SEQUENCE: u64 = 11;

pub const VERSE_OUTSIDE_PARAGRAPH: u64 = 12;

pub const NOTE_SUBMARKER_OUTSIDE_NOTE: u64 = 13;

pub const NON_EMPTY_BLANK_LINE: u64 = 14;

pub const LEADING_ZEROS: u64 = 15;

pub const MILESTONE_MISMATCH: u64 = 16;

pub const INVALID_ATTRIBUTES: u64 = 17;

pub const MISSING_CHAPTER_NUMBER: u64 = 18;

pub const MISSING_VERSE_NUMBER: u64 = 19;

pub const CHAR_CROSSES_VERSE_BOUNDARY: u64 = 20;

pub const EMPTY_FIGURE: u64 = 21;

pub const UNQUOTED_ATTRIBUTE_VALUE: u64 = 22;

pub const MISSING_REQUIRED_ATTRIBUTE: u64 = 23;

pub const BODY_PARAGRAPH_BEFORE_CHAPTER: u64 = 24;

pub const EMPTY_WORD_MARKER: u64 = 25;

pub const INVALID_TABLE_COLUMN_SEQUENCE: u64 = 27;

pub const DEFAULT_ATTRIBUTE_NOT_DEFINED: u64 = 32;

pub const MISPLACED_NUMBER_MARKER: u64 = 33;

pub const MISSING_SPACE_BEFORE_NUMBER: u64 = 34;

// Document 02, K6: the Rust has no such code.
pub const UNREADABLE_VERSE_NUMBER: u64 = 35;

// How many codes there are.
pub const CODES: u64 = 36;

// The forms of INVALID_BOOK_CODE.
pub const SHOULD_BE_UPPERCASE: u64 = 0;

pub const NOT_VALID: u64 = 1;

// The forms of LEADING_ZEROS.
pub const CHAPTER_FORM: u64 = 0;

pub const VERSE_FORM: u64 = 1;

// The forms of MILESTONE_MISMATCH.
pub const UNCLOSED_START: u64 = 0;

pub const END_ALONE: u64 = 1;

// The forms of UNREADABLE_VERSE_NUMBER.
pub const NO_DIGITS_FORM: u64 = 0;

pub const TOO_LARGE_FORM: u64 = 1;

// The forms of INVALID_ATTRIBUTES.
pub const EMPTY_LIST_FORM: u64 = 0;

pub const KEY_ALONE_FORM: u64 = 1;

pub const EMPTY_VALUE_FORM: u64 = 2;

pub const UNTERMINATED_FORM: u64 = 3;

#[derive(Clone, Copy)]
pub enum Severity {
    Error,
    Warning,
    Info,
}

#[derive(Clone, Copy)]
pub struct Finding {
    pub severity: Severity,
    pub code: u64,
    pub start: u64,
    pub len: u64,
    pub node: u64,
    pub form: u64,
    pub first: u64,
    pub second: u64,
}

// How many findings of each severity there are, with room in the list or without.
#[derive(Clone, Copy)]
pub struct Counts {
    pub errors: u64,
    pub warnings: u64,
    pub infos: u64,
}

fn severity_number(s: Severity) -> u64
    ensures { result ≡ severity_of s }
{
    match s {
        Severity::Error => 0,
        Severity::Warning => 1,
        Severity::Info => 2,
    }
}

fn counted(c: Counts, s: Severity) -> Counts
    requires { total c < count_limit }
    ensures { result ≡ by_severity (severity_of s) c }
{
    match s {
        Severity::Error => Counts {
            errors: c.errors + 1,
            warnings: c.warnings,
            infos: c.infos,
        },
        Severity::Warning => Counts {
            errors: c.errors,
            warnings: c.warnings + 1,
            infos: c.infos,
        },
        Severity::Info => Counts {
            errors: c.errors,
            warnings: c.warnings,
            infos: c.infos + 1,
        },
    }
}

// One finding more: written if the whole of it has room, and counted in any case.
pub fn push(list: &mut [u64], c: Counts, f: Finding) -> Counts
    requires { Room c (finding_of f ∷ []) }
    ensures { Wrote (finding_of f ∷ []) list.old c list.new result }
{
    let severity = f.severity;
    let number = severity_number(severity);
    let k = (c.errors + c.warnings + c.infos) as usize;
    if k < list.len() / 8 {
        let base = 8 * k;
        list[base] = number;
        list[base + 1] = f.code;
        list[base + 2] = f.start;
        list[base + 3] = f.len;
        list[base + 4] = f.node;
        list[base + 5] = f.form;
        list[base + 6] = f.first;
        list[base + 7] = f.second;
    }
    counted(c, severity)
}

pub fn push_if(list: &mut [u64], c: Counts, there: bool, f: Finding) -> Counts
    requires { Room c (only there (finding_of f)) }
    ensures { Wrote (only there (finding_of f)) list.old c list.new result }
{
    if there {
        return push(list, c, f);
    }
    c
}
