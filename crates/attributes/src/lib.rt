// Attributes: the checks of what stands after a marker's `|`.
#![tactic(auto)]

ghost use Rattle.std.specs.Prelude.{◌≡◌, not, ◌&&◌, [], ◌∷◌, ◌-◌, ◌<◌, ◌≤◌, ltb, length, drop};
ghost use Rattle.text.specs.Inner.{Ended};
ghost use Rattle.text.specs.Characters.{chars, find};
ghost use Rattle.tape.specs.Nodes.{node_at};
ghost use Rattle.tape.specs.Forest.{forest};
ghost use Rattle.cursor.specs.Names.{name_of};
ghost use Rattle.cursor.specs.Inner.{Run, Spanned};
ghost use Rattle.findings.specs.Finding.{finding_of, severity_of, error_severity};
ghost use Rattle.findings.specs.Written.{only};
ghost use Rattle.table.specs.Names.{attribute_name};
ghost use Rattle.attributes.specs.Attributes.{kind, empty_value, attribute_scan, between, after_bar, attribute_kinds, findings_at, attributes_findings};
ghost use Rattle.attributes.specs.Inner.{leads, ends_key, escapes, finding_of_kind, of_node};
ghost use Rattle.findings.specs.Inner.{Wrote, Room};

use cursor::{Document, Siblings};
use findings::{
    Counts, DEFAULT_ATTRIBUTE_NOT_DEFINED, Finding, INVALID_ATTRIBUTES, Severity,
    UNQUOTED_ATTRIBUTE_VALUE,
};

// The Attribute node that is checked, and the node that owns it.
#[derive(Clone, Copy)]
pub struct Where {
    pub start: u64,
    pub len: u64,
    pub node: u64,
    pub owner: u64,
}

fn byte_is(s: &[u8], i: usize, b: u8) -> bool
    ensures { result ≡ leads b (drop i s.now) }
{
    i < s.len() && s[i] == b
}

fn after_bar(s: &[u8]) -> &[u8]
    ensures { result.now ≡ after_bar s.now }
{
    if byte_is(s, 0, b'|') {
        return &s[1..];
    }
    s
}

fn ends_key(cp: u32) -> bool
    ensures { result ≡ ends_key cp }
{
    cp == 0x3D || text::is_blank(cp)
}

// The place of the first `=` or blank from a place on, or the length. Most bytes of a key are small letters, which need no
// decoding; nor does a sequence of two bytes from C3 80 on, U+00C0 to U+07FF, among which there is no blank.
fn key_end(s: &[u8], from: usize) -> usize
    requires { from ≤ length s.now }
    ensures { Ended s.now from (find ends_key (drop from s.now)) result }
{
    let mut i = from;
    // A while: it goes on by the character's width.
    while i < s.len() {
        if text::holds(s[i], b'a', b'z') {
            i += 1;
            continue;
        }
        if text::holds(s[i], 0xC3, 0xDF) {
            if text::two_at(s, i) {
                i += 2;
                continue;
            }
        }
        let d = text::decode_at(s, i);
        if ends_key(d.cp) {
            return i;
        }
        i += d.width;
    }
    i
}

// Whether a byte of a value, which begins at a place, is the quote that closes it: one without a backslash before it. So the search
// for it goes on byte by byte, whatever the bytes are, and the processor need not wait for one to know the place of the next.
fn closes(s: &[u8], from: usize, j: usize) -> bool
    ensures { result ≡ (leads 0x22 (drop j s.now) && not (ltb from j && escapes (drop (j - 1) s.now))) }
{
    byte_is(s, j, b'"') && (j <= from || !byte_is(s, j - 1, 0x5C))
}

fn finding(w: Where, severity: Severity, code: u64, form: u64, first: u64) -> Finding
    ensures { finding_of result ≡ finding_of_kind w (kind (severity_of severity) code form) first }
{
    Finding {
        severity: severity,
        code: code,
        start: w.start,
        len: w.len,
        node: w.node,
        form: form,
        first: first,
        second: 0,
    }
}

// One finding more: an error whose numbers are 0.
fn push_error(list: &mut [u64], c: Counts, w: Where, code: u64, form: u64) -> Counts
    requires { Room c (finding_of_kind w (kind error_severity code form) 0 ∷ []) }
    ensures { Wrote (finding_of_kind w (kind error_severity code form) 0 ∷ []) list.old c list.new result }
{
    findings::push(list, c, finding(w, Severity::Error, code, form, 0))
}

// One finding more where a value is empty.
fn push_empty(list: &mut [u64], c: Counts, w: Where, empty: bool) -> Counts
    requires { Room c (only empty (finding_of_kind w empty_value 0)) }
    ensures { Wrote (only empty (finding_of_kind w empty_value 0)) list.old c list.new result }
{
    let info = finding(
        w,
        Severity::Info,
        INVALID_ATTRIBUTES,
        findings::EMPTY_VALUE_FORM,
        0,
    );
    findings::push_if(list, c, empty, info)
}

// The findings of a list of attributes. The scan ends at a key without `=` and at a quote that is never closed, and goes on after a
// value without quotes.
fn scan_list(body: &[u8], w: Where, list: &mut [u64], counts: Counts) -> Counts
    requires { Room counts (findings_at w.start w.len w.node w.owner (attribute_scan between (chars body.now))) }
    ensures { Wrote (findings_at w.start w.len w.node w.owner (attribute_scan between (chars body.now))) list.old counts list.new result }
{
    let mut c = counts;
    let mut i = text::find_from(body, 0, false);
    // A labelled loop, and the quote's place by `break`: document 01 names these forms.
    'scan: while i < body.len() {
        let key = key_end(body, i);
        if !byte_is(body, key, b'=') {
            c = push_error(list, c, w, INVALID_ATTRIBUTES, findings::KEY_ALONE_FORM);
            break 'scan;
        }
        if !byte_is(body, key + 1, b'"') {
            c = push_error(list, c, w, UNQUOTED_ATTRIBUTE_VALUE, 0);
            i = text::find_from(body, text::find_from(body, key + 1, true), false);
            continue 'scan;
        }
        let mut j = key + 2;
        let close = loop {
            if body.len() <= j {
                c = push_error(list, c, w, INVALID_ATTRIBUTES, findings::UNTERMINATED_FORM);
                break 'scan;
            }
            if closes(body, key + 2, j) {
                break j;
            }
            j += 1;
        };
        c = push_empty(list, c, w, close == key + 2);
        i = text::find_from(body, close + 1, false);
    }
    c
}

// The findings of one Attribute's text. `marker` is the text of its owner, whose name is read for a bare value alone.
pub fn validate_attribute(
    text: &[u8],
    marker: &[u8],
    w: Where,
    list: &mut [u64],
    c: Counts,
) -> Counts
    requires { Room c (findings_at w.start w.len w.node w.owner (attribute_kinds (name_of marker.now) text.now)) }
    ensures { Wrote (findings_at w.start w.len w.node w.owner (attribute_kinds (name_of marker.now) text.now)) list.old c list.new result }
{
    let body = text::trim(after_bar(text));
    if body.len() == 0 {
        return push_error(list, c, w, INVALID_ATTRIBUTES, findings::EMPTY_LIST_FORM);
    }
    if text::find_byte(body, b'=') < body.len() {
        return scan_list(body, w, list, c);
    }
    let known = table::default_attribute(cursor::name_of(marker)).is_some();
    let bare = finding(
        w,
        Severity::Error,
        DEFAULT_ATTRIBUTE_NOT_DEFINED,
        0,
        w.owner,
    );
    findings::push_if(list, c, !known, bare)
}

// The findings of a node that is an Attribute; none of another.
fn attribute_at(
    doc: Document<'_, '_>,
    i: usize,
    owner: usize,
    list: &mut [u64],
    c: Counts,
) -> Counts
    requires { (Spanned doc.source.now doc.tape.now i) × (Spanned doc.source.now doc.tape.now owner) × Room c (of_node owner (name_of (node_at doc.source.now doc.tape.now owner).text) (node_at doc.source.now doc.tape.now i)) }
    ensures { Wrote (of_node owner (name_of (node_at doc.entry.source.now doc.entry.tape.now owner).text) (node_at doc.entry.source.now doc.entry.tape.now i)) list.old c list.new result }
{
    if tape::kind_at(doc.tape, i) != tape::ATTRIBUTE {
        return c;
    }
    let span = cursor::span(doc.tape, i);
    let w = Where {
        start: span.start as u64,
        len: span.len as u64,
        node: i as u64,
        owner: owner as u64,
    };
    let marker = doc.text(owner);
    validate_attribute(doc.text(i), marker, w, list, c)
}

// The findings of all Attributes among the children of a marker, its owner: the nodes from one up to another.
pub fn validate_attributes(
    doc: Document<'_, '_>,
    from: usize,
    to: usize,
    owner: usize,
    list: &mut [u64],
    c: Counts,
) -> Counts
    requires { (Run doc.source.now doc.tape.now from to) × (Spanned doc.source.now doc.tape.now owner) × Room c (attributes_findings owner (name_of (node_at doc.source.now doc.tape.now owner).text) (forest doc.source.now doc.tape.now from to)) }
    ensures { Wrote (attributes_findings owner (name_of (node_at doc.entry.source.now doc.entry.tape.now owner).text) (forest doc.entry.source.now doc.entry.tape.now from to)) list.old c list.new result }
{
    let mut r = c;
    for i in Siblings::new(doc.tape, from, to) {
        r = attribute_at(doc, i, owner, list, r);
    }
    r
}
