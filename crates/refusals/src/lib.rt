// Why and where a caller is turned back: document 01, "Turned back, in checking order".
#![tactic(auto)]

ghost use Rattle.std.specs.Prelude.{◌≡◌};
ghost use Rattle.refusals.specs.Reasons.{number_of, refusal_of};
ghost use Rattle.refusals.specs.Refusal as refusal;

// The reasons, each with its number.
#[derive(Clone, Copy, PartialEq, Eq)]
pub enum Reason {
    // "The table text breaks its layout."
    BadTableLayout = 1,

    // "The source is too long."
    SourceTooLong = 2,

    // "The source isn't UTF-8."
    SourceNotUtf8 = 3,

    // "The tape's length is 0, no multiple of 16, or over 65,535 nodes."
    BadTapeLength = 4,

    // "A kind is over 8, or Root is missing at 0 or present elsewhere."
    BadNodeKind = 5,

    // "A span from node 1 on leaves the source or splits a character."
    BadNodeSpan = 6,

    // "The links break module 2's reading."
    BrokenLinks = 7,

    // "A 65th open nests inside 64."
    TooDeep = 8,

    // "A Chapter or Verse name is longer than its table name and the cut splits a character."
    SplitLabel = 9,

    // "A working list has fewer than n entries."
    WorkingListTooShort = 10,

    // "Tally: length no multiple of 8, severity over 2 or code over 34."; document 02, K6: "number 11 starts above code 35".
    BadTallyList = 11,

    // "Message (after 1 to 9): code and form unknown to validate.rs, .. or the node lacks what the text needs."; document 02, K6: "number 12
    // knows both forms".
    NoMessage = 12,

    // "Message list too short."
    MessageListTooShort = 13,

    // Document 02, K1: "14 when any of the three counts is over 1,000,000."
    CountTooLarge = 14,

    // "15 when verses is 0."
    NoVerses = 15,

    // Document 02, K5: "16 for an unknown marker .. or one of category other".
    UnknownMarker = 16,

    // "17 for a close without its open innermost, a milestone not closed as above, or a block marker, Chapter or text's end met with a
    // character or note marker open".
    UnmatchedMarker = 17,

    // "18 when the node list is too short".
    NodeListTooShort = 18,
}

// A reason, with the place that its number's rule names.
#[derive(Clone, Copy, PartialEq, Eq)]
pub struct Refusal {
    pub reason: Reason,
    pub place: usize,
}

impl Reason {
    // Document 01's number.
    pub fn number(self) -> u64
        ensures { result ≡ number_of self }
    {
        self as u64
    }

    // The refusal for this reason at a place.
    pub fn at(self, place: usize) -> Refusal
        ensures { result ≡ record { reason = self; place = place } }
    {
        Refusal {
            reason: self,
            place,
        }
    }
}

// What a caller is turned back with, as a number and a place: a refusal of this library, or any number with any place.
pub trait Numbered: Copy {
    ghost says: { Self → refusal.Refusal };

    // The same as a refusal of this library.
    fn of(refusal: Refusal) -> Self
        ensures { says result ≡ refusal_of refusal };

    fn number(self) -> u64
        ensures { result ≡ (says self).number };

    fn place(self) -> u64
        ensures { result ≡ (says self).place };
}

impl Numbered for Refusal {
    ghost says = { refusal_of };

    fn of(refusal: Refusal) -> Refusal {
        refusal
    }

    fn number(self) -> u64 {
        self.reason.number()
    }

    fn place(self) -> u64 {
        self.place as u64
    }
}

// Any number, with any place.
impl Numbered for (u64, u64) {
    ghost says = { λ r. record { number = r.0; place = r.1 } };

    fn of(refusal: Refusal) -> (u64, u64) {
        (refusal.reason.number(), refusal.place as u64)
    }

    fn number(self) -> u64 {
        self.0
    }

    fn place(self) -> u64 {
        self.1
    }
}
