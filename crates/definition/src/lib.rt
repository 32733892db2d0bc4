// The check of a document: its definition stands in specs/.
#![tactic(auto)]

// An open start as it is lent: a milestone's start that no end has taken, by its node and the length of its base.
#[repr(C)]
#[derive(Clone, Copy)]
pub struct OpenStart {
    pub node: u32,
    pub base_len: u32,
}
