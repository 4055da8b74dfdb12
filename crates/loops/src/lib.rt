// Counting loops and lists, for the definitions and proofs of other crates: see specs/. A crate has
// a function, and this one has no other.
#![tactic(auto)]

pub fn one() -> u8 {
    1
}
