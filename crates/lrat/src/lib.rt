// The rules of a refutation's lines (document 01, "Checking a refutation"), over any clauses: in specs/. Its code is the bounds
// and types below.
#![tactic(auto)]

use refusal::Refusal;

// "15 for text above 16,777,215 bytes".
pub const TEXT_LIMIT: usize = 16777215;

// The highest stamp of a line: it and the one above it fit into a byte.
pub const LAST_STAMP: u8 = 253;

// What the literals of a clause are under the values: all false; all false but one, which is unset, with its variable and whether it
// has a minus; or anything else.
#[derive(Clone, Copy, Debug, PartialEq, Eq)]
pub enum Found {
    AllFalse,
    Unset(usize, bool),
    Other,
}

// What is read of a line's literals: where they end, the place after their 0, and whether they are inside ±V and no variable twice,
// which is told after refusals that come first.
#[derive(Clone, Copy, Debug, PartialEq, Eq)]
pub struct LiteralsRead {
    pub end: usize,
    pub next: usize,
    pub good: bool,
}

// What is read of a line's hints: the place after their 0, and what they end in, Ok in the conflict. "21 hints spent without conflict"
// is also what stands while there are more hints, after each so far has set a literal true.
#[derive(Clone, Copy, Debug, PartialEq, Eq)]
pub struct HintsRead {
    pub next: usize,
    pub outcome: Result<(), Refusal>,
}

// What a line leaves after which the check goes on: the number of added records, and the next line.
#[derive(Clone, Copy, Debug, PartialEq, Eq)]
pub struct Step {
    pub a: usize,
    pub next: usize,
}

// What a check ends in, Ok in "none", and the number of added records.
#[derive(Clone, Copy, Debug, PartialEq, Eq)]
pub struct Checked {
    pub outcome: Result<(), Refusal>,
    pub count: u32,
}
