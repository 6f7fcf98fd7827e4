// Networks (document 01, "Networks" and "Checking a network").
//
// A network of at most SWITCHES switches is a literal for each switch and a label for each terminal, in arrays that go in and out
// by value and are copied where they are handed on. Entries past r literals and 2r + 2 labels are 0 in a network that we make and
// unread in one that we are given.
#![tactic(auto)]

pub mod value;

use request::SWITCHES;

// The most literals, one for each switch.
pub const LITERALS: usize = SWITCHES as usize;

// The most terminals.
pub const TERMINALS: usize = 2 * LITERALS + 2;

// A literal for each switch.
pub type Literals = [u8; LITERALS];

// A label for each terminal.
pub type Labels = [u8; TERMINALS];

#[derive(Clone, Copy, Debug, PartialEq, Eq)]
pub struct Network {
    pub r: u8,
    pub literals: Literals,
    pub labels: Labels,
}
