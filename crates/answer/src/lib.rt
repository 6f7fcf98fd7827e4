// Answers (document 01, "Reading an answer"): what a solver's text gives, and the network that it describes. The definitions and their
// laws are in specs; the code that reads is in the crate answer_read, and the search for nets in clusters.
//
// Lines are read from the top. Of the values that v lines name, only those of X and L variables are kept, in an array by value: 0
// unnamed, 1 true, 2 false. Values of W, Z and S are never looked at. A refused reading is an error in the code, and
// has the network of zeros in the definition.
#![tactic(auto)]

ghost use Rattle.std.specs.Prelude.{◌≡◌};
ghost use Rattle.answer.specs.Values.{assigned};

use network::{LITERALS, TERMINALS};
use request::INPUTS;

// The most X and L variables: N(N-1)/2, and 2n for each switch.
pub const VALUES: usize = TERMINALS * (TERMINALS - 1) / 2 + 2 * (INPUTS as usize) * LITERALS;

// A value for each. The array keeps bytes: the search for nets in the crate clusters takes any bytes.
pub type Values = [u8; VALUES];

// The form of a v line: the place after its newline, and whether its last number is 0, which is told of every line.
#[derive(Clone, Copy, Debug, PartialEq, Eq)]
pub struct Form {
    pub next: usize,
    pub last: bool,
}

// How far the lines have come: before the s line, at the v lines after it, or past the 0 that ends their numbers.
#[derive(Clone, Copy, Debug, PartialEq, Eq)]
pub enum Phase {
    Before,
    Naming,
    After,
}

// What the lines gave so far.
#[derive(Clone, Copy)]
pub struct Progress {
    pub phase: Phase,
    pub values: Values,
}

// Whether variable x is named true.
pub fn is_true(values: &[u8], x: u32) -> bool
    ensures { result ≡ assigned values.now x }
{
    values.get(x.saturating_sub(1) as usize) == Some(&1)
}
