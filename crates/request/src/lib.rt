// Requests (document 01, "Request and rows" and "Reading a request").
//
// A request is n inputs, the table of 2^n rows as two numbers, r switches and the series bound M. Bit k of the table is 1 where row k is
// on, and bit k of free where nobody drives row k; a row with neither is off. A request goes in and out by value: it is five small
// numbers, and no operation changes one that it is given.
#![tactic(auto)]

pub mod numbers;

// The most inputs.
pub const INPUTS: u8 = 4;

// The most switches.
pub const SWITCHES: u8 = 7;

// The highest series bound.
pub const SERIES: u8 = 7;

#[derive(Clone, Copy)]
pub struct Request {
    pub n: u8,
    pub table: u16,
    pub free: u16,
    pub r: u8,
    pub m: u8,
}
