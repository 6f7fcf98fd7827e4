// The types of the clauses of a request (document 01, "Variables, from 1", "Clauses, in order" and "Storing clauses"); their
// definitions and laws are in specs/. No code.
#![tactic(auto)]

use cnf::Literal;

// A clause: the positive literals of some variables in a row, from the first on, or one to three literals. Which of these a clause
// of a request is, `packed` says (specs/Clause.antt).
#[derive(Clone, Copy, Debug, PartialEq, Eq)]
pub enum Clause {
    Run(u32, u32),
    One(Literal),
    Two(Literal, Literal),
    Three(Literal, Literal, Literal),
}

// V, C and T of a request.
#[derive(Clone, Copy, Debug, PartialEq, Eq)]
pub struct Sizes {
    pub variables: u32,
    pub clauses: u32,
    pub literals: u32,
}
