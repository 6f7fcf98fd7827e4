// Literals as values.
#![tactic(auto)]

ghost use Rattle.std.specs.Prelude.{◌≡◌};
ghost use Rattle.cnf.specs.Cnf.{pos, neg};

// A variable, or its negation.
#[derive(Clone, Copy, Debug, PartialEq, Eq)]
pub struct Literal {
    pub variable: u32,
    pub negative: bool,
}

// Two functions that differ in the sign: one that takes it would say no more than `Literal { variable, negative }` does.
pub fn positive(variable: u32) -> Literal
    ensures { result ≡ pos variable }
{
    Literal {
        variable,
        negative: false,
    }
}

pub fn negative(variable: u32) -> Literal
    ensures { result ≡ neg variable }
{
    Literal {
        variable,
        negative: true,
    }
}
