// How many digits a number has, and the absolute value of a signed one. What numbers, literals and clauses are as text is in specs/.
#![tactic(auto)]

ghost use Rattle.std.specs.Prelude.{◌≡◌, ◌≤◌, length};
ghost use Rattle.text.specs.Decimal.{decimal};
ghost use Rattle.prelude.specs.Signed.{variable};

// The number of digits of x: one more than its logarithm, which 0 has none of and is one digit.
pub fn decimal_length(x: u32) -> usize
    ensures { (result ≡ length (decimal x)) × (1 ≤ result) × (result ≤ 10) }
{
    x.max(1).ilog10() as usize + 1
}

// The absolute value of x, which need not fit an i32.
pub fn absolute(x: i32) -> u32
    ensures { result ≡ variable x }
{
    x.unsigned_abs()
}
