// The literals that have a given value on a row, by number, rising. The value is what is sought, and no step to run, so no closure.
ghost use Rattle.std.specs.Prelude.{◌≡◌, ◌*◌, ◌<◌};
ghost use Rattle.formula_clauses.specs.Word.{value_word};
ghost use Rattle.formula.specs.Values.{has_value, NthIs};

use crate::row::Row;

// The literals' values on the row as the bits of a word, literal 0 the highest: 1 for those that have the value.
fn value_word(row: Row, value: bool) -> u32
    ensures { result ≡ value_word row.n row.k value }
{
    let n = row.n as u32;
    let k = row.k as u32;
    let ones = (1u32 << n) - 1;
    if value {
        return (k << n) + (ones - k);
    }
    ((ones - k) << n) + k
}

// The literal with this number among those that have the value on the row.
pub(crate) fn literal_with(row: Row, value: bool, number: u32) -> u32
    requires { number < row.n }
    ensures { NthIs (has_value row.n row.k value) (2 * row.n) number result }
{
    let n = row.n as u32;
    let word = value_word(row, value);
    let mut rest = number;
    for v in 0..2 * n {
        if (word >> (2 * n - 1 - v)) % 2 == 1 {
            if rest == 0 {
                return v;
            }
            rest -= 1;
        }
    }
    unreachable!()
}
