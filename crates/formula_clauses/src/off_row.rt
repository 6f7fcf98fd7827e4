// The clauses of an off row: each terminal is on one side of a separation, the source on one and the sink on the other, and nets
// and closed switches do not cross it.
ghost use Rattle.std.specs.Prelude.{◌≡◌, [], ◌^◌, ◌*◌, ◌+◌, ◌≤◌, ◌<◌, get_or};
ghost use Rattle.rows.specs.Rows.{literal_on};
ghost use Rattle.formula.specs.Clause.{literals_of, Packed};
ghost use Rattle.formula.specs.Formula.{terminals, same_side, net_sides, switch_sides, off_row};
ghost use Rattle.formula.specs.Count.{off_row_count, off_row_literals};
ghost use Rattle.formula.specs.Pairs.{pairs_before};

use crate::row::Row;
use crate::{pairs, values, variables};
use cnf::{negative, positive};
use formula::Clause;
use request::numbers::GoodRequest;

// The variables of an off row: the side of each terminal.
pub fn off_row_variables(good: GoodRequest) -> u16
    ensures { (result ≡ terminals good.request.r) × (result ≤ 32) }
{
    2 * (good.request.r as u16) + 2
}

// The clauses of an off row: two of one literal, the others of three.
#[tactic(auto, using(crate::specs::Block::Laws::side_bounds))]
pub(crate) fn off_row_count(good: GoodRequest) -> u32
    ensures { (result ≡ off_row_count good.request.n (terminals good.request.r) good.request.r) × (result ≤ 20000) }
{
    let n = good.request.n as u32;
    let r = good.request.r as u32;
    2 + 2 * pairs::pairs_below(2 * r + 2) + r * (n * 2)
}

// The literals of an off row.
#[tactic(auto, using(crate::specs::Block::Laws::side_bounds))]
pub(crate) fn off_row_literals(good: GoodRequest) -> u32
    ensures { (result ≡ off_row_literals good.request.n (terminals good.request.r) good.request.r) × (result ≤ 50000) }
{
    let n = good.request.n as u32;
    let r = good.request.r as u32;
    2 + 3 * (2 * pairs::pairs_below(2 * r + 2) + r * (n * 2))
}

// A clause of three that keeps two terminals on one side where x is true, by its number among the two: forth, or back.
fn same_side(x: u32, a: u32, b: u32, part: u32) -> Clause
    requires { part < 2 }
    ensures { (literals_of result ≡ get_or (same_side x a b) part []) × Packed result }
{
    match part {
        0 => Clause::Three(negative(x), negative(a), positive(b)),
        _ => Clause::Three(negative(x), positive(a), negative(b)),
    }
}

// The clause for a pair of terminals; X of the pair with the number p is p + 1.
fn net_side_at(row: Row, number: u32) -> Clause
    requires { number < 2 * pairs_before (terminals row.r) (terminals row.r) }
    ensures { (literals_of result ≡ get_or (net_sides (terminals row.r) row.before) number []) × Packed result }
{
    let p = pairs::pair_at(2 * (row.r as u32) + 2, number / 2);
    same_side(number / 2 + 1, row.side(p.v), row.side(p.w), number % 2)
}

// The clause for a switch and a literal that is 1 on row k.
fn switch_side_at(row: Row, number: u32) -> Clause
    requires { number < row.r * (row.n * 2) }
    ensures { (literals_of result ≡ get_or (switch_sides row.n (terminals row.r) row.r row.before (literal_on row.n row.k)) number []) × Packed result }
{
    let count = (row.n as u32) * 2;
    let s = number / count;
    let v = values::literal_with(row, true, number % count / 2);
    same_side(
        row.chosen(s, v),
        row.side(2 * s + 1),
        row.side(2 * s + 2),
        number % count % 2,
    )
}

// The clause of an off row with this number.
pub(crate) fn off_row_at(row: Row, number: u32) -> Clause
    requires { number < off_row_count row.n (terminals row.r) row.r }
    ensures { (literals_of result ≡ get_or (off_row row.n (terminals row.r) row.r row.before (literal_on row.n row.k)) number []) × Packed result }
{
    let r = row.r as u32;
    if number == 0 {
        return Clause::One(negative(row.side(0)));
    }
    if number == 1 {
        return Clause::Run(row.side(2 * r + 1), 1);
    }
    let rest = number - 2;
    let sides = 2 * pairs::pairs_below(2 * r + 2);
    if rest < sides {
        return net_side_at(row, rest);
    }
    switch_side_at(row, rest - sides)
}
