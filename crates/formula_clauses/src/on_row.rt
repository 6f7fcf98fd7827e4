// The clauses of an on row: a walk of at most M closed switches joins the source's net to the sink's. Step t enters a switch at an
// end e, or has stopped before it; a stop is written as the end 2r + 1, so that Z(t) is W(t, 2r + 1).
ghost use Rattle.std.specs.Prelude.{◌≡◌, [], ◌^◌, ◌*◌, ◌+◌, ◌-◌, ◌≤◌, ◌<◌, get_or};
ghost use Rattle.rows.specs.Rows.{literal_on};
ghost use Rattle.network.specs.Networks.{other};
ghost use Rattle.formula.specs.Clause.{literals_of, Packed};
ghost use Rattle.formula.specs.Formula.{closed_step, first_step, link_step, last_step, on_row};
ghost use Rattle.formula.specs.Count.{on_row_count, on_row_literals};

use crate::row::Row;
use crate::{values, variables};
use cnf::{negative, positive};
use formula::Clause;
use request::numbers::GoodRequest;

// The variables of an on row: for each step its ends and its stop.
#[tactic(auto, using(crate::specs::Block::Laws::row_bounds))]
pub fn on_row_variables(good: GoodRequest) -> u16
    ensures { (result ≡ good.request.m * (2 * good.request.r + 1)) × (result ≤ 465) }
{
    (good.request.m as u16) * (2 * (good.request.r as u16) + 1)
}

// The clauses of an on row.
#[tactic(auto, using(crate::specs::Block::Laws::row_bounds, formula::proofs::FormulaOnRow::clauses_none, formula::proofs::FormulaOnRow::clauses_some))]
pub(crate) fn on_row_count(good: GoodRequest) -> u32
    ensures { (result ≡ on_row_count good.request.n good.request.r good.request.m) × (result ≤ 20000) }
{
    let n = good.request.n as u32;
    let r = good.request.r as u32;
    let m = good.request.m as u32;
    if m == 0 {
        return 1;
    }
    m + m * (2 * r * n) + (2 * r + 1) + (m - 1) * (2 * r * (2 * r)) + 2 * r
}

// The literals of an on row.
#[tactic(auto, using(crate::specs::Block::Laws::row_bounds, formula::proofs::FormulaOnRow::literals_none, formula::proofs::FormulaOnRow::literals_some))]
pub(crate) fn on_row_literals(good: GoodRequest) -> u32
    ensures { (result ≡ on_row_literals good.request.n good.request.r good.request.m) × (result ≤ 50000) }
{
    let n = good.request.n as u32;
    let r = good.request.r as u32;
    let m = good.request.m as u32;
    if m == 0 {
        return 1;
    }
    m * (2 * r + 1)
        + 2 * (m * (2 * r * n))
        + 2 * (2 * r + 1)
        + 3 * ((m - 1) * (2 * r * (2 * r)))
        + 2 * (2 * r)
}

// The other end of a switch.
fn other_end(e: u32) -> u32
    requires { (1 ≤ e) × (e ≤ 30) }
    ensures { (result ≡ other e) × (1 ≤ result) × (result ≤ 30) }
{
    4 * ((e - 1) / 2) + 3 - e
}

// For a step and an end: no literal that is 0 on row k.
fn closed_step_at(row: Row, number: u32) -> Clause
    requires { number < row.m * (2 * row.r * row.n) }
    ensures { (literals_of result ≡ get_or (closed_step row.n row.r row.m row.before (literal_on row.n row.k)) number []) × Packed result }
{
    let n = row.n as u32;
    let step = 2 * (row.r as u32) * n;
    let t = number / step + 1;
    let e = number % step / n + 1;
    let v = values::literal_with(row, false, number % step % n);
    Clause::Two(
        negative(row.entered(t, e)),
        negative(row.chosen((e - 1) / 2, v)),
    )
}

// The first step starts on the source's net.
fn first_step_at(row: Row, number: u32) -> Clause
    requires { number < 2 * row.r + 1 }
    ensures { (literals_of result ≡ get_or (first_step row.r row.before) number []) × Packed result }
{
    let e = number + 1;
    Clause::Two(
        negative(row.entered(1, e)),
        positive(variables::joined(row.r, 0, e as u16)),
    )
}

// A step follows the one before on one net: after e comes each g but e's other end, and the stop.
fn link_step_at(row: Row, number: u32) -> Clause
    requires { number < (row.m - 1) * (2 * row.r * (2 * row.r)) }
    ensures { (literals_of result ≡ get_or (link_step row.r row.m row.before) number []) × Packed result }
{
    let ends = 2 * (row.r as u32);
    let step = ends * ends;
    let t = number / step + 1;
    let e = number % step / ends + 1;
    let place = number % step % ends + 1;
    let end = other_end(e);
    let g = if place < end { place } else { place + 1 };
    Clause::Three(
        negative(row.entered(t, e)),
        negative(row.entered(t + 1, g)),
        positive(variables::joined(row.r, end as u16, g as u16)),
    )
}

// The last step ends on the sink's net.
fn last_step_at(row: Row, number: u32) -> Clause
    requires { (1 ≤ row.m) × (number < 2 * row.r) }
    ensures { (literals_of result ≡ get_or (last_step row.r row.m row.before) number []) × Packed result }
{
    let e = number + 1;
    Clause::Two(
        negative(row.entered(row.m as u32, e)),
        positive(variables::joined(row.r, other_end(e) as u16, 2 * (row.r as u16) + 1)),
    )
}

// The clause of an on row with this number. Most are links, so these are told apart from the parts before them first.
pub(crate) fn on_row_at(row: Row, number: u32) -> Clause
    requires { number < on_row_count row.n row.r row.m }
    ensures { (literals_of result ≡ get_or (on_row row.n row.r row.m row.before (literal_on row.n row.k)) number []) × Packed result }
{
    let n = row.n as u32;
    let r = row.r as u32;
    let m = row.m as u32;
    let closed = m * (2 * r * n);
    let first = 2 * r + 1;
    if number < m + closed + first {
        if m == 0 {
            return Clause::Run(variables::joined(row.r, 0, 2 * (row.r as u16) + 1), 1);
        }
        if number < m {
            return Clause::Run(row.entered(number + 1, 1), 2 * r + 1);
        }
        let past_some = number - m;
        if past_some < closed {
            return closed_step_at(row, past_some);
        }
        return first_step_at(row, past_some - closed);
    }
    let past_first = number - m - closed - first;
    let links = (m - 1) * (2 * r * (2 * r));
    if past_first < links {
        return link_step_at(row, past_first);
    }
    last_step_at(row, past_first - links)
}
