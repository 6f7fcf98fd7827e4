// A clause by its number.
ghost use Rattle.std.specs.Prelude.{◌≡◌, ◌^◌, ◌+◌, ◌≤◌, ◌<◌, MatchOption};
ghost use Rattle.formula.specs.Clause.{literals_of, packed};
ghost use Rattle.formula.specs.Count.{split};
ghost use Rattle.formula.specs.Number.{clause_of};

use crate::{blocks, groups, off_row, on_row};
use formula::Clause;
use request::Request;
use request::numbers::GoodRequest;

// The row that has this clause of the rows' clauses, where an on row has so many and an off row so many: found by halving.
fn row_of(good: GoodRequest, on: u32, off: u32, number: u32) -> Option<u32>
    requires { (on ≤ 50000) × (off ≤ 50000) }
    ensures { MatchOption result (split good.request on off (2 ^ good.request.n) ≤ number)
        (λ k. (k < 2 ^ good.request.n) × (split good.request on off k ≤ number) × (number < split good.request on off (k + 1))) }
{
    let rows = blocks::row_count(good);
    if blocks::weighted(good, rows, on, off) <= number {
        return None;
    }
    let mut low: u32 = 0;
    let mut high = rows;
    while low + 1 < high {
        let middle = (low + high) / 2;
        if blocks::weighted(good, middle, on, off) <= number {
            low = middle;
        } else {
            high = middle;
        }
    }
    Some(low)
}

// The clause of a request with this number; the empty one where there is none, or where the request is refused, so that it cannot fail.
pub fn clause_at(q: Request, number: u32) -> Clause
    ensures literals { literals_of result ≡ clause_of q number }
    ensures form { result ≡ packed (clause_of q number) }
{
    let none = Clause::Run(0, 0);
    let Ok(good) = q.test() else {
        return none;
    };
    let first = groups::network_count(q.n, q.r);
    if number < first {
        return groups::network_at(good, number);
    }
    let on = on_row::on_row_count(good);
    let off = off_row::off_row_count(good);
    let Some(k) = row_of(good, on, off, number - first) else {
        return none;
    };
    let row = blocks::block_at(good, k + 1);
    blocks::block_clause(
        good,
        row,
        number - first - blocks::weighted(good, k, on, off),
    )
}
