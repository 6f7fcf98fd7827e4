// How many variables, clauses and literals a request's clauses have, by the counts of on and off rows.
ghost use Rattle.std.specs.Prelude.{◌≡◌, ◌≤◌, IfOk};
ghost use Rattle.refusal.specs.Refusal.{number_of};
ghost use Rattle.request.specs.Numbers.{refusal_of};
ghost use Rattle.formula.specs.Count.{variable_count, clause_count, literal_count, counts_of, sizes_of};

use crate::{blocks, groups, off_row, on_row};
use formula::Sizes;
use refusal::Refusal;
use request::Request;
use request::numbers::GoodRequest;

// V
fn variable_count(good: GoodRequest) -> u32
    ensures { result ≡ variable_count good.request }
{
    blocks::variables_before(good, blocks::row_count(good)) as u32
}

// C
fn clause_count(good: GoodRequest) -> u32
    ensures { result ≡ clause_count good.request }
{
    let q = good.request;
    let on = on_row::on_row_count(good);
    let off = off_row::off_row_count(good);
    groups::network_count(q.n, q.r) + blocks::weighted(good, blocks::row_count(good), on, off)
}

// T
fn literal_count(good: GoodRequest) -> u32
    ensures { result ≡ literal_count good.request }
{
    let q = good.request;
    let on = on_row::on_row_literals(good);
    let off = off_row::off_row_literals(good);
    groups::network_literals(q.n, q.r) + blocks::weighted(good, blocks::row_count(good), on, off)
}

// V, C and T of a request that is not refused.
pub(crate) fn sizes(good: GoodRequest) -> Sizes
    ensures { result ≡ counts_of good.request }
{
    Sizes {
        variables: variable_count(good),
        clauses: clause_count(good),
        literals: literal_count(good),
    }
}

// V, C and T of a request.
pub fn count(q: Request) -> Result<Sizes, Refusal>
    ensures answer { result ≡ sizes_of q }
    ensures number { number_of result ≡ refusal_of q }
    ensures values { IfOk result (λ size. size ≡ counts_of q) }
{
    let good = q.test()?;
    Ok(sizes(good))
}
