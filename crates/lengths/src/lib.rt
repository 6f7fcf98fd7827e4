// How long the lines of a request's clauses are in the clause file, without making a clause. What their length is, is in specs/.
#![tactic(auto)]

mod parts;
mod sums;

ghost use Rattle.std.specs.Prelude.{◌≡◌};
ghost use Rattle.formula.specs.Formula.{formula_of};
ghost use Rattle.lengths.specs.Lines.{lines_length, request_length};

use crate::parts::Nets;
use formula_clauses::variables;
use request::Request;

// The length of the lines of a request that is not refused: those of groups 1 and 2, and row by row.
fn body_length(nets: Nets) -> u32
    ensures { result ≡ lines_length (formula_of nets.good.request) }
{
    let q = nets.good.request;
    let mut before = variables::network_variables(q.n, q.r) as u16;
    let mut total = parts::network_length(nets.good);
    for k in 0..1u8 << q.n {
        let row = parts::row_size(nets, k, before);
        before += row.variables;
        total += row.length;
    }
    total
}

// The length of the lines of a request's clauses; 0 where it is refused.
pub fn lines_length(q: Request) -> u32
    ensures { result ≡ request_length q }
{
    match q.test() {
        Ok(good) => body_length(parts::nets_of(good)),
        Err(_) => 0,
    }
}
