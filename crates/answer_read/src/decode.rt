// The network that the values of X and L describe: a literal for each switch, and for each terminal the lowest terminal of its net, which
// the crate clusters finds.
ghost use Rattle.std.specs.Prelude.{◌≡◌, ◌++◌, ◌-◌, replicate};
ghost use Rattle.prelude.specs.Lists.{tab};
ghost use Rattle.cnf.specs.Cnf.{Sat};
ghost use Rattle.request.specs.Numbers.{switches_most};
ghost use Rattle.formula.specs.Formula.{terminals, transitivity};
ghost use Rattle.answer.specs.Values.{assigned};
ghost use Rattle.answer.specs.Decode.{literal_for, decoded};

use answer::Values;
use formula_clauses::variables;
use network::{Literals, Network};
use request::numbers::GoodRequest;
use std::array;

// The literal of switch s: the lowest whose L is true, or 2n, which a network has there in document 01's words, so no Option.
fn literal_for(good: GoodRequest, values: &[u8], s: u8) -> u8
    ensures { result ≡ literal_for good.request.n good.request.r (assigned values.now) s }
{
    let q = good.request;
    (0..2 * q.n)
        .find(|v| answer::is_true(values, variables::chosen(q.n, q.r, s, *v as u16)))
        .unwrap_or(2 * q.n)
}

// The literals of a network's switches, 0 past them.
fn decode_literals(good: GoodRequest, values: &[u8]) -> Literals
    ensures { result ≡ tab 0 good.request.r (literal_for good.request.n good.request.r (assigned values.now)) ++ replicate (switches_most - good.request.r) 0 }
{
    array::from_fn(|s| if s < good.request.r as usize {
        literal_for(good, values, s as u8)
    } else {
        0
    })
}

// The labels are those of the clusters: where group 1 holds, a chain of true X is one of them or none (`labels_decoded`).
pub(crate) fn decode(good: GoodRequest, values: Values) -> Network
    requires { Sat (assigned values) (transitivity (terminals good.request.r)) }
    ensures { result ≡ decoded good.request.n good.request.r (assigned values) }
{
    let r = good.request.r;
    let literals = decode_literals(good, &values);
    let labels = clusters::find_labels(2 * r + 2, values);
    Network {
        r,
        literals,
        labels,
    }
}
