// Groups 1 and 2 of the clauses: nets are transitive, and each switch has one literal. They are the first clauses of a request, and
// say what a network is.
ghost use Rattle.std.specs.Prelude.{◌≡◌, [], ◌++◌, ◌+◌, ◌*◌, ◌≤◌, ◌<◌, length, get_or};
ghost use Rattle.formula.specs.Clause.{literals_of, packed, Packed};
ghost use Rattle.formula.specs.Pairs.{pairs_before, triples_before, TripleIs};
ghost use Rattle.formula.specs.Formula.{terminals, triple, transitivity, choices};
ghost use Rattle.formula.specs.Count.{network_count, network_literals};
ghost use Rattle.formula_clauses.specs.declared.Block.TheVariants.{Network};
ghost use Rattle.formula_clauses.specs.Block.{clauses_in, network_clause};

use crate::{pairs, variables};
use cnf::{negative, positive};
use formula::Clause;
use request::Request;
use request::numbers::GoodRequest;

// Three terminals i < j < k.
#[derive(Clone, Copy)]
pub struct Triple {
    pub i: u32,
    pub j: u32,
    pub k: u32,
}

// The clauses of group 1; each has three literals.
#[tactic(auto, using(crate::specs::Bounds::pairs_most, crate::specs::Bounds::triples_most, formula::specs::Pairs::Laws::triples_all))]
fn transitivity_count(r: u8) -> u32
    ensures { (result ≡ triples_before (terminals r) (terminals r) * 3) × (result ≤ 67000000) }
{
    let terminals = 2 * (r as u32) + 2;
    terminals * (terminals - 1) * (terminals - 2) / 2
}

// The triple with this number among the triples below count, in order of i, then j, then k.
#[tactic(auto, using(formula::specs::Pairs::Laws::triples_none, formula::specs::Pairs::Laws::triples_more))]
fn triple_at(count: u32, number: u32) -> Triple
    requires { (count ≤ 512) × (number < triples_before count count) }
    ensures { TripleIs count number result.i result.j result.k }
{
    let mut rest = number;
    for i in 0..count {
        let above = count - (i + 1);
        let pairs_above = pairs::pairs_below(above);
        if rest < pairs_above {
            let p = pairs::pair_at(above, rest);
            return Triple {
                i: i,
                j: i + 1 + p.v,
                k: i + 1 + p.w,
            };
        }
        rest -= pairs_above;
    }
    unreachable!()
}

// One of the three clauses of i < j < k, by its number among them, as each function here makes a clause by its number.
fn triple_clause(r: u8, i: u32, j: u32, k: u32, part: u32) -> Clause
    requires { (i < j) × (j < k) × (k < 2 * r + 2) × (part < 3) }
    ensures { (literals_of result ≡ get_or (triple (terminals r) i j k) part []) × Packed result }
{
    let ij = variables::joined(r, i as u16, j as u16);
    let jk = variables::joined(r, j as u16, k as u16);
    let ik = variables::joined(r, i as u16, k as u16);
    match part {
        0 => Clause::Three(negative(ij), negative(jk), positive(ik)),
        1 => Clause::Three(negative(ij), negative(ik), positive(jk)),
        _ => Clause::Three(negative(ik), negative(jk), positive(ij)),
    }
}

// The clause of group 1 with this number.
fn transitivity_at(r: u8, number: u32) -> Clause
    requires { number < length (transitivity (terminals r)) }
    ensures { (literals_of result ≡ get_or (transitivity (terminals r)) number []) × Packed result }
{
    let t = triple_at(2 * (r as u32) + 2, number / 3);
    triple_clause(r, t.i, t.j, t.k, number % 3)
}

// The clauses of group 2 for one switch.
fn choice_count(n: u8) -> u32
    ensures { (result ≡ pairs_before (2 * n) (2 * n) + 1) × (result ≤ 131073) }
{
    pairs::pairs_below(2 * (n as u32)) + 1
}

// The clause of group 2 with this number.
fn choice_at(n: u8, r: u8, number: u32) -> Clause
    requires { (1 ≤ n) × (number < length (choices n (terminals r) r)) }
    ensures { (literals_of result ≡ get_or (choices n (terminals r) r) number []) × Packed result }
{
    let literals = 2 * (n as u32);
    let count = choice_count(n);
    let s = (number / count) as u8;
    let part = number % count;
    if part == 0 {
        return Clause::Run(variables::chosen(n, r, s, 0), literals);
    }
    let p = pairs::pair_at(literals, part - 1);
    Clause::Two(
        negative(variables::chosen(n, r, s, p.v as u16)),
        negative(variables::chosen(n, r, s, p.w as u16)),
    )
}

// The clause of groups 1 and 2 with this number.
pub(crate) fn network_at(good: GoodRequest, number: u32) -> Clause
    requires { number < network_count good.request.n good.request.r }
    ensures { (literals_of result ≡ get_or (clauses_in good.request Network) number []) × Packed result }
{
    let q = good.request;
    let nets = transitivity_count(q.r);
    if number < nets {
        return transitivity_at(q.r, number);
    }
    choice_at(q.n, q.r, number - nets)
}

// The number of clauses of groups 1 and 2.
#[tactic(auto, using(crate::specs::Bounds::switches_most_lem))]
pub fn network_count(n: u8, r: u8) -> u32
    ensures { (result ≡ network_count n r) × (result ≤ 200000000) }
{
    transitivity_count(r) + (r as u32) * choice_count(n)
}

// The number of their literals.
#[tactic(auto, using(crate::specs::Bounds::switches_most_lem))]
pub(crate) fn network_literals(n: u8, r: u8) -> u32
    ensures { (result ≡ network_literals n r) × (result ≤ 400000000) }
{
    let literals = 2 * (n as u32);
    3 * transitivity_count(r) + (r as u32) * (literals + 2 * pairs::pairs_below(literals))
}

// The clause of groups 1 and 2 of a request with this number; the empty one where there is none, or where the request is refused, so
// that it cannot fail.
pub fn network_clause(q: Request, number: u32) -> Clause
    ensures literals { literals_of result ≡ network_clause q number }
    ensures form { result ≡ packed (network_clause q number) }
{
    let none = Clause::Run(0, 0);
    let Ok(good) = q.test() else {
        return none;
    };
    if network_count(q.n, q.r) <= number {
        return none;
    }
    network_at(good, number)
}
