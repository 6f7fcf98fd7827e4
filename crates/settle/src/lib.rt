// Settling (document 01, "Settling takes a request with r = k, an answer, a refutation for k-1"): what an answer and a refutation
// say of the least number of switches.
//
// The answer gives the network, the network is checked against the request, and the refutation is checked against the request with
// one switch fewer. A network of fewer switches than that needs no refutation of its own: a dangling switch may be added to it.
#![tactic(auto)]

ghost use Rattle.std.specs.Prelude.{◌≡◌, ◌<◌, IfOk};
ghost use Rattle.lrat_check.specs.Refutation.{lent};
ghost use Rattle.network.specs.Least.{LeastFor};
ghost use Rattle.settle.specs.Settle.{verdict_number, verdict_values, smaller, outcome_verdict, settle_number, settle_values, settlement, settle_leaves};
ghost use Rattle.settle.specs.declared.Verdict.TheVariants.{Least};

use network::Network;
use refusal::Refusal;
use request::Request;

// What settling says: k is the least number of switches; the network works, with the refusal of the refutation; or it fails, with its
// lowest wrong row.
#[derive(Clone, Copy, Debug, PartialEq, Eq)]
pub enum Verdict {
    Least,
    Works(Refusal),
    Fails(u8),
}

// The verdict, and the network that the answer describes.
#[derive(Clone, Copy, Debug, PartialEq, Eq)]
pub struct Settlement {
    pub verdict: Verdict,
    pub network: Network,
}

// The request for k-1 switches.
fn one_fewer(q: Request) -> Request
    requires { 0 < q.r }
    ensures { result ≡ smaller q }
{
    Request { r: q.r - 1, ..q }
}

// The verdict that the refutation leads to, for a network that does the job.
fn verdict_of(outcome: Result<(), Refusal>) -> Verdict
    ensures { result ≡ outcome_verdict outcome }
{
    match outcome {
        Ok(()) => Verdict::Least,
        Err(refusal) => Verdict::Works(refusal),
    }
}

// Settles a request with r = k. The slices are for the check of the refutation, which says why they are no struct; a refusal, "fails"
// and k = 0 leave them as they are.
pub fn settle(
    q: Request,
    answer: &[u8],
    refutation: &[u8],
    literals: &mut [i32],
    pairs: &mut [u32],
    added: &mut [u32],
    values: &mut [u8],
) -> Result<Settlement, Refusal>
    ensures settled { result ≡ settlement q answer.now refutation.now (lent literals.old pairs.old added.old values.old) }
    ensures slices { lent literals.new pairs.new added.new values.new ≡ settle_leaves q answer.now refutation.now (lent literals.old pairs.old added.old values.old) }
    ensures least { IfOk result (λ x. x.verdict ≡ Least → LeastFor q x.network) }
    ensures number { verdict_number result ≡ settle_number q answer.now }
    ensures values { verdict_values q.r result ≡ settle_values q answer.now refutation.now (lent literals.old pairs.old added.old values.old) }
{
    let network = answer_read::read::read_answer(q, answer)?;
    let verdict = match network_check::check_network(q, network)? {
        Some(row) => Verdict::Fails(row),
        None if q.r == 0 => Verdict::Least,
        None => {
            let below = lrat_check::check::check(
                one_fewer(q),
                refutation,
                literals,
                pairs,
                added,
                values,
            );
            verdict_of(below.outcome)
        }
    };
    Ok(Settlement { verdict, network })
}
