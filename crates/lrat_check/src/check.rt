// The whole operation: the refusals before the lines (7 and 8 by the store, 14, 15), the store, the lines.
ghost use Rattle.std.specs.Prelude.{◌≡◌, Ok};
ghost use Rattle.cnf.specs.Cnf.{Satisfiable};
ghost use Rattle.network.specs.Least.{MoreThan};
ghost use Rattle.formula_clauses.specs.Store.{stored_formula};
ghost use Rattle.lrat.specs.Outcome.{number_of, values_of};
ghost use Rattle.lrat_check.specs.Refutation.{lent, check_number, check_values, check_answer, check_leaves};

use crate::clause::Store;
use crate::lines;
use formula_clauses::store;
use lrat::Checked;
use refusal::Refusal;
use request::Request;

// What the check ends in, and in count the number of added records: the refusals before the lines write nothing; past them the store is
// filled, its sizes are V, C and T, and the lines are followed.
fn outcome(
    q: Request,
    text: &[u8],
    literals: &mut [i32],
    pairs: &mut [u32],
    added: &mut [u32],
    values: &mut [u8],
    count: &mut u32,
) -> Result<(), Refusal>
    requires { count.old ≡ 0 }
    ensures answer { record { outcome = result; count = count.new } ≡ check_answer q text.now (lent literals.old pairs.old added.old values.old) }
    ensures slices { lent literals.new pairs.new added.new values.new ≡ check_leaves q text.now (lent literals.old pairs.old added.old values.old) }
{
    let size = store::store_sizes(q, literals.len(), pairs.len())?;
    let variables = size.variables as usize;
    if values.len() <= variables {
        return Err(Refusal::ValuesShort);
    }
    if lrat::TEXT_LIMIT < text.len() {
        return Err(Refusal::TextLong);
    }
    store::store_clauses(q, literals, pairs)?;
    let store = Store {
        text,
        literals,
        pairs,
        count: size.clauses as usize,
        variables,
    };
    lines::lines(store, added, &mut values[..variables + 1], count)
}

// Checks a refutation of a request's clauses. "none" means that the clauses cannot be satisfied, and so that every network that does the
// job has more than r switches. The four slices are parameters of their own, as the C interface has them.
pub fn check(
    q: Request,
    text: &[u8],
    literals: &mut [i32],
    pairs: &mut [u32],
    added: &mut [u32],
    values: &mut [u8],
) -> Checked
    ensures answer { result ≡ check_answer q text.now (lent literals.old pairs.old added.old values.old) }
    ensures slices { lent literals.new pairs.new added.new values.new ≡ check_leaves q text.now (lent literals.old pairs.old added.old values.old) }
    ensures sound { result.outcome ≡ Ok tt → Satisfiable (stored_formula q) → ⊥ }
    ensures more { result.outcome ≡ Ok tt → MoreThan q }
    ensures number { number_of result ≡ check_number q text.now (lent literals.old pairs.old added.old values.old) }
    ensures values { values_of result ≡ check_values q text.now (lent literals.old pairs.old added.old values.old) }
{
    let mut count = 0;
    let outcome = outcome(q, text, literals, pairs, added, values, &mut count);
    Checked { outcome, count }
}
