// The values that v lines name.
ghost use Rattle.std.specs.Prelude.{◌≡◌, ◌≤◌, ◌<◌, length};
ghost use Rattle.cnf.specs.Cnf.{literal_holds, clause_holds};
ghost use Rattle.prelude.specs.Lists.{Each};
ghost use Rattle.formula.specs.Clause.{run, literals_of};
ghost use Rattle.formula.specs.Count.{network_count, values_most, variables_most};
ghost use Rattle.answer.specs.Values.{NamedBy, refused_by, named_from, complete, assigned, holding};

use answer::Values;
use cnf::Literal;
use formula::Clause;
use formula_clauses::groups;
use refusal::Refusal;
use request::numbers::GoodRequest;

// What an answer may name: V, and the number of X and L variables, whose values are kept.
#[derive(Clone, Copy)]
pub(crate) struct Named {
    pub top: usize,
    pub keep: usize,
    ghost few: { keep ≤ values_most },
}

impl Named {
    // Whether variable x is refused where it is named.
    #[tactic(auto, unfolding(answer::specs::Values::refused_by))]
    fn refuses(self, values: &[u8], x: usize) -> bool
        requires { (0 < x) × (self.keep ≤ length values.now) }
        ensures { result ≡ refused_by self.top self.keep values.now x }
    {
        self.top < x || x <= self.keep && values[x - 1] != 0
    }

    // Takes the numbers of a line that has the form, from the place before the first; each is read from where the last ends.
    pub(crate) fn take(self, text: &[u8], at: usize, values: &mut Values) -> Result<(), Refusal>
        ensures { NamedBy (named_from (length text.now) self.top self.keep text.now at values.old) result values.new }
    {
        let mut p = at;
        while p < text.len() {
            let Some(w) = numeral::literal(text, p + 1) else {
                break;
            };
            if w.value == 0 {
                return Ok(());
            }
            if self.refuses(values, w.value) {
                return Err(Refusal::AnswerVariable);
            }
            if w.value <= self.keep {
                values[w.value - 1] = 1 + u8::from(w.minus);
            }
            if numeral::byte(text, w.next) == b'\n' {
                return Ok(());
            }
            p = w.next;
        }
        Ok(())
    }
}

// Whether the first keep values are all named.
pub(crate) fn all_named(keep: usize, values: &[u8]) -> bool
    requires { keep ≤ length values.now }
    ensures { result ≡ complete keep values.now }
{
    values[..keep].iter().all(|value| *value != 0)
}

// Whether a literal holds under the values.
fn literal_holds(values: &[u8], l: Literal) -> bool
    ensures { result ≡ literal_holds (assigned values.now) l }
{
    answer::is_true(values, l.variable) != l.negative
}

// Whether one of count variables from first on is named true.
fn run_holds(values: &[u8], first: u32, count: u32) -> bool
    requires { Each (λ l. l.variable ≤ variables_most) (run first count) }
    ensures { result ≡ clause_holds (assigned values.now) (run first count) }
{
    (first..first + count).any(|x| answer::is_true(values, x))
}

// Whether a clause holds under the values.
fn clause_holds(values: &[u8], c: Clause) -> bool
    requires { Each (λ l. l.variable ≤ variables_most) (literals_of c) }
    ensures { result ≡ clause_holds (assigned values.now) (literals_of c) }
{
    match c {
        Clause::Run(first, count) => run_holds(values, first, count),
        Clause::One(x) => literal_holds(values, x),
        Clause::Two(x, y) => literal_holds(values, x) || literal_holds(values, y),
        Clause::Three(x, y, z) => literal_holds(values, x)
            || literal_holds(values, y)
            || literal_holds(values, z),
    }
}

// Whether the clauses of groups 1 and 2 hold under the values.
pub(crate) fn clauses_hold(good: GoodRequest, values: &[u8]) -> bool
    ensures { result ≡ holding good.request (network_count good.request.n good.request.r) values.now }
{
    let q = good.request;
    (0..groups::network_count(q.n, q.r)).all(|k| clause_holds(values, groups::network_clause(q, k)))
}
