// The hints of a line. Decided here: 19 for a clause that does not stand, 20 for one that is neither a conflict nor a unit, 21 where
// they are spent without conflict.
ghost use Rattle.std.specs.Prelude.{◌≡◌, ◌+◌, ◌≤◌, length, IfSome};
ghost use Rattle.refusal.specs.Refusal.{number_of};
ghost use Rattle.lrat.specs.Bytes.{DuringLine, formula_in};
ghost use Rattle.lrat.specs.Rules.{spent};
ghost use Rattle.lrat.specs.State.{AfterHint, AfterHints};
ghost use Rattle.lrat.specs.Results.{hint_code, hints_read};

use crate::clause::{Clauses, Values};
use crate::stamp::Stamp;
use crate::words;
use lrat::{Found, HintsRead};
use refusal::Refusal;

impl Clauses<'_> {
    // One hint: what it ends the hints in, Ok in the conflict, 19 or 20; none where a literal was set true and the hints go on.
    fn hint(self, x: usize, values: &mut [u8], stamp: Stamp) -> Option<Result<(), Refusal>>
        requires positive { 1 ≤ x }
        requires values_len { length values.old ≡ self.store.variables + 1 }
        requires during_line { DuringLine stamp.byte values.old }
        ensures after { AfterHint (formula_in self.entry.store.count self.entry.store.literals.now self.entry.store.pairs.now)
            self.entry.store.text.now self.entry.a self.entry.added.now stamp.byte x values.old (hint_code result) values.new }
        ensures ends { IfSome result (λ outcome. number_of outcome ≡ spent → ⊥) }
    {
        let Some(found) = self.evaluate(
            x,
            Values {
                bytes: values,
                stamp,
            },
        ) else {
            return Some(Err(Refusal::NotStanding));
        };
        match found {
            Found::AllFalse => Some(Ok(())),
            Found::Unset(variable, minus) => {
                values[variable] = stamp.of(!minus);
                None
            }
            Found::Other => Some(Err(Refusal::NotUnit)),
        }
    }

    // Hints, read while their form is, from the space before the first on; none where they have not the form. After the one that ends
    // them, the others are read for their form alone.
    pub(crate) fn hints(self, at: usize, values: &mut [u8], stamp: Stamp) -> Option<HintsRead>
        requires values_len { length values.old ≡ self.store.variables + 1 }
        requires during_line { DuringLine stamp.byte values.old }
        ensures read { AfterHints (formula_in self.entry.store.count self.entry.store.literals.now self.entry.store.pairs.now)
            self.entry.store.text.now at self.entry.a self.entry.added.now stamp.byte values.old (hints_read result) values.new }
        ensures there { IfSome result (λ r. r.next ≡ 0 → ⊥) }
    {
        let mut p = at;
        // no counted index: a word says where the next one starts, and the 0 ends them
        loop {
            let id = words::word(self.store.text, p)?;
            if id.value == 0 {
                return Some(HintsRead {
                    next: id.next,
                    outcome: Err(Refusal::HintsSpent),
                });
            }
            if let Some(outcome) = self.hint(id.value, values, stamp) {
                let next = words::end(self.store.text, id.next)?;
                return Some(HintsRead { next, outcome });
            }
            p = id.next;
        }
    }
}
