// The lines of a text, one after the other. Decided here: 16 for a bad form, 17 for an id that is not above C and the last one, 22 for
// no room for a record, 19 for a deletion of a clause that does not stand, 23 where the text ends. 18 comes from literals.rt, 19 to 21
// of a hint from hints.rt.
//
// The added records and the values are lent by a `&mut` of their own beside what only reads. A struct of both would be no plainer: what
// changes the records does not change the values. Nor would one of the values and the stamp: one thing holds of them before a line's
// literals and another after, so that no ghost field says either. The number of added records is lent too, so that refusals go up by `?`.
ghost use Rattle.std.specs.Prelude.{◌≡◌, ◌+◌, ◌≤◌, ◌<◌, length};
ghost use Rattle.lrat.specs.Words.{ids_at, deletion_at, addition_at};
ghost use Rattle.lrat.specs.Bytes.{DuringLine, BeforeLine, zeros, formula_in};
ghost use Rattle.lrat.specs.State.{delete_all, AddedInText};
ghost use Rattle.lrat.specs.Check.{step_of, line_step, lines_of};
ghost use Rattle.lrat.specs.Results.{Leaves, Deletes, Ends};

use crate::clause::{Clauses, Store};
use crate::stamp::Stamp;
use crate::{literals, records, words};
use lrat::Step;
use refusal::Refusal;

// Deletes the clauses of the ids after the place at, left to right, up to one that does not stand.
fn delete(store: Store, at: usize, a: usize, added: &mut [u32]) -> Result<(), Refusal>
    requires { (at ≤ length store.text.now) × AddedInText store.count store.text.now a added.old (store.variables + 1) }
    ensures { Deletes (delete_all store.entry.count a added.old (ids_at store.entry.text.now at)) result added.new }
{
    let mut p = at;
    // no counted index: a word says where the next one starts, and the 0 ends them
    while let Some(id) = numeral::number(store.text, p + 1, false) {
        let x = id.value;
        if x == 0 {
            return Ok(());
        }
        if store.count < x {
            let Some(k) = (Clauses { store, added, a }).standing(x) else {
                return Err(Refusal::NotStanding);
            };
            records::empty(added, k);
        }
        p = id.next;
    }
    Ok(())
}

// A deletion whose ids start after the place at.
fn deletion(store: Store, at: usize, a: usize, added: &mut [u32]) -> Result<Option<Step>, Refusal>
    requires { AddedInText store.count store.text.now a added.old (store.variables + 1) }
    ensures { Leaves (step_of (formula_in store.entry.count store.entry.literals.now store.entry.pairs.now)
        store.entry.text.now store.entry.variables a added.old (deletion_at store.entry.text.now at)) result added.new }
{
    let newline = words::end(store.text, at).ok_or(Refusal::LineForm)?;
    if numeral::byte(store.text, newline) != b'\n' {
        return Err(Refusal::LineForm);
    }
    delete(store, at, a, added)?;
    Ok(Some(Step {
        a,
        next: newline + 1,
    }))
}

// An addition whose literals start after the place at; none after the empty clause.
fn addition(
    store: Store,
    id: usize,
    at: usize,
    a: usize,
    added: &mut [u32],
    values: &mut [u8],
    stamp: Stamp,
) -> Result<Option<Step>, Refusal>
    requires id_small { id < 1000000000 }
    requires values_len { length values.old ≡ store.variables + 1 }
    requires additions { AddedInText store.count store.text.now a added.old (store.variables + 1) }
    requires before_line { BeforeLine stamp.byte values.old }
    ensures step { Leaves (step_of (formula_in store.entry.count store.entry.literals.now store.entry.pairs.now)
        store.entry.text.now store.entry.variables a added.old (addition_at store.entry.text.now id at)) result added.new }
    ensures bytes { DuringLine stamp.byte values.new }
{
    let literals = literals::set_false(store.text, at, store.variables, values, stamp).ok_or(
        Refusal::LineForm,
    )?;
    let hints = Clauses { store, added, a }
        .hints(literals.next, values, stamp)
        .ok_or(Refusal::LineForm)?;
    let newline = hints.next;
    let outcome = hints.outcome;
    if numeral::byte(store.text, newline) != b'\n' {
        return Err(Refusal::LineForm);
    }
    if id <= records::last(added, a, store.count) {
        return Err(Refusal::LineId);
    }
    if !literals.good {
        return Err(Refusal::LineLiteral);
    }
    let end = literals.end;
    let empty = end == at;
    if !empty && !records::has_room(added, a) {
        return Err(Refusal::AddedShort);
    }
    outcome?;
    if empty {
        return Ok(None);
    }
    records::write(
        added,
        a,
        id as u32,
        (at + 1) as u32,
        (end - (at + 1)) as u32,
    );
    Ok(Some(Step {
        a: a + 1,
        next: newline + 1,
    }))
}

// The line at a place; none after the empty clause.
fn line(
    store: Store,
    at: usize,
    a: usize,
    added: &mut [u32],
    values: &mut [u8],
    stamp: Stamp,
) -> Result<Option<Step>, Refusal>
    requires values_len { length values.old ≡ store.variables + 1 }
    requires additions { AddedInText store.count store.text.now a added.old (store.variables + 1) }
    requires before_line { BeforeLine stamp.byte values.old }
    ensures step { Leaves (line_step (formula_in store.entry.count store.entry.literals.now store.entry.pairs.now)
        store.entry.text.now store.entry.variables a added.old at) result added.new }
    ensures bytes { DuringLine stamp.byte values.new }
{
    let id = numeral::number(store.text, at, false).ok_or(Refusal::LineForm)?;
    let next = id.next;
    if numeral::byte(store.text, next) != b' ' {
        return Err(Refusal::LineForm);
    }
    if numeral::byte(store.text, next + 1) == b'd' {
        return deletion(store, next + 2, a, added);
    }
    addition(store, id.value, next, a, added, values, stamp)
}

// The lines of the text from the first on, over values that are cleared, and the number of records that they add.
fn follow(
    store: Store,
    added: &mut [u32],
    values: &mut [u8],
    count: &mut u32,
) -> Result<(), Refusal>
    requires values_len { length values.old ≡ store.variables + 1 }
    requires before_line { BeforeLine 1 values.old }
    requires none_added { count.old ≡ 0 }
    ensures { Ends (lines_of (formula_in store.entry.count store.entry.literals.now store.entry.pairs.now)
        store.entry.text.now store.entry.variables added.old) (record { outcome = result; count = count.new }) added.new }
{
    let mut at = 0;
    let mut stamp = 1;
    // no counted index: a line says where the next one starts
    while at < store.text.len() {
        let during = Stamp { byte: stamp };
        let Some(step) = line(store, at, *count as usize, added, values, during)? else {
            return Ok(());
        };
        *count = step.a as u32;
        at = step.next;
        if lrat::LAST_STAMP < stamp + 2 {
            values.fill(0);
            stamp = 1;
        } else {
            stamp += 2;
        }
    }
    Err(Refusal::TextEnds)
}

// The lines of the text: what they end in, and the number of added records. The values are cleared before and after. Not inlined, so
// that the loops over literals have the registers for themselves: 2 % fewer instructions for a check.
#[inline(never)]
pub(crate) fn lines(
    store: Store,
    added: &mut [u32],
    values: &mut [u8],
    count: &mut u32,
) -> Result<(), Refusal>
    requires values_len { length values.old ≡ store.variables + 1 }
    requires none_added { count.old ≡ 0 }
    ensures lines { Ends (lines_of (formula_in store.entry.count store.entry.literals.now store.entry.pairs.now)
        store.entry.text.now store.entry.variables added.old) (record { outcome = result; count = count.new }) added.new }
    ensures bytes { values.new ≡ zeros (store.entry.variables + 1) }
{
    values.fill(0);
    let outcome = follow(store, added, values, count);
    values.fill(0);
    outcome
}
