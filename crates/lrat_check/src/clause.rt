// A clause by its id: whether it stands, and what its literals are under the values. An original clause is read from the store,
// an added one from the text, where its line has been read already.
ghost use Rattle.std.specs.Prelude.{◌≡◌, true, false, ◌+◌, ◌-◌, ◌≤◌, ◌<◌, map, length, MatchOption};
ghost use Rattle.numeral.specs.Number.{byte_at, number_at, literal_at};
ghost use Rattle.numeral.specs.Number.Words.{sign_number, Is};
ghost use Rattle.lrat.specs.Words.{text_limit, literals_at, run_at};
ghost use Rattle.lrat.specs.Bytes.{DuringLine, found_in, Below, literal_from, formula_in};
ghost use Rattle.lrat.specs.Bytes.Scan.{with_literal};
ghost use Rattle.lrat.specs.State.{stands_in, Standing, clause_at, values_limit, OriginalsInStore, AddedInText, Spelled};
ghost use Rattle.lrat.specs.State.Props.{clause_props};

use crate::records;
use crate::stamp::Stamp;
use lrat::Found;
use numeral::Word;

// What stays the same during a check: the text, and the original clauses, which lie in the store, with V.
#[derive(Clone, Copy)]
pub(crate) struct Store<'a> {
    pub(crate) text: &'a [u8],
    pub(crate) literals: &'a [i32],
    pub(crate) pairs: &'a [u32],
    pub(crate) count: usize,
    pub(crate) variables: usize,
    ghost originals: { OriginalsInStore count literals.now pairs.now (variables + 1) } by { Prim.hlevel clause_props },
    ghost values_fit: { variables + 1 ≤ values_limit },
    ghost text_fits: { length text.now ≤ text_limit },
}

// The clauses that there are at a line: the original ones, and a added ones, whose records say where the text has them.
#[derive(Clone, Copy)]
pub(crate) struct Clauses<'a> {
    pub(crate) store: Store<'a>,
    pub(crate) added: &'a [u32],
    pub(crate) a: usize,
    ghost additions: { AddedInText store.count store.text.now a added.now (store.variables + 1) } by { Prim.hlevel clause_props },
}

// The values during a line: a byte below the line's stamp is an unset variable's, the stamp is false, the one above it true.
#[derive(Clone, Copy)]
pub(crate) struct Values<'a> {
    pub(crate) bytes: &'a [u8],
    pub(crate) stamp: Stamp,
    ghost during_line: { DuringLine stamp.byte bytes.now },
}

impl Values<'_> {
    // What a clause is with a literal more, by what it is without it. Most literals are false, so that a literal's byte is compared
    // with that of "false" before unset and true are told apart.
    fn with(self, found: Found, variable: usize, minus: bool) -> Found
        requires { variable < length self.bytes.now }
        ensures { result ≡ with_literal self.entry.stamp.byte self.entry.bytes.now found (record { variable = variable; negative = minus }) }
    {
        let byte = self.bytes[variable];
        if byte == self.stamp.of(minus) {
            return found;
        }
        if self.stamp.byte <= byte {
            return Found::Other;
        }
        match found {
            Found::AllFalse => Found::Unset(variable, minus),
            Found::Unset(..) | Found::Other => Found::Other,
        }
    }
}

// The digits of a number that is known to stand at a place, with a space after it, after a minus or none: they are read without a
// test of their form, up to the space. The scanner of numeral in its place takes 3 to 12 % more instructions for a check from 13 kB to
// 977 kB, even inlined.
fn known_digits(text: &[u8], at: usize, minus: bool) -> Word
    requires there { (number_at text.now at (sign_number minus)).next ≡ 0 → ⊥ }
    requires spaced { byte_at text.now (number_at text.now at (sign_number minus)).next ≡ 32 }
    ensures { Is (number_at text.now at (sign_number minus)) result }
{
    let mut value = usize::from(text[at] - b'0');
    let mut next = at + 1;
    // the space ends the number, and no count of its digits: a `for` would need a way out that is never taken
    while text[next] != b' ' {
        value = value * 10 + usize::from(text[next] - b'0');
        next += 1;
    }
    Word { minus, value, next }
}

// The same of a literal.
fn known_literal(text: &[u8], at: usize) -> Word
    requires there { (literal_at text.now at).next ≡ 0 → ⊥ }
    requires spaced { byte_at text.now (literal_at text.now at).next ≡ 32 }
    ensures { Is (literal_at text.now at) result }
{
    if text[at] == b'-' {
        return known_digits(text, at + 1, true);
    }
    known_digits(text, at, false)
}

// What the clause is under the values whose first literal the text has at a place.
fn evaluate_added(text: &[u8], at: usize, values: Values) -> Found
    requires { Spelled text.now at (length values.bytes.now) }
    ensures { result ≡ found_in values.entry.stamp.byte values.entry.bytes.now (literals_at text.now (at - 1)) }
{
    let mut found = Found::AllFalse;
    let mut word = known_literal(text, at);
    // no counted index: a word says where the next one starts, and the 0 ends them
    while word.value != 0 {
        found = values.with(found, word.value, word.minus);
        word = known_literal(text, word.next + 1);
    }
    found
}

// And the clause of some literals of the store.
fn evaluate_original(literals: &[i32], values: Values) -> Found
    requires below { Below (length values.bytes.now) (map literal_from literals.now) }
    ensures { result ≡ found_in values.entry.stamp.byte values.entry.bytes.now (map literal_from literals.now) }
{
    let mut found = Found::AllFalse;
    for literal in literals {
        found = values.with(
            found,
            literal.unsigned_abs() as usize,
            literal.is_negative(),
        );
    }
    found
}

impl Clauses<'_> {
    // The record of clause x, an added one; none where it does not stand.
    pub(crate) fn standing(self, x: usize) -> Option<usize>
        requires { self.store.count < x }
        ensures { MatchOption result (false ≡ stands_in self.entry.store.count self.entry.a self.entry.added.now x)
            (λ k. Standing self.entry.a self.entry.added.now x k) }
    {
        let k = records::find(self.added, self.a, self.store.count, x)?;
        if records::length(self.added, k) == 0 {
            return None;
        }
        Some(k)
    }

    // What clause x is under the values; none where it does not stand.
    pub(crate) fn evaluate(self, x: usize, values: Values) -> Option<Found>
        requires named { 1 ≤ x }
        requires long { length values.bytes.now ≡ self.store.variables + 1 }
        ensures { MatchOption result (false ≡ stands_in self.entry.store.count self.entry.a self.entry.added.now x)
            (λ found. (true ≡ stands_in self.entry.store.count self.entry.a self.entry.added.now x)
            × (found ≡ found_in values.entry.stamp.byte values.entry.bytes.now
            (clause_at (formula_in self.entry.store.count self.entry.store.literals.now self.entry.store.pairs.now) self.entry.store.text.now
            self.entry.a self.entry.added.now x))) }
    {
        if x <= self.store.count {
            let k = 2 * (x - 1);
            let from = self.store.pairs[k] as usize;
            let n = self.store.pairs[k + 1] as usize;
            return Some(evaluate_original(&self.store.literals[from..from + n], values));
        }
        let k = self.standing(x)?;
        Some(evaluate_added(self.store.text, records::offset(self.added, k), values))
    }
}
