// The records of the clauses that a refutation adds, and a clause's literals by its record (documents 01, "Checking a refutation", and 02,
// U4): the caller's own bytes, by what the check left.
#![tactic(auto)]

ghost use Rattle.std.specs.Prelude.{◌≡◌, ◌+◌, ◌*◌, ◌≤◌, length, IfSome};
ghost use Rattle.added.specs.Record.{entries, first_with};
ghost use Rattle.added.specs.Part.{part_of};

// The entries of a record: the clause's id, and the offset and the length of its literals in the text.
pub const ENTRIES: usize = 3;

// The first of the first a records, as far as the slice has them whole, that has this id.
fn first(added: &[u32], a: u32, id: u32) -> Option<usize>
    ensures first { result ≡ first_with a added.now id }
    ensures inside { IfSome result (λ k. entries * k + entries ≤ length added.now) }
{
    let whole = added.len() / ENTRIES;
    for k in 0..whole.min(a as usize) {
        if added[ENTRIES * k] == id {
            return Some(k);
        }
    }
    None
}

// The literals of an added clause, by its id: the part of the text that the first of its records names, of c original clauses and a
// added ones; the empty part where there is no such record, or no such part.
pub fn part<'a>(text: &'a [u8], added: &[u32], c: u32, a: u32, id: u32) -> &'a [u8]
    ensures { result.now ≡ part_of text.now added.now c a id }
{
    if id <= c {
        return &[];
    }
    let Some(k) = first(added, a, id) else {
        return &[];
    };
    let at = added[ENTRIES * k + 1] as usize;
    let n = added[ENTRIES * k + 2] as usize;
    text.get(at..at + n).unwrap_or(&[])
}
