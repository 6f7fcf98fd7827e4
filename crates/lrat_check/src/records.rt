// The records of the added clauses (document 02, U4), by their entries in the lent slice: an id, an offset and a length. Decided here:
// which record has an id, and whether the slice has room for one more. The only module of the check that knows where an entry lies.
ghost use Rattle.std.specs.Prelude.{◌≡◌, ◌+◌, ◌<◌};
ghost use Rattle.added.specs.Record.{Room, fits, id_of, offset_of, length_of, recorded, emptied, first_with};
ghost use Rattle.lrat.specs.State.{last_id, Rising};

use added::ENTRIES;

// The entries of record k.
#[tactic(auto, unfolding(added::specs::Record::id_of))]
fn id(added: &[u32], k: usize) -> usize
    requires { Room (k + 1) added.now }
    ensures { result ≡ id_of added.now k }
{
    added[ENTRIES * k] as usize
}

#[tactic(auto, unfolding(added::specs::Record::offset_of))]
pub(crate) fn offset(added: &[u32], k: usize) -> usize
    requires { Room (k + 1) added.now }
    ensures { result ≡ offset_of added.now k }
{
    added[ENTRIES * k + 1] as usize
}

#[tactic(auto, unfolding(added::specs::Record::length_of))]
pub(crate) fn length(added: &[u32], k: usize) -> usize
    requires { Room (k + 1) added.now }
    ensures { result ≡ length_of added.now k }
{
    added[ENTRIES * k + 2] as usize
}

// Whether there is room for a record after a of them.
#[tactic(auto, unfolding(added::specs::Record::fits))]
pub(crate) fn has_room(added: &[u32], a: usize) -> bool
    requires { Room a added.now }
    ensures { result ≡ fits (a + 1) added.now }
{
    ENTRIES * (a + 1) <= added.len()
}

// Writes record k.
#[tactic(auto, unfolding(added::specs::Record::recorded))]
pub(crate) fn write(added: &mut [u32], k: usize, id: u32, offset: u32, length: u32)
    requires { Room (k + 1) added.old }
    ensures { added.new ≡ recorded added.old k id offset length }
{
    added[ENTRIES * k] = id;
    added[ENTRIES * k + 1] = offset;
    added[ENTRIES * k + 2] = length;
}

// Deletes record k: its id and its place stay.
#[tactic(auto, unfolding(added::specs::Record::emptied))]
pub(crate) fn empty(added: &mut [u32], k: usize)
    requires { Room (k + 1) added.old }
    ensures { added.new ≡ emptied added.old k }
{
    added[ENTRIES * k + 2] = 0;
}

// The last id of a records, c before the first.
pub(crate) fn last(added: &[u32], a: usize, c: usize) -> usize
    requires { Room a added.now }
    ensures { result ≡ last_id c a added.now }
{
    if a == 0 {
        return c;
    }
    id(added, a - 1)
}

// The record with the id x, above c, of a records: it is the one that would have the id if none were left out, or it is searched for.
pub(crate) fn find(added: &[u32], a: usize, c: usize, x: usize) -> Option<usize>
    requires room { Room a added.now }
    requires rising { Rising c a added.now }
    requires above { c < x }
    ensures { result ≡ first_with a added.now x }
{
    let k = x - c - 1;
    if k < a && id(added, k) == x {
        return Some(k);
    }
    search(added, a, c, x)
}

// The same by halving. As ids rise, a record lies as many places at most from another one, or from an end, as their ids differ: just as
// many where none is left out between, and so it is looked for there as soon as that place is among those that are left.
#[inline(never)]
fn search(added: &[u32], a: usize, c: usize, x: usize) -> Option<usize>
    requires room { Room a added.now }
    requires rising { Rising c a added.now }
    requires above { c < x }
    ensures { result ≡ first_with a added.now x }
{
    let last = last(added, a, c);
    if last < x {
        return None;
    }
    let mut low = a.saturating_sub(last - x + 1);
    let mut high = a.min(x - c);
    while low < high {
        let middle = low + (high - low) / 2;
        let there = id(added, middle);
        if there == x {
            return Some(middle);
        }
        if there < x {
            low = middle + 1;
            let k = middle + (x - there);
            if k < high {
                if id(added, k) == x {
                    return Some(k);
                }
                high = k;
            }
        } else {
            high = middle;
            if there - x <= middle - low {
                let k = middle - (there - x);
                if id(added, k) == x {
                    return Some(k);
                }
                low = k + 1;
            }
        }
    }
    None
}
