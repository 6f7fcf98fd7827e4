// The literals of a line, set false while their form is read. Decided here: whether one is outside ±V or a variable stands twice,
// which is 18.
ghost use Rattle.std.specs.Prelude.{◌≡◌, ◌+◌, length, IfSome};
ghost use Rattle.lrat.specs.Bytes.{BeforeLine, AfterLiterals};
ghost use Rattle.lrat.specs.Results.{literals_read};

use crate::stamp::Stamp;
use lrat::LiteralsRead;

// Sets each literal of a line false while their form is read, from the space before the first on; none where they have not the form.
// The values and their stamp are two parameters here and in the hints, where the values change. A struct of them would be no plainer:
// before a line the bytes have not yet what the ghost field of `Values` says.
pub(crate) fn set_false(
    text: &[u8],
    at: usize,
    variables: usize,
    values: &mut [u8],
    stamp: Stamp,
) -> Option<LiteralsRead>
    requires values_len { length values.old ≡ variables + 1 }
    requires before_line { BeforeLine stamp.byte values.old }
    ensures read { AfterLiterals stamp.byte variables text.now at (literals_read result) values.new }
    ensures there { IfSome result (λ r. r.next ≡ 0 → ⊥) }
{
    let mut end = at;
    let mut good = true;
    // no counted index: a word says where the next one starts, and the 0 ends them
    loop {
        if numeral::byte(text, end) != b' ' {
            return None;
        }
        let literal = numeral::literal(text, end + 1)?;
        let next = literal.next;
        if literal.value == 0 {
            return Some(LiteralsRead { end, next, good });
        }
        if variables < literal.value || stamp.byte <= values[literal.value] {
            good = false;
        } else {
            values[literal.value] = stamp.of(literal.minus);
        }
        end = next;
    }
}
