// The words of a run of ids, which is what hints and deletions are.
ghost use Rattle.std.specs.Prelude.{◌≡◌, ◌+◌, IsNone, IfSome};
ghost use Rattle.numeral.specs.Number.{byte_at, number_at};
ghost use Rattle.numeral.specs.Number.Words.{Is};
ghost use Rattle.lrat.specs.Words.{plain_at, run, run_at};
ghost use Rattle.lrat.specs.Results.{place_of};

use numeral::Word;

// The word after the space at a place; none where no space stands there, or no number after it.
pub(crate) fn word(text: &[u8], at: usize) -> Option<Word>
    ensures none { IsNone result → run_at plain_at text.now at ≡ run 0 0 }
    ensures some { IfSome result (λ w. (byte_at text.now at ≡ 32) × Is (number_at text.now (at + 1) 0) w) }
{
    if numeral::byte(text, at) != b' ' {
        return None;
    }
    numeral::number(text, at + 1, false)
}

// Where a run of ids ends, from the space before the first on: the place after its 0; none where it has not the form.
pub(crate) fn end(text: &[u8], at: usize) -> Option<usize>
    ensures { result ≡ place_of (run_at plain_at text.now at).next }
{
    let mut id = word(text, at)?;
    // no counted index: a word says where the next one starts, and the 0 ends them
    while id.value != 0 {
        id = word(text, id.next)?;
    }
    Some(id.next)
}
