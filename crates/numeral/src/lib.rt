// Numbers in answers and refutations (document 01: "decimal and have at most nine digits, single spaces, no leading zero, no
// \"-0\""): one scanner, which both readers share.
#![tactic(auto)]

ghost use Rattle.std.specs.Prelude.{◌≡◌};
ghost use Rattle.numeral.specs.Number.{byte_at, word, number_at, literal_at};
ghost use Rattle.numeral.specs.Number.Words.{sign_number, word_of};

// A number in the text: whether a minus stands before it, its value, and the place after it.
#[derive(Clone, Copy, Debug, PartialEq, Eq)]
pub struct Word {
    pub minus: bool,
    pub value: usize,
    pub next: usize,
}

// The same for a caller with a number for what stands before: that number, but 0 at a number 0, then the value and the place after it.
// All three are 0 where there is no number.
#[derive(Clone, Copy, Debug, PartialEq, Eq)]
pub struct Scanned {
    pub minus: u8,
    pub value: usize,
    pub next: usize,
}

// The byte at a place, 0 past the end, as the definitions have it: no reader seeks a 0, and with an Option each test of a byte would
// have a case more.
pub fn byte(text: &[u8], at: usize) -> u8
    ensures { result ≡ byte_at text.now at }
{
    text.get(at).copied().unwrap_or(0)
}

// The number from at on, after a minus or none.
pub fn number(text: &[u8], at: usize, minus: bool) -> Option<Word>
    ensures { result ≡ word_of (number_at text.now at (sign_number minus)) }
{
    let first = byte(text, at);
    if first == b'0' {
        if minus {
            return None;
        }
        return Some(Word {
            minus,
            value: 0,
            next: at + 1,
        });
    }
    if !first.is_ascii_digit() {
        return None;
    }
    let mut value = usize::from(first - b'0');
    let stop = text.len().min(at + 9);
    for p in at + 1..stop {
        let digit = text[p];
        if !digit.is_ascii_digit() {
            return Some(Word {
                minus,
                value,
                next: p,
            });
        }
        value = value * 10 + usize::from(digit - b'0');
    }
    Some(Word {
        minus,
        value,
        next: stop,
    })
}

// The same, with a minus where one stands. Inlined into the loops that read literals: 3 to 15 % fewer instructions for a check.
#[inline(always)]
pub fn literal(text: &[u8], at: usize) -> Option<Word>
    ensures { result ≡ word_of (literal_at text.now at) }
{
    if byte(text, at) == b'-' {
        return number(text, at + 1, true);
    }
    number(text, at, false)
}

// The number from at on, after a minus where `minus` is 1, and after none where it is another number.
pub fn number_after(text: &[u8], at: usize, minus: u8) -> Scanned
    ensures { word result.minus result.value result.next ≡ number_at text.now at minus }
{
    match number(text, at, minus == 1) {
        Some(w) => Scanned {
            minus: if byte(text, at) == b'0' { 0 } else { minus },
            value: w.value,
            next: w.next,
        },
        None => Scanned {
            minus: 0,
            value: 0,
            next: 0,
        },
    }
}
