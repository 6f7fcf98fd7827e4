// Reading a request from bytes of any content and length. The line's form is tested whole before any of its numbers: 1 unless
// it is four non-empty runs of digits, the second of digits and "-", with one space between and a newline last. Then n, the table,
// r and M, in this order.
#![tactic(auto)]

ghost use Rattle.std.specs.Prelude.{◌≡◌, ◌≤◌, ◌<◌, Bool, true, false, List, ℕ, IfOk, length};
ghost use Rattle.request.specs.Numbers.{inputs_most, rows_most};
ghost use Rattle.request.specs.Line.{number_of, values_of, field_character, single, row_character, is_table, marked, request_number, request_values, request_of, numbers_of};
ghost use Rattle.request_read.specs.Field.{field_end, digit_within};
ghost use Rattle.request_read.specs.Part.{Runs};

use refusal::Refusal;
use request::{INPUTS, Request, SERIES, SWITCHES};

// Whether a byte may stand in n, r or M: a digit,
fn in_number(b: u8) -> bool
    ensures { result ≡ field_character false b }
{
    b.is_ascii_digit()
}

// and in the table "-" too.
fn in_table(b: u8) -> bool
    ensures { result ≡ field_character true b }
{
    in_number(b) || b == b'-'
}

// The end of the run of bytes that pass a test, from a place on. A run that is empty, or has not the byte `after` behind it, is refused.
fn field_end<F: Fn(u8) -> bool>(
    text: &[u8],
    from: usize,
    after: u8,
    test: F,
) -> Result<usize, Refusal>
    requires calls { F.IsAlwaysCallable test }
    requires inside { from ≤ length text.now }
    ensures end { (p : ℕ → Bool) → ((b : ℕ) (x : Bool) → F.post test b x → x ≡ p b) → result ≡ field_end p text.now from after }
    ensures run { IfOk result (λ end. (from < end) × (end < length text.now)) }
{
    match text[from..].iter().position(|b| !test(*b)) {
        Some(run) if 0 < run && text[from + run] == after => Ok(from + run),
        _ => Err(Refusal::RequestLine),
    }
}

// The digit that a run of one character is, if it is at most `most`; a higher one and a run of another length are refused.
fn one_digit(run: &[u8], most: u8, refusal: Refusal) -> Result<u8, Refusal>
    requires { most < 10 }
    ensures { result ≡ digit_within (single run.now 0 (length run.now)) most refusal }
{
    let [b] = run else {
        return Err(refusal);
    };
    let digit = b.saturating_sub(b'0');
    if most < digit {
        Err(refusal)
    } else {
        Ok(digit)
    }
}

// Whether a byte is the character of a row: 0, 1, or "-" for a free row.
fn is_row(b: u8) -> bool
    ensures { result ≡ row_character b }
{
    matches!(b, b'0' | b'1' | b'-')
}

// Whether a run is a table of 2^n such characters.
fn is_table(run: &[u8], n: u8) -> bool
    requires { n ≤ inputs_most }
    ensures { result ≡ is_table run.now 0 (length run.now) n }
{
    run.len() == 1usize << n && run.iter().all(|b| is_row(*b))
}

// The rows of a run that have the character mark, row 0 the lowest bit.
fn rows_marked(run: &[u8], mark: u8) -> u16
    requires { length run.now ≤ rows_most }
    ensures { result ≡ marked mark run.now 0 (length run.now) }
{
    let mut rows = 0;
    for b in run.iter().rev() {
        rows = 2 * rows + u16::from(*b == mark);
    }
    rows
}

// The request of a line's four runs, or the first refusal of its numbers.
fn numbers(n: &[u8], table: &[u8], r: &[u8], m: &[u8]) -> Result<Request, Refusal>
    ensures { (s : List ℕ) (a b c d : ℕ) → Runs s a b c d n.now table.now r.now m.now → result ≡ numbers_of s a b c d }
{
    let n = one_digit(n, INPUTS, Refusal::Inputs)?;
    if n < 1 {
        return Err(Refusal::Inputs);
    }
    if !is_table(table, n) {
        return Err(Refusal::Table);
    }
    let r = one_digit(r, SWITCHES, Refusal::Switches)?;
    let m = one_digit(m, SERIES, Refusal::SeriesBound)?;
    Ok(Request {
        n,
        table: rows_marked(table, b'1'),
        free: rows_marked(table, b'-'),
        r,
        m,
    })
}

pub fn read_request(text: &[u8]) -> Result<Request, Refusal>
    ensures answer { result ≡ request_of text.now }
    ensures number { number_of result ≡ request_number text.now }
    ensures values { values_of result ≡ request_values text.now }
{
    let a = field_end(text, 0, b' ', |b| in_number(b))?;
    let b = field_end(text, a + 1, b' ', |b| in_table(b))?;
    let c = field_end(text, b + 1, b' ', |b| in_number(b))?;
    let d = field_end(text, c + 1, b'\n', |b| in_number(b))?;
    if d + 1 != text.len() {
        return Err(Refusal::RequestLine);
    }
    numbers(
        &text[..a],
        &text[a + 1..b],
        &text[b + 1..c],
        &text[c + 1..d],
    )
}
