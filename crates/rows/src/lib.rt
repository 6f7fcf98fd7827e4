// Rows: of what kind each is, how many are set in a number, and the value of a literal on one.
#![tactic(auto)]

ghost use Rattle.std.specs.Prelude.{◌≡◌, Bool, ℕ, ◌*◌, ◌^◌, ◌≤◌, ◌<◌};
ghost use Rattle.request.specs.Numbers.{inputs_most, rows_most};
ghost use Rattle.rows.specs.Rows.{bit, set_below, kind_of, input_rows, literal_on, literal_value};

use request::{INPUTS, Request};

// The most rows, as many as the number of a table or of the free rows has bits.
pub const ROWS: u32 = 1 << INPUTS;

// What a row asks of a network: current, none, or nothing.
#[derive(Clone, Copy, Debug, PartialEq, Eq)]
pub enum Kind {
    On,
    Off,
    Free,
}

// The rows on which each input is 1, for n = 1 to the most inputs.
const INPUT_ROWS: [[u16; INPUTS as usize]; INPUTS as usize] = [
    [0x2, 0, 0, 0],
    [0xC, 0xA, 0, 0],
    [0xF0, 0xCC, 0xAA, 0],
    [0xFF00, 0xF0F0, 0xCCCC, 0xAAAA],
];

// Whether a number has row k.
fn has_row(rows: u16, k: u8) -> bool
    ensures { result ≡ bit rows k }
{
    (k as u32) < ROWS && (rows >> k) % 2 == 1
}

// The kind of row k of a request. All that treats rows of different kinds differently asks this.
#[tactic(auto, unfolding(crate::specs::Rows::kind_of))]
pub fn row_kind(q: Request, k: u8) -> Kind
    ensures { result ≡ kind_of q k }
{
    if has_row(q.table, k) {
        Kind::On
    } else if has_row(q.free, k) {
        Kind::Free
    } else {
        Kind::Off
    }
}

// How many rows a number has.
#[tactic(auto, using(crate::proofs::RowsLaws::ones_all))]
pub fn rows_in(rows: u16) -> u32
    ensures { result ≡ set_below rows rows_most }
{
    rows.count_ones()
}

// How many of them are below row k.
pub fn rows_below(rows: u16, k: u8) -> u32
    ensures { result ≡ set_below rows k }
{
    (rows as u32 % (1 << (k as u32).min(ROWS))).count_ones()
}

// The rows on which input v is 1.
#[tactic(auto, unfolding(crate::specs::Rows::input_rows, crate::specs::Rows::input_table))]
fn input_rows(n: u8, v: u8) -> u16
    requires { (1 ≤ n) × (n ≤ inputs_most) × (v < n) }
    ensures { result ≡ input_rows n v }
{
    INPUT_ROWS[(n - 1) as usize][v as usize]
}

// The value of literal v on row k: an input, or the complement of one.
#[tactic(auto, using(crate::proofs::RowsLaws::literal_input, crate::proofs::RowsLaws::literal_complement))]
fn literal_within(n: u8, k: u8, v: u8) -> bool
    requires { (1 ≤ n) × (n ≤ inputs_most) × (k < 2 ^ n) × (v < 2 * n) }
    ensures { result ≡ literal_on n k v }
{
    if v < n {
        has_row(input_rows(n, v), k)
    } else {
        !has_row(input_rows(n, v - n), k)
    }
}

// The same, and false where there is no such literal or row.
pub fn literal_on(n: u8, k: u8, v: u8) -> bool
    ensures { result ≡ literal_value n k v }
{
    if n < 1 || INPUTS < n || 1 << n <= k as u32 || 2 * n <= v {
        return false;
    }
    literal_within(n, k, v)
}
