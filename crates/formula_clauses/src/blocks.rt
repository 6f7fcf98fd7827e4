// The blocks of a request's clauses, and a clause of a block by its number there.
ghost use Rattle.std.specs.Prelude.{◌≡◌, [], ◌*◌, ◌+◌, ◌-◌, ◌^◌, ◌≤◌, ◌<◌, get_or};
ghost use Rattle.formula.specs.Clause.{literals_of, Packed};
ghost use Rattle.formula.specs.Count.{split, variables_before};
ghost use Rattle.formula_clauses.specs.Block.{block_of, block_variables, block_count, block_literals, block_formula, clauses_in, Fits};

use crate::row::Row;
use crate::{Block, groups, off_row, on_row, variables};
use formula::Clause;
use request::numbers::GoodRequest;
use rows::Kind;

// The number of a request's rows.
pub(crate) fn row_count(good: GoodRequest) -> u32
    ensures { (result ≡ 2 ^ good.request.n) × (result ≤ 16) }
{
    1u32 << good.request.n
}

// So much for each on row below row k and so much for each off row: the on rows are the ones of the table, and the off rows are what
// is left without the ones of the free rows.
pub(crate) fn weighted(good: GoodRequest, k: u32, on: u32, off: u32) -> u32
    requires { (k ≤ 2 ^ good.request.n) × (on ≤ 50000) × (off ≤ 50000) }
    ensures { (result ≡ split good.request on off k) × (result ≤ 100000000) }
{
    let on_rows = rows::rows_below(good.request.table, k as u8);
    let free_rows = rows::rows_below(good.request.free, k as u8);
    on_rows * on + (k - on_rows - free_rows) * off
}

// The variables before row k.
pub(crate) fn variables_before(good: GoodRequest, k: u32) -> u16
    requires { k ≤ 2 ^ good.request.n }
    ensures { result ≡ variables_before good.request k }
{
    let on = on_row::on_row_variables(good) as u32;
    let off = off_row::off_row_variables(good) as u32;
    let all = variables::network_variables(good.request.n, good.request.r)
        + weighted(good, k, on, off);
    all as u16
}

// Block b of a request, groups 1 and 2 or that of a row, given the variables before that row.
pub(crate) fn block_from(good: GoodRequest, b: u32, before: u16) -> Block
    requires { (b ≤ 2 ^ good.request.n) × (before ≡ variables_before good.request (b - 1)) }
    ensures { (result ≡ block_of good.request b) × Fits good.request.n result }
{
    if b == 0 {
        return Block::Network;
    }
    let k = (b - 1) as u8;
    match rows::row_kind(good.request, k) {
        Kind::On => Block::On(before, k),
        Kind::Off => Block::Off(before, k),
        Kind::Free => Block::Free,
    }
}

// Block b of a request: groups 1 and 2, then a block for each row.
pub(crate) fn block_at(good: GoodRequest, b: u32) -> Block
    requires { b ≤ 2 ^ good.request.n }
    ensures { (result ≡ block_of good.request b) × Fits good.request.n result }
{
    if b == 0 {
        return Block::Network;
    }
    block_from(good, b, variables_before(good, b - 1))
}

// The same, and past the rows' blocks the block of no clauses.
pub(crate) fn block_there(good: GoodRequest, b: u32) -> Block
    ensures { (clauses_in good.request result ≡ block_formula good.request b) × Fits good.request.n result }
{
    if row_count(good) < b {
        return Block::Free;
    }
    block_at(good, b)
}

// The number of the variables of a block's row.
pub(crate) fn block_variables(good: GoodRequest, b: Block) -> u16
    ensures { (result ≡ block_variables good.request.r good.request.m b) × (result ≤ 465) }
{
    match b {
        Block::Network => 0,
        Block::On(_, _) => on_row::on_row_variables(good),
        Block::Off(_, _) => off_row::off_row_variables(good),
        Block::Free => 0,
    }
}

// The number of a block's clauses.
pub(crate) fn block_count(good: GoodRequest, b: Block) -> u32
    ensures { (result ≡ block_count good.request.n good.request.r good.request.m b) × (result ≤ 200000000) }
{
    match b {
        Block::Network => groups::network_count(good.request.n, good.request.r),
        Block::On(_, _) => on_row::on_row_count(good),
        Block::Off(_, _) => off_row::off_row_count(good),
        Block::Free => 0,
    }
}

// The number of its literals.
pub(crate) fn block_literals(good: GoodRequest, b: Block) -> u32
    ensures { (result ≡ block_literals good.request.n good.request.r good.request.m b) × (result ≤ 400000000) }
{
    match b {
        Block::Network => groups::network_literals(good.request.n, good.request.r),
        Block::On(_, _) => on_row::on_row_literals(good),
        Block::Off(_, _) => off_row::off_row_literals(good),
        Block::Free => 0,
    }
}

// The clause of a block with this number.
pub(crate) fn block_clause(good: GoodRequest, b: Block, number: u32) -> Clause
    requires { Fits good.request.n b × (number < block_count good.request.n good.request.r good.request.m b) }
    ensures { (literals_of result ≡ get_or (clauses_in good.request b) number []) × Packed result }
{
    match b {
        Block::Network => groups::network_at(good, number),
        Block::On(before, k) => on_row::on_row_at(Row::of(good, before, k), number),
        Block::Off(before, k) => off_row::off_row_at(Row::of(good, before, k), number),
        Block::Free => Clause::Run(0, 0),
    }
}
