// Storing clauses (document 01, "The clause store" and "Storing clauses").
//
// The store is two lent slices: the literals of all clauses, one clause after the other, as signed numbers, and for each clause a
// pair of offset and length in entries, flat, as document 01 and the C interface have them. What stands past T literals and 2C numbers
// stays. A refusal writes nothing.
ghost use Rattle.std.specs.Prelude.{◌≡◌, List, [], ◌∷◌, map, ℕ, ◌+◌, ◌*◌, ◌≤◌, ◌<◌, length, ℤ, IfOk};
ghost use Rattle.prelude.specs.Written.{written};
ghost use Rattle.refusal.specs.Refusal.{unless, number_of};
ghost use Rattle.cnf.specs.Cnf.{signed_of};
ghost use Rattle.formula.specs.Clause.{run, Low, literals_of};
ghost use Rattle.prelude.specs.Blocks.{flatten, pairs_from};
ghost use Rattle.formula.specs.Formula.{formula_of};
ghost use Rattle.formula.specs.Count.{counts_of};
ghost use Rattle.formula_clauses.specs.Block.{clauses_in, block_formula};
ghost use Rattle.formula_clauses.specs.Store.{signs, room_refusal, store_refusal, store_sizes, block_refusal, stored_literals, stored_pairs, Roomy, BlockRoom, block_sizes, block_literals_in, block_pairs_in};

use crate::{Block, blocks, count};
use cnf::Literal;
use formula::{Clause, Sizes};
use refusal::Refusal;
use request::Request;
use request::numbers::GoodRequest;

// The signed number of a literal. A request's variables are far below the bound, for which a From could not ask.
fn signed(literal: Literal) -> i32
    requires { literal.variable < 1000000 }
    ensures { result ≡ signed_of literal }
{
    let x = literal.variable as i32;
    if literal.negative { -x } else { x }
}

// Stores the positive literals of the variables from first on, one in each entry.
fn put_run(entries: &mut [i32], first: u32)
    requires { Low (run first (length entries.old)) }
    ensures { entries.new ≡ signs (run first (length entries.old)) }
{
    for (i, entry) in entries.iter_mut().enumerate() {
        *entry = signed(cnf::positive(first + i as u32));
    }
}

// Stores some literals, one in each entry.
fn put_all(entries: &mut [i32], these: &[Literal])
    requires { Low these.now × (length these.now ≡ length entries.old) }
    ensures { entries.new ≡ signs these.now }
{
    for (i, entry) in entries.iter_mut().enumerate() {
        *entry = signed(these[i]);
    }
}

// How many literals a clause has.
fn clause_size(c: Clause) -> usize
    ensures { result ≡ length (literals_of c) }
{
    match c {
        Clause::Run(_, count) => count as usize,
        Clause::One(_) => 1,
        Clause::Two(_, _) => 2,
        Clause::Three(_, _, _) => 3,
    }
}

// Stores a clause's literals, one in each entry.
fn put_clause(entries: &mut [i32], c: Clause)
    requires { Low (literals_of c) × (length (literals_of c) ≡ length entries.old) }
    ensures { entries.new ≡ signs (literals_of c) }
{
    match c {
        Clause::Run(first, _) => put_run(entries, first),
        Clause::One(x) => put_all(entries, &[x]),
        Clause::Two(x, y) => put_all(entries, &[x, y]),
        Clause::Three(x, y, z) => put_all(entries, &[x, y, z]),
    }
}

// Stores the pair of clause k.
fn put_pair(pairs: &mut [u32], k: usize, offset: u32, count: u32)
    requires { 2 * k + 1 < length pairs.old }
    ensures { pairs.new ≡ written pairs.old (2 * k) (offset ∷ count ∷ []) }
{
    pairs[2 * k] = offset;
    pairs[2 * k + 1] = count;
}

// How many clauses and literals a block has.
#[derive(Clone, Copy, Debug, PartialEq, Eq)]
pub struct BlockSizes {
    pub clauses: u32,
    pub literals: u32,
}

// Whether slices of these lengths have room for so many literals and so many clauses.
fn room(clauses: u32, needed: u32, literals: usize, pairs: usize) -> Result<(), Refusal>
    ensures { result ≡ unless (room_refusal 0 needed clauses literals pairs) tt }
{
    if literals < needed as usize {
        return Err(Refusal::LiteralsShort);
    }
    if pairs < 2 * (clauses as usize) {
        return Err(Refusal::PairsShort);
    }
    Ok(())
}

// The refusal of storing a request's clauses in slices of these lengths; V, C and T where there is none. Nothing is stored.
pub fn store_sizes(q: Request, literals: usize, pairs: usize) -> Result<Sizes, Refusal>
    ensures answer { result ≡ store_sizes q literals pairs }
    ensures number { number_of result ≡ store_refusal q literals pairs }
    ensures values { IfOk result (λ size. size ≡ counts_of q) }
{
    let good = q.test()?;
    let size = count::sizes(good);
    room(size.clauses, size.literals, literals, pairs)?;
    Ok(size)
}

// Stores the clauses of a block, count of them, the first as clause `first` with its literals from the entry `from` on; the place after
// the literals.
fn fill_block(
    good: GoodRequest,
    block: Block,
    count: u32,
    first: u32,
    from: usize,
    literals: &mut [i32],
    pairs: &mut [u32],
) -> usize
    requires count { count ≡ length (clauses_in good.request block) }
    requires room { BlockRoom good.request.n good.request.r good.request.m block first from (length literals.old) (length pairs.old) }
    ensures place { result ≡ from + length (flatten (clauses_in good.request block)) }
    ensures literals { literals.new ≡ written literals.old from (signs (flatten (clauses_in good.request block))) }
    ensures pairs { pairs.new ≡ written pairs.old (2 * first) (pairs_from from (clauses_in good.request block)) }
{
    let mut at = from;
    for j in 0..count {
        let c = blocks::block_clause(good, block, j);
        let size = clause_size(c);
        put_clause(&mut literals[at..at + size], c);
        put_pair(pairs, (first + j) as usize, at as u32, size as u32);
        at += size;
    }
    at
}

// Stores all clauses of a request that is not refused.
fn fill(good: GoodRequest, literals: &mut [i32], pairs: &mut [u32])
    requires { Roomy good.request (length literals.old) (length pairs.old) }
    ensures literals { literals.new ≡ written literals.old 0 (signs (flatten (formula_of good.request))) }
    ensures pairs { pairs.new ≡ written pairs.old 0 (pairs_from 0 (formula_of good.request)) }
{
    let mut first: u32 = 0;
    let mut at: usize = 0;
    let mut before = blocks::variables_before(good, 0);
    for b in 0..blocks::row_count(good) + 1 {
        let block = blocks::block_from(good, b, before);
        let count = blocks::block_count(good, block);
        before += blocks::block_variables(good, block);
        at = fill_block(good, block, count, first, at, literals, pairs);
        first += count;
    }
}

// Stores the clauses of a request.
pub fn store_clauses(q: Request, literals: &mut [i32], pairs: &mut [u32]) -> Result<(), Refusal>
    ensures answer { result ≡ unless (store_refusal q (length literals.old) (length pairs.old)) tt }
    ensures number { number_of result ≡ store_refusal q (length literals.old) (length pairs.old) }
    ensures literals { literals.new ≡ stored_literals q (length pairs.old) literals.old }
    ensures pairs { pairs.new ≡ stored_pairs q (length literals.old) pairs.old }
{
    let good = q.test()?;
    let size = count::sizes(good);
    room(size.clauses, size.literals, literals.len(), pairs.len())?;
    fill(good, literals, pairs);
    Ok(())
}

// Stores the clauses of block b of a request as the store has all of them: groups 1 and 2 for b = 0, then a block for each row. No
// block is past the rows' blocks.
pub fn store_block(
    q: Request,
    b: u32,
    literals: &mut [i32],
    pairs: &mut [u32],
) -> Result<BlockSizes, Refusal>
    ensures answer { result ≡ block_sizes q b (length literals.old) (length pairs.old) }
    ensures number { number_of result ≡ block_refusal q b (length literals.old) (length pairs.old) }
    ensures values { IfOk result (λ size. (size.clauses ≡ length (block_formula q b)) × (size.literals ≡ length (flatten (block_formula q b)))) }
    ensures literals { literals.new ≡ block_literals_in q b (length pairs.old) literals.old }
    ensures pairs { pairs.new ≡ block_pairs_in q b (length literals.old) pairs.old }
{
    let good = q.test()?;
    let block = blocks::block_there(good, b);
    let clauses = blocks::block_count(good, block);
    let size = blocks::block_literals(good, block);
    room(clauses, size, literals.len(), pairs.len())?;
    fill_block(good, block, clauses, 0, 0, literals, pairs);
    Ok(BlockSizes {
        clauses: clauses,
        literals: size,
    })
}
