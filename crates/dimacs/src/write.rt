// Writing the clause file (document 01, "Writing the file"): "p cnf V C", then a line for each clause.
//
// A buffer that is shorter than the file is refused (6) before anything is written. Bytes past the length stay. Each block of clauses
// is stored in two local arrays, as the clause store has clauses, and its lines are made from the signed numbers.
ghost use Rattle.std.specs.Prelude.{◌≡◌, length, IsOk};
ghost use Rattle.formula.specs.Formula.{formula_of};
ghost use Rattle.dimacs.specs.Block.{Within, block_text};
ghost use Rattle.dimacs.specs.Cursor.{Room, Puts};
ghost use Rattle.dimacs.specs.File.{number_of, values_of, head_text, body_text, write_number, write_values, write_answer, file_written};
ghost use Rattle.dimacs.specs.Means.{Meaning};

use crate::lines::Cursor;
use crate::{BLOCK_LITERALS, BLOCK_PAIRS, size};
use refusal::Refusal;
use request::Request;
use request::numbers::GoodRequest;

// Writes the first line.
fn put_head(out: &mut Cursor<'_>, variables: u32, clauses: u32)
    requires { Room out.old (length (head_text variables clauses)) }
    ensures { Puts out.old (head_text variables clauses) out.new }
{
    out.put_word(b"p cnf ");
    out.put_decimal(variables);
    out.put(b' ');
    out.put_decimal(clauses);
    out.put(b'\n');
}

// Writes the lines of the first count clauses that lie in literals and pairs as in a clause store.
fn put_block(out: &mut Cursor<'_>, count: u32, literals: &[i32], pairs: &[u32])
    requires within { Within count literals.now pairs.now }
    requires room { Room out.old (length (block_text count literals.now pairs.now)) }
    ensures { Puts out.old (block_text count literals.now pairs.now) out.new }
{
    for k in 0..count as usize {
        let from = pairs[2 * k] as usize;
        let end = from + pairs[2 * k + 1] as usize;
        out.put_line(&literals[from..end]);
    }
}

// Writes the clauses' lines, block by block. The arrays have room for each block.
fn put_body(out: &mut Cursor<'_>, good: GoodRequest) -> Result<(), Refusal>
    requires { Room out.old (length (body_text (formula_of good.request))) }
    ensures stored { IsOk result }
    ensures text { Puts out.old (body_text (formula_of good.request)) out.new }
{
    let q = good.request;
    let rows = 1u32 << (q.n as u32);
    let mut literals = [0i32; BLOCK_LITERALS];
    let mut pairs = [0u32; BLOCK_PAIRS];
    for b in 0..rows + 1 {
        let block = formula_clauses::store::store_block(q, b, &mut literals, &mut pairs)?;
        put_block(out, block.clauses, &literals, &pairs);
    }
    Ok(())
}

// Writes the file: its length, or a refusal, which writes nothing.
pub fn write_file(q: Request, buffer: &mut [u8]) -> Result<usize, Refusal>
    ensures answer { result ≡ write_answer q (length buffer.old) }
    ensures bytes { buffer.new ≡ file_written q buffer.old }
    ensures meaning { Meaning q result }
    ensures number { number_of result ≡ write_number q (length buffer.old) }
    ensures values { values_of result ≡ write_values q (length buffer.old) }
{
    let good = q.test()?;
    let sizes = formula_clauses::count::count(q)?;
    if buffer.len() < size::file_length(q, sizes) {
        return Err(Refusal::BufferShort);
    }
    let mut out = Cursor { buffer, at: 0 };
    put_head(&mut out, sizes.variables, sizes.clauses);
    put_body(&mut out, good)?;
    Ok(out.at)
}
