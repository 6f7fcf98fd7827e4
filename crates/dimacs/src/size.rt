// The size of the clause file (document 01, "Size of file"; document 02, U2: "exactly the length that writing returns, worked out without
// writing"): the first line, and the clauses' lines, which crate `lengths` works out without making a clause.
ghost use Rattle.std.specs.Prelude.{◌≡◌, ◌≤◌, length};
ghost use Rattle.request.specs.Numbers.{refusal_of};
ghost use Rattle.dimacs.specs.File.{number_of, values_of, Counted, head_text, file_text, size_values, size_answer};

use formula::Sizes;
use refusal::Refusal;
use request::Request;

// The length of the first line.
fn head_length(variables: u32, clauses: u32) -> usize
    ensures { (result ≡ length (head_text variables clauses)) × (result ≤ 28) }
{
    text::decimal_length(variables) + text::decimal_length(clauses) + 8
}

// The length of the file of a request that is not refused.
pub(crate) fn file_length(q: Request, sizes: Sizes) -> usize
    requires { Counted q sizes }
    ensures { result ≡ length (file_text q) }
{
    head_length(sizes.variables, sizes.clauses) + lengths::lines_length(q) as usize
}

// The size of the file: its exact length.
pub fn file_size(q: Request) -> Result<usize, Refusal>
    ensures answer { result ≡ size_answer q }
    ensures number { number_of result ≡ refusal_of q }
    ensures values { values_of result ≡ size_values q }
{
    let sizes = formula_clauses::count::count(q)?;
    Ok(file_length(q, sizes))
}
