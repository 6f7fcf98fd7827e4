// The entries of the crate host as a host in C or C++ calls them: a slice passes as a pointer and a length, an array as a pointer. Each
// calls the entry of its name and ensures what that ensures.
#![tactic(auto)]

ghost use Rattle.std.specs.Prelude.{◌≡◌, length, get_or};
ghost use Rattle.request.specs.Numbers.{asked, refusal_of};
ghost use Rattle.request.specs.Line.{request_number, request_values};
ghost use Rattle.network.specs.Networks.{Does};
ghost use Rattle.network.specs.Value.{listed};
ghost use Rattle.network.specs.Check.{checked_number, checked_values};
ghost use Rattle.network.specs.Least.{LeastFor, MoreThan};
ghost use Rattle.dimacs.specs.File.{size_values, write_number, write_values, file_written};
ghost use Rattle.answer.specs.Reading.{reading_of};
ghost use Rattle.encoding.specs.Encoding.{FileMeans};
ghost use Rattle.cnf.specs.Cnf.{Satisfiable};
ghost use Rattle.formula.specs.Formula.{formula_of};
ghost use Rattle.lrat_check.specs.Refutation.{lent};
ghost use Rattle.host.specs.Bytes.{network_of};
ghost use Rattle.host.specs.Entries.{size_numbers, check_code, check_detail, Checks, Settles};

use host::NetworkBytes;

// Reads the line of a request: 0 and its five numbers, or the refusal.
#[unsafe(no_mangle)]
pub extern "C" fn nk_read_request(
    text: &[u8],
    n: &mut u8,
    table: &mut u16,
    free: &mut u16,
    r: &mut u8,
    m: &mut u8,
) -> u32
    ensures refusal { result ≡ request_number text.now }
    ensures n { n.new ≡ get_or (request_values text.now) 0 n.old }
    ensures table { table.new ≡ get_or (request_values text.now) 1 table.old }
    ensures free { free.new ≡ get_or (request_values text.now) 2 free.old }
    ensures r { r.new ≡ get_or (request_values text.now) 3 r.old }
    ensures m { m.new ≡ get_or (request_values text.now) 4 m.old }
{
    host::nk_read_request(text, n, table, free, r, m)
}

// V, C and T of a request's clauses.
#[unsafe(no_mangle)]
pub extern "C" fn nk_sizes(
    n: u8,
    table: u16,
    free: u16,
    r: u8,
    m: u8,
    variables: &mut u32,
    clauses: &mut u32,
    literals: &mut u32,
) -> u32
    ensures refusal { result ≡ refusal_of (asked n table free r m) }
    ensures variables { variables.new ≡ get_or (size_numbers (asked n table free r m)) 0 variables.old }
    ensures clauses { clauses.new ≡ get_or (size_numbers (asked n table free r m)) 1 clauses.old }
    ensures literals { literals.new ≡ get_or (size_numbers (asked n table free r m)) 2 literals.old }
{
    host::nk_sizes(n, table, free, r, m, variables, clauses, literals)
}

// Checks a network, as the 24 bytes that nk_settle writes, against a request: 0 does, 1 wrong, 2 refused; the lowest wrong row or the
// refusal goes behind number, else 0.
#[unsafe(no_mangle)]
pub extern "C" fn nk_check_network(
    n: u8,
    table: u16,
    free: u16,
    r: u8,
    m: u8,
    network: &NetworkBytes,
    number: &mut u32,
) -> u32
    ensures answer { result ≡ check_code (checked_number (asked n table free r m) (network_of network.now)) (checked_values (asked n table free r m) (network_of network.now)) }
    ensures number { number.new ≡ check_detail (checked_number (asked n table free r m) (network_of network.now)) (checked_values (asked n table free r m) (network_of network.now)) }
    ensures does { result ≡ 0 → Does (asked n table free r m) (listed r (network_of network.now)) }
{
    host::nk_check_network(n, table, free, r, m, network, number)
}

// The size of a request's clause file.
#[unsafe(no_mangle)]
pub extern "C" fn nk_file_size(n: u8, table: u16, free: u16, r: u8, m: u8, size: &mut u64) -> u32
    ensures refusal { result ≡ refusal_of (asked n table free r m) }
    ensures size { size.new ≡ get_or (size_values (asked n table free r m)) 0 size.old }
{
    host::nk_file_size(n, table, free, r, m, size)
}

// Writes a request's clause file into the buffer.
#[unsafe(no_mangle)]
pub extern "C" fn nk_write_file(
    n: u8,
    table: u16,
    free: u16,
    r: u8,
    m: u8,
    buffer: &mut [u8],
    size: &mut u64,
) -> u32
    ensures refusal { result ≡ write_number (asked n table free r m) (length buffer.old) }
    ensures bytes { buffer.new ≡ file_written (asked n table free r m) buffer.old }
    ensures size { size.new ≡ get_or (write_values (asked n table free r m) (length buffer.old)) 0 size.old }
    ensures meaning { result ≡ 0 → FileMeans (asked n table free r m) }
{
    host::nk_write_file(n, table, free, r, m, buffer, size)
}

// Reads an answer, and says whether it is taken.
#[unsafe(no_mangle)]
pub extern "C" fn nk_test_answer(n: u8, table: u16, free: u16, r: u8, m: u8, text: &[u8]) -> u32
    ensures { result ≡ (reading_of (asked n table free r m) text.now).refusal }
{
    host::nk_test_answer(n, table, free, r, m, text)
}

// Checks a refutation of a request's clauses over four lent slices: 0 for "none", else the refusal; the number of added records goes
// behind count.
#[unsafe(no_mangle)]
pub extern "C" fn nk_check_refutation(
    n: u8,
    table: u16,
    free: u16,
    r: u8,
    m: u8,
    text: &[u8],
    literals: &mut [i32],
    pairs: &mut [u32],
    added: &mut [u32],
    values: &mut [u8],
    count: &mut u32,
) -> u32
    ensures checks { Checks (asked n table free r m) text.now (lent literals.old pairs.old added.old values.old) result count.new (lent literals.new pairs.new added.new values.new) }
    ensures sound { result ≡ 0 → Satisfiable (formula_of (asked n table free r m)) → ⊥ }
    ensures more { result ≡ 0 → MoreThan (asked n table free r m) }
{
    host::nk_check_refutation(
        n, table, free, r, m, text, literals, pairs, added, values, count,
    )
}

// Settles a request with r = k by an answer and a refutation for k-1, over four lent slices: 0 least, 1 works, 2 fails, 3 refused. The
// number that goes with the verdict goes behind number, and the network that it is of into network.
#[unsafe(no_mangle)]
pub extern "C" fn nk_settle(
    n: u8,
    table: u16,
    free: u16,
    k: u8,
    m: u8,
    answer: &[u8],
    refutation: &[u8],
    literals: &mut [i32],
    pairs: &mut [u32],
    added: &mut [u32],
    values: &mut [u8],
    network: &mut NetworkBytes,
    number: &mut u32,
) -> u32
    ensures settles { Settles (asked n table free k m) answer.now refutation.now (lent literals.old pairs.old added.old values.old) result number.new network.new (lent literals.new pairs.new added.new values.new) }
    ensures least { result ≡ 0 → LeastFor (asked n table free k m) (network_of network.new) }
{
    host::nk_settle(
        n, table, free, k, m, answer, refutation, literals, pairs, added, values, network, number,
    )
}
