// The clause file (document 01, "The file is ..", "Size of file", "Writing the file"): its size, and writing it. What the file is,
// and what both answer, is in specs/.
#![tactic(auto)]

mod lines;
pub mod size;
pub mod write;

// Room for the literals of one block of a request's clauses.
const BLOCK_LITERALS: usize = 8192;

// And for their pairs.
const BLOCK_PAIRS: usize = 4096;
