// The clauses of a request (document 01, "Clauses, in order" and "Storing clauses"): made by number, counted, and stored.
//
// They come in blocks: groups 1 and 2 first, which say what a network is, then those of each row. Within a block a clause is made from
// its number, by value. Nothing else knows in which order clauses come.
#![tactic(auto)]

mod blocks;
pub mod count;
pub mod groups;
pub mod number;
pub mod off_row;
pub mod on_row;
mod pairs;
pub mod row;
pub mod store;
mod values;
pub mod variables;

// A block of clauses: groups 1 and 2; those of an on row or an off row, with the number of variables before the row and the row; or
// those of a free row, which has none.
#[derive(Clone, Copy)]
pub enum Block {
    Network,
    On(u16, u8),
    Off(u16, u8),
    Free,
}
