// Checking a refutation (document 01, "Checking a refutation"): LRAT text over a clause store.
//
// A line is read once: its literals and hints take effect while the form of the line is scanned, and a bad form found later
// refuses the line as if nothing had been done. The values of a line are bytes with the line's stamp, so that the next line, with
// a higher stamp, finds all variables unset; all bytes are cleared once in 127 lines. The definitions and their laws are in the
// crate lrat, over any formula; here the formula is the one that the store holds.
//
// check.rt is the operation, lines.rt follows line after line, and a line goes through literals.rt, then through hints.rt, which
// looks at the hints' clauses through clause.rt, which finds added ones by records.rt; words.rt reads the ids of hints and of
// deletions, and stamp.rt has a line's stamp. The paragraph on top of each says which refusals are decided there.
#![tactic(auto)]

pub mod check;
mod clause;
mod hints;
mod lines;
mod literals;
mod records;
mod stamp;
mod words;
