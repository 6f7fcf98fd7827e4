// Document 01's worked examples, as rows of one table in specs/. It has no code.

#![tactic(auto)]
