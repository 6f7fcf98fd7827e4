// An assignment written as an answer, and read back to its network (document 01, "Reading an answer"). It has no code.

#![tactic(auto)]
