// The clauses of a request against networks: satisfiable exactly when some network of r switches does the job; and the least
// number of switches. All of it is in specs/. It has no code.

#![tactic(auto)]
