// What several crates cite: definitions and laws of specs/, each once. It has no code.

#![tactic(auto)]
