// The definitions of a whole container's opening, demand 3 of them, and the worked boxes; the reader is a crate of its own.
#![tactic(auto)]
