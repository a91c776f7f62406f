// The definitions of what the PSV0 writer writes and answers, plain form, and the round trips; the writer is a crate of its own.
#![tactic(auto)]
