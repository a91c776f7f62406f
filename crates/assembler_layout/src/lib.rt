// The definitions of what the container assembler writes and answers, and its round trip; the assembler is a crate of its own.
#![tactic(auto)]
