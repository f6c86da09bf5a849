// Pinned down: of every public call of every crate, any two results that its contract allows are equal, whatever the width of a chunk (specs/Whole.antt, a row a call);
// and what a contract comes to, where a crate says it in one statement (specs/Demands.antt, a row a statement). Both are over the calls' own contracts. It has no code.
#![tactic(auto)]
