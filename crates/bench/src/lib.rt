// RULES, bench: the cases marked P, as one table. It has no code: specs/Table.antt sets what the definitions say beside
// what the bench measured, and proofs/Table.antt computes that they agree. The cases without P are run by the desk's replay.
#![tactic(auto)]
