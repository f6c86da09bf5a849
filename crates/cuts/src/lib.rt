// Permitted cuttings of an image over a row of areas (RULES, spreading), the greedy plan, and what holds of them.
// Nothing here runs: `specs/` has the definitions and `proofs/` the laws that the spreading and the check of a plan cite.
#![tactic(auto)]
