// Rules for proofs by hand, which walk a function's code where the checker does not make the proof: a loop over a slice of
// records, a slice lent again or shared, a part of an array lent. There is no code here, and nothing of circuits.
#![tactic(auto)]
