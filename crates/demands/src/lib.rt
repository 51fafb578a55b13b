// The conditions of purchase, as statements about the calls. There is no code here: specs/ has the statements, and proofs/
// proves them from the calls' promises.
#![tactic(auto)]
