// Demand 3 at work: the theorem of crate `law_runs` applied to one run; and laws of definitions that no function needs
// to know. No code: see specs/ and proofs/.
#![tactic(auto)]
