// Demand 3 of document 01: two runs, what stands decides, and the wake that a sleeping tablet may trust.
// The exported calls cite it; it is about the definitions of the calls, so this crate has no code.
#![tactic(auto)]
