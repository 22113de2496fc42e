// Laws about the sends and prompts that a call tells: which stay, and the number of rungs on each. No code: see
// specs/.
#![tactic(auto)]
