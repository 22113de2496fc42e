// Laws: a frame leaves an accepted state accepted, and moves no start past its instant. No code: see
// specs/.
#![tactic(auto)]
