// Laws: a notice leaves an accepted state accepted, moves no start past an instant, is decided by what
// stands, and tells few events. No code: see specs/.
#![tactic(auto)]
