// Laws: a start reply, a told sent count and an open leave accepted states, and move no start past
// their instant. No code: see specs/.
#![tactic(auto)]
