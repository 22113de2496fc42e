// Laws about the passes of a poll and what follows them: accepted states, starts, how many events, and
// when nothing happens. No code: see specs/.
#![tactic(auto)]
