// Laws about how many events the items of a poll have. No code: see specs/.
#![tactic(auto)]
