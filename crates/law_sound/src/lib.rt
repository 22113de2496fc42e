// Laws: an item of a poll leaves an accepted state accepted. No code: see specs/.
#![tactic(auto)]
