// Laws: an item of a poll moves no start past the instant. No code: see specs/.
#![tactic(auto)]
