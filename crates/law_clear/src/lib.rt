// Laws: the passes of a poll leave no item due at its instant, and each item that a pass lists has one of the twelve
// kinds. No code: see specs/.
#![tactic(auto)]
