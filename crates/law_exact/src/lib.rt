// Laws: refusals 1 to 7 in document 01's words, and the numbers that they give. No code: see specs/.
#![tactic(auto)]
