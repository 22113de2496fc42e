// Laws: what each call does to the quiet time of the link line, so that it counts from the last frame
// under a current epoch or from the current start. No code: see specs/.
#![tactic(auto)]
