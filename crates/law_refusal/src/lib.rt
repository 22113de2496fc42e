// Which states are accepted, part by part: what 3 to 6 pass (specs/Sound.antt). This crate has no code.
#![tactic(auto)]
