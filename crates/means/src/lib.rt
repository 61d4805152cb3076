// No code: what a literal means.
#![tactic(auto)]
