// No code: that what is read has its sort.
#![tactic(auto)]
