// No code: the laws of numbers, tests and lists that the crates above share.
#![tactic(auto)]
