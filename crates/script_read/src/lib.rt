// No code: that the lines of crate `script` are read back as the lists that they are.
#![tactic(auto)]
