// No code: demand 3, as a theorem over the definitions that the listing prints.
#![tactic(auto)]
