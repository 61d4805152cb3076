// No code: what order by bytes is, and its laws.
#![tactic(auto)]
