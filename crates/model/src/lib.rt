// No code: what a model defines of the tables' names, and the listing.
#![tactic(auto)]
