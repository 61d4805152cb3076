// No code: the S-expressions of SMT-LIB 2.7 by their own grammar, and the law that `reader` reads them as their images.
#![tactic(auto)]
