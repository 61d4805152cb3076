// No code: the characters of a string literal by the Unicode Strings theory alone, and the law that `strings` agrees.
#![tactic(auto)]
