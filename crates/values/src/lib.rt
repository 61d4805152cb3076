// No code: values, their text and their sorts, and the laws of both.
#![tactic(auto)]
