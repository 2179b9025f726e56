// A tidy text is hardly longer than its file: a theorem over the rules, in proofs/. No code.

#![tactic(auto)]
