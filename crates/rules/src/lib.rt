// The rules of the format are definitions: they stand in specs/, and what follows from them in proofs/. No code.
#![tactic(auto)]
