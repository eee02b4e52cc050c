// A run of a law, and the claim that no finding is false in it: definitions in specs/, laws in proofs/; no code is needed for either.
#![tactic(auto)]
