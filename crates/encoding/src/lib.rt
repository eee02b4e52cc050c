// The law file that a text means, and its tree: definitions in specs/, laws in proofs/.
#![tactic(auto)]
