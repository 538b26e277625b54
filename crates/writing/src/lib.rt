// Theory alone: what is read of a text is what is written in it, and what a writer of the format writes is read back. See proofs/.

#![tactic(auto)]
