// What the contracts of the calls say together. The theorems stand in proofs/.

#![tactic(auto)]
