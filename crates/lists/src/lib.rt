// What every crate needs of lists and of booleans. Theory alone: specs/ defines `every` (Every) and `bytes` of a quoted text (Text);
// proofs/ has the laws of the first (Every), those of a conjunction (Conjunctions) and those of slices that are filled or lent in part
// (Fills).

#![tactic(auto)]
