// The lines of a case's text, and the first two causes for which it is refused.
// `parts` finds lines, `form` judges number 1, `naming` number 2.

#![tactic(auto)]

pub mod form;
pub mod naming;
pub mod parts;
