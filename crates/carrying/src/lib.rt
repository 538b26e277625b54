// Values that carry a mark (pairs), and the best of an interval carried along a line, value and mark (images).

#![tactic(auto)]

pub mod images;
pub mod pairs;
