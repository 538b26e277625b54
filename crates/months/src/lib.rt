// A year month by month: best profits at the beginning of each month, from those at the beginning of the next. mod boxes: what a month may spend of the
// year's budgets, and cells of the year beside cells of a month; mod chains: from the end of a month to its beginning; mod annual: from
// the end of the horizon to the beginning of any month; mod plans: the plan, from the first month on; mod ends: from the end of a month to its beginning by
// the states at its end.

#![tactic(auto)]

pub mod annual;
pub mod boxes;
pub mod chains;
pub mod ends;
pub mod plans;
