// One interval over the cells: the states that it leads to and what it brings (steps), and the passes over stretches of cells that work it out for
// all cells of a row at once (rows).

#![tactic(auto)]

pub mod rows;
pub mod steps;
