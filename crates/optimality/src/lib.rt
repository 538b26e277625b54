// Theory: why the best plan is found step by step, and that the definitions of `commitment` say what demand 3 asks. The theorems stand in
// proofs/, Optimal first; here are the types that the cells' machine and the table that is filled by it share.

// What is counted of the three limitations: starts, on-intervals and output blocks.
#![tactic(auto)]

#[derive(Clone, Copy, PartialEq, Eq)]
pub struct Budgets {
    pub starts: usize,
    pub ons: usize,
    pub blocks: usize,
}

// A unit's figures, as the table goes by them. `takes` is what one start, on-interval or block takes of its budget, 1 where limited and 0 at `none`;
// `most` is the most that a cell can have left.
#[derive(Clone, Copy)]
pub struct Figures {
    pub block: usize,
    pub pmin: usize,
    pub pmax: usize,
    pub mot: usize,
    pub mdt: usize,
    pub vec: usize,
    pub mlc: usize,
    pub suc: usize,
    pub takes: Budgets,
    pub most: Budgets,
}

// A cell of the table: the state number, and what is left.
#[derive(Clone, Copy)]
pub struct Cell {
    pub state: usize,
    pub left: Budgets,
}
