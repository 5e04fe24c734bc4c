//! What a block of piles is made of.

use pm_model::Stage;

/// A stage of a pile: whose it is, how many are below it, and where the one below it is kept.
#[derive(Clone, Copy)]
pub struct Cell {
    pub stage: Stage,
    pub owner: usize,
    pub under: usize,
    pub below: usize,
}

/// How many stages a pile has, and where the upper one is kept, if it has any.
#[derive(Clone, Copy)]
pub struct Pile {
    pub many: usize,
    pub upper: usize,
}
