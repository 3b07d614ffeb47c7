#![tactic(auto)]
// Fitness: whether a book's functions and continuings are fit.
pub mod analysis;
pub mod fault;
