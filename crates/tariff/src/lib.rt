#![tactic(auto)]
// A host of flags, counts, weights and prices.
pub mod operators;
pub mod values;
