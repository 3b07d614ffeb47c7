#![tactic(auto)]
// A host of booleans and integers.
pub mod operators;
pub mod values;
