#![tactic(auto)]
// Behaviors: how each statement may end.
pub mod analysis;
pub mod set;
pub mod summary;
