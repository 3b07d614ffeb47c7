#![tactic(auto)]
// The rules of running: what every statement, expression and call does, as definitions, and their laws.
pub mod error;
pub mod flow;
pub mod laws;
