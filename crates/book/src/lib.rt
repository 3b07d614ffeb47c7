#![tactic(auto)]
// Rule books: loading, and reading what is loaded.
pub mod book;
pub mod node;
