#![tactic(auto)]
// The layout of books: which words make a book, and why others do not.
pub mod error;
pub mod file;
pub mod judge;
pub mod walk;
