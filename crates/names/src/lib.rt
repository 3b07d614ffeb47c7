#![tactic(auto)]
// Names: what is bound, in which scope, and how a name is found and written.
pub mod bind;
pub mod binding;
pub mod error;
mod lent;
pub mod lookup;
pub mod names;
pub mod scope;
pub mod scopes;
mod table;
pub mod write;
