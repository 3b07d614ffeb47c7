// The table of names.
use crate::binding::Binding;
use crate::lent::LentVec;
use crate::table::ScopeTable;
use std::marker::Model;

// How many names there may be at most.
pub const MOST_NAMES: usize = 1024;

// How many scopes may be open inside the root's: one for each of 256 entries, and one for a function that is called from outside.
pub const MOST_SCOPES: usize = 257;

// What is bound, the oldest first, and the open scopes inside the root's.
#[derive(Drop)]
pub struct Names<'a, V> {
    pub(crate) bindings: LentVec<'a, Binding<V>>,
    pub(crate) scopes: ScopeTable,
    // where the innermost call's names begin
    pub(crate) own: usize,
}

impl<'a, V> Model for Names<'a, V> {
    ghost use Rattle.std.specs.Prelude.{length};
    ghost use Rattle.names.specs.State.{State};

    ghost Value = { State V };

    ghost use Rattle.names.specs.Scopes.{Scoped, opened};

    ghost view = { λ n. record { bindings = n.bindings.items; scopes = opened n.scopes.records n.scopes.depth; usable = n.bindings.capacity } };

    ghost invariant = { λ n. Scoped (opened n.scopes.records n.scopes.depth) n.own (length n.bindings.items) n.bindings.capacity };
}
