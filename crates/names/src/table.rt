// The open scopes inside the root's, the first records of a plain table. A record is written where a scope opens, and blanked
// where one closes alone; where all close at once the records stay. No record is written elsewhere, so that all behind the open
// scopes are blank for as long as scopes close one by one.
ghost use Rattle.std.specs.Prelude.{◌≡◌, ◌-◌, ◌<◌, ◌≤◌, ◌∷◌, [], length, reverse, slice_index_or, MatchOption, MatchResult};
ghost use Rattle.names.specs.Scopes.{Cleared, SameBut, closed, opened};

use crate::lent::Full;
use crate::names::MOST_SCOPES;
use crate::scope::{Scope, ScopeKind};

// A blank record: the default, which is no constant.
const CLOSED: Scope = Scope {
    first: 0,
    kind: ScopeKind::Regular,
};

#[derive(Drop)]
pub(crate) struct ScopeTable {
    records: [Scope; MOST_SCOPES],
    depth: usize,
    ghost sized: { length records ≡ 257 },
    ghost shallow: { depth ≤ 257 },
}

impl ScopeTable {
    // No scope.
    pub(crate) fn new() -> ScopeTable
        ensures scopes { opened result.records result.depth ≡ [] }
        ensures cleared { Cleared result.records result.depth }
    {
        ScopeTable {
            records: [CLOSED; MOST_SCOPES],
            depth: 0,
        }
    }

    // The open scopes, the outermost first.
    pub(crate) fn as_slice(&self) -> &[Scope]
        ensures { reverse result.now ≡ opened self.now.records self.now.depth }
    {
        &self.records[..self.depth]
    }

    // One scope more, unless every record has one.
    pub(crate) fn push(&mut self, scope: Scope) -> Result<(), Full>
        ensures scopes { MatchResult result
            (λ _. (length (opened self.old.records self.old.depth) < 257) × (opened self.new.records self.new.depth ≡ scope ∷ opened self.old.records self.old.depth))
            (λ _. (257 ≤ length (opened self.old.records self.old.depth)) × (self.new ≡ self.old)) }
        ensures elsewhere { SameBut self.old.depth self.new.records self.old.records }
        ensures stays_cleared { Cleared self.old.records self.old.depth → Cleared self.new.records self.new.depth }
    {
        if self.depth >= MOST_SCOPES {
            return Err(Full);
        }
        self.records[self.depth] = scope;
        self.depth += 1;
        Ok(())
    }

    // The innermost scope closes, if there is one, and leaves a blank record.
    pub(crate) fn pop(&mut self) -> Option<Scope>
        ensures scopes { MatchOption result
            (opened self.old.records self.old.depth ≡ [] × (self.new ≡ self.old))
            (λ scope. opened self.old.records self.old.depth ≡ scope ∷ opened self.new.records self.new.depth) }
        ensures cleared { 0 < self.old.depth → slice_index_or self.new.records self.new.depth closed ≡ closed }
        ensures elsewhere { SameBut self.new.depth self.new.records self.old.records }
        ensures stays_cleared { Cleared self.old.records self.old.depth → Cleared self.new.records self.new.depth }
    {
        if self.depth == 0 {
            return None;
        }
        self.depth -= 1;
        let scope = self.records[self.depth];
        self.records[self.depth] = CLOSED;
        Some(scope)
    }

    // Every scope closes. Their records stay as they are: to blank them would take as long as there are scopes.
    pub(crate) fn clear(&mut self)
        ensures scopes { opened self.new.records self.new.depth ≡ [] }
        ensures records { self.new.records ≡ self.old.records }
    {
        self.depth = 0;
    }
}
