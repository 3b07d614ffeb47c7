// Scopes opened and closed.
ghost use Rattle.std.specs.Prelude.{◌≡◌, min, true, length, reverse, if◌then◌else◌};
ghost use Rattle.names.specs.Laws.{GivesBack, close_times};
ghost use Rattle.names.specs.Rules.{close_all, close_scope, empty, may_open, open_scope, root_names};
ghost use Rattle.names.specs.State.{Kept};

use crate::binding::Binding;
use crate::lent::LentVec;
use crate::names::{MOST_NAMES, Names};
use crate::scope::{Scope, ScopeKind, call_first, root_end};
use crate::table::ScopeTable;

impl<'a, V: Copy> Names<'a, V> {
    // No name, and the root's scope alone. The first 1,024 records are usable, or all of a shorter table.
    pub fn new(table: &'a mut [Binding<V>]) -> Names<'a, V>
        ensures state { result ≡ empty (min (length table.old) 1024) }
        ensures kept { Kept V result }
    {
        let usable = table.len().min(MOST_NAMES);
        let (table, _) = table.split_at_mut(usable);
        Names {
            bindings: LentVec::new(table),
            scopes: ScopeTable::new(),
            own: 0,
        }
    }

    // The open scopes inside the root's, the outermost first.
    pub(crate) fn open(&self) -> &[Scope]
        ensures { reverse result.now ≡ self.now.scopes }
    {
        self.scopes.as_slice()
    }

    // One scope more. With 257 open inside the root's nothing changes: an executor never comes there.
    pub fn open_scope(&mut self, kind: ScopeKind)
        ensures state { self.new ≡ (if may_open self.old then open_scope kind self.old else self.old) }
        ensures gives_back { may_open self.old ≡ true → GivesBack self.old self.new }
        ensures kept { Kept V self.new }
    {
        let first = self.bindings.len();
        if self.scopes.push(Scope { first, kind }).is_err() {
            return;
        }
        if kind == ScopeKind::Call {
            self.own = first;
        }
    }

    // The innermost scope closes, and its names are free. The root's stays open.
    pub fn close_scope(&mut self)
        ensures state { self.new ≡ close_scope self.old }
        ensures root_survives { root_names self.new ≡ root_names self.old }
        ensures kept { Kept V self.new }
    {
        let Some(scope) = self.scopes.pop() else {
            return;
        };
        self.bindings.truncate(scope.first);
        if scope.kind == ScopeKind::Call {
            self.own = call_first(self.scopes.as_slice());
        }
    }

    // Every scope but the root's closes.
    pub fn close_all(&mut self)
        ensures state { self.new ≡ close_all self.old }
        ensures one_by_one { self.new ≡ close_times (length self.old.scopes) self.old }
        ensures root_survives { root_names self.new ≡ root_names self.old }
        ensures kept { Kept V self.new }
    {
        let end = root_end(self.scopes.as_slice(), self.bindings.len());
        self.bindings.truncate(end);
        self.scopes.clear();
        self.own = 0;
    }
}
