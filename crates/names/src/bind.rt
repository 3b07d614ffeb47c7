// A name bound.
ghost use Rattle.std.specs.Prelude.{◌≡◌, Ok};
ghost use Rattle.std.specs.Result.{result_unwrap_or};
ghost use Rattle.names.specs.Laws.{Finds, OthersStay};
ghost use Rattle.names.specs.Rules.{answered, bind};
ghost use Rattle.names.specs.State.{Kept};

use crate::binding::Binding;
use crate::error::NameFault;
use crate::names::Names;
use syntax::DeclarationKind;

impl<V: Copy> Names<'_, V> {
    // A name bound in the innermost scope, unless it is a duplicate there or every usable record is bound.
    pub fn bind(&mut self, name: u16, kind: DeclarationKind, value: V) -> Result<(), NameFault>
        ensures answer { result ≡ answered (bind name kind value self.old) }
        ensures state { self.new ≡ result_unwrap_or (bind name kind value self.old) self.old }
        ensures finds { result ≡ Ok tt → Finds (record { name = name; kind = kind; value = value }) self.old self.new }
        ensures others_stay { OthersStay name self.old self.new }
        ensures kept { Kept V self.new }
    {
        if self.duplicate(name) {
            return Err(NameFault::DuplicateDecl);
        }
        self.bindings
            .push(Binding { name, kind, value })
            .map_err(|_| NameFault::NoNames)
    }
}
