// A variable written.
ghost use Rattle.std.specs.Prelude.{◌≡◌};
ghost use Rattle.std.specs.Result.{result_unwrap_or};
ghost use Rattle.names.specs.Laws.{OneValue};
ghost use Rattle.names.specs.Rules.{answered, assign, variable, write};
ghost use Rattle.names.specs.State.{Kept};

use crate::binding::Binding;
use crate::error::NameFault;
use crate::names::Names;
use host::Values;
use syntax::DeclarationKind;

impl<V: Copy> Names<'_, V> {
    // The variable at a place, if one is bound there.
    pub fn variable(&self, place: usize) -> Option<Binding<V>>
        ensures answer { result ≡ variable place self.now }
        ensures kept { Kept V self.now }
    {
        self.bindings
            .get(place)
            .filter(|binding| binding.kind == DeclarationKind::Var)
    }

    // A value of the variable's own type written into it.
    pub fn write<H: Values<Value = V>>(
        &mut self,
        host: &H,
        place: usize,
        value: V,
    ) -> Result<(), NameFault>
        ensures answer { result ≡ answered (write (H.means host.now) place value self.old) }
        ensures state { self.new ≡ result_unwrap_or (write (H.means host.now) place value self.old) self.old }
        ensures one_value { OneValue (H.means host.now) place self.old self.new }
        ensures kept { Kept V self.new }
    {
        let binding = self.variable(place).ok_or(NameFault::NotRef)?;
        if host.type_of(value) != host.type_of(binding.value) {
            return Err(NameFault::WriteRefType);
        }
        self.bindings.set(place, Binding { value, ..binding });
        Ok(())
    }

    // What `=` does: the value is converted to the variable's type, and written.
    pub fn assign<H: Values<Value = V>>(
        &mut self,
        host: &H,
        place: usize,
        value: V,
    ) -> Result<(), NameFault>
        ensures answer { result ≡ answered (assign (H.means host.now) place value self.old) }
        ensures state { self.new ≡ result_unwrap_or (assign (H.means host.now) place value self.old) self.old }
        ensures one_value { OneValue (H.means host.now) place self.old self.new }
        ensures kept { Kept V self.new }
    {
        let binding = self.variable(place).ok_or(NameFault::NotRef)?;
        let value = host
            .convert(value, host.type_of(binding.value))
            .ok_or(NameFault::AssignType)?;
        self.write(host, place, value)
    }
}
