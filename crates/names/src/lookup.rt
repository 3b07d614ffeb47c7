// How a name is found.
ghost use Rattle.std.specs.Prelude.{◌≡◌};
ghost use Rattle.names.specs.Rules.{IsLastNamed, duplicate, lookup, newest_from};
ghost use Rattle.names.specs.State.{Kept};

use crate::binding::{Binding, Found};
use crate::error::NameFault;
use crate::names::Names;
use crate::scope::{local_first, root_end};

// The last place of a name, counted from the end: `rposition` takes longer.
fn last_named<V: Copy>(bindings: &[Binding<V>], name: u16) -> Option<usize>
    ensures { IsLastNamed name bindings.now result }
{
    let behind = bindings
        .iter()
        .rev()
        .position(|binding| binding.name == name)?;
    Some(bindings.len() - 1 - behind)
}

// The newest binding of a name at the places from `low` on.
pub(crate) fn newest_from<V: Copy>(
    bindings: &[Binding<V>],
    low: usize,
    name: u16,
) -> Option<Found<V>>
    ensures { result ≡ newest_from name low bindings.now }
{
    let seen = bindings.get(low..)?;
    let place = last_named(seen, name)?;
    Some(Found {
        place: low + place,
        binding: seen[place],
    })
}

impl<V: Copy> Names<'_, V> {
    // The newest binding of a name; for a callee the newest of its own, and then of the root's.
    pub fn lookup(&self, name: u16) -> Result<Found<V>, NameFault>
        ensures answer { result ≡ lookup name self.now }
        ensures kept { Kept V self.now }
    {
        let bindings = self.bindings.as_slice();
        if let Some(found) = newest_from(bindings, self.own, name) {
            return Ok(found);
        }
        let root = &bindings[..root_end(self.open(), bindings.len())];
        newest_from(root, 0, name).ok_or(NameFault::UnknownDecl)
    }

    // Whether the innermost scope, or the parent of a transparent one, has the name already.
    pub fn duplicate(&self, name: u16) -> bool
        ensures answer { result ≡ duplicate name self.now }
        ensures kept { Kept V self.now }
    {
        newest_from(self.bindings.as_slice(), local_first(self.open()), name).is_some()
    }
}
