// Scopes that are open inside the root's.
ghost use Rattle.std.specs.Prelude.{◌≡◌, reverse};
ghost use Rattle.syntax.specs.Symbols.{Reads};
ghost use Rattle.std.specs.List.{find};
ghost use Rattle.std.specs.Option.{option_map, unwrap_or};
ghost use Rattle.names.specs.Scopes.{is_call, local_first, root_end, scope_word};
ghost use Rattle.names.specs.declared.scope.Scope.{Scope};

use std::str::FromStr;
use syntax::UnknownWord;

#[derive(Clone, Copy, Default, PartialEq, Eq, Debug)]
pub enum ScopeKind {
    #[default]
    Regular,
    // its names may not be those of its parent
    Transparent,
    // of a function's call: its names and the root's are all that the function sees
    Call,
}

impl FromStr for ScopeKind {
    type Err = UnknownWord;

    ghost from_str_gives = { Reads scope_word };

    fn from_str(text: &str) -> Result<ScopeKind, UnknownWord> {
        match text {
            "regular" => Ok(ScopeKind::Regular),
            "transparent" => Ok(ScopeKind::Transparent),
            "call" => Ok(ScopeKind::Call),
            _ => Err(UnknownWord),
        }
    }
}

// The default is a blank record, of no scope.
#[derive(Clone, Copy, Default)]
pub struct Scope {
    // the place of its first name
    pub first: usize,
    pub kind: ScopeKind,
}

// The first name of the innermost call, 0 where none runs.
pub(crate) fn call_first(scopes: &[Scope]) -> usize
    ensures { result ≡ unwrap_or (option_map (λ (scope : Scope). scope.first) (find is_call (reverse scopes.now))) 0 }
{
    scopes
        .iter()
        .rev()
        .find(|scope| scope.kind == ScopeKind::Call)
        .map_or(0, |scope| scope.first)
}

// Where the root's names end, of n names in all.
pub(crate) fn root_end(scopes: &[Scope], n: usize) -> usize
    ensures { result ≡ root_end (reverse scopes.now) n }
{
    match scopes {
        [outermost, ..] => outermost.first,
        [] => n,
    }
}

// Where the names begin that a new one must differ from.
pub(crate) fn local_first(scopes: &[Scope]) -> usize
    ensures { result ≡ local_first (reverse scopes.now) }
{
    match scopes {
        [.., parent, scope] if scope.kind == ScopeKind::Transparent => parent.first,
        [scope] if scope.kind == ScopeKind::Transparent => 0,
        [.., scope] => scope.first,
        [] => 0,
    }
}
