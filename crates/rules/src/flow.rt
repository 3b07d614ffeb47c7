// How statements and expressions end.

// Where a statement leads.
#[derive(Clone, Copy)]
pub enum Flow<V> {
    Next,
    Break,
    Continue,
    Return(Option<V>),
}

// What an expression stands for: a value, or a variable by its place, with the value that it held when it was named.
#[derive(Clone, Copy)]
pub enum Operand<V> {
    Value(V),
    Reference(usize, V),
}

// How a compound keeps its names: in a regular scope, in a transparent one, or in the scope that is open.
#[derive(Clone, Copy)]
pub enum CompoundScope {
    Regular,
    Transparent,
    Leaking,
}
