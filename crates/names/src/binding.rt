// What a name stands for.
use syntax::DeclarationKind;

#[derive(Clone, Copy)]
pub struct Binding<V> {
    pub name: u16,
    pub kind: DeclarationKind,
    pub value: V,
}

// A binding, and its place in the table.
#[derive(Clone, Copy)]
pub struct Found<V> {
    pub place: usize,
    pub binding: Binding<V>,
}
