#![tactic(auto)]
// What of a node matters to the way it may end.
ghost use Rattle.std.specs.Prelude.{◌≡◌};
ghost use Rattle.control.specs.Control.{control, control_of, exits, is_statement};

use book::book::Book;
use book::node::{Items, Node, Pairs};

#[derive(Clone, Copy)]
pub enum Control {
    // no statement; a case like the others, since it has a set: the empty one
    Other,
    // a statement that only goes on
    Plain,
    Sequence(Items),
    If(Pairs, Option<u16>),
    Switch(Pairs),
    // a body, and the continuing
    Loop(u16, Option<u16>),
    // a body under a condition: `while`, and `for` with one
    While(u16),
    // the body of a `for` without condition
    Forever(u16),
    Break,
    Continue,
    // whether it has a value
    Return(bool),
    // a body, and whether there is a break-if
    Continuing(u16, bool),
    // a name, whether a type is declared, and a body
    Function(u16, bool, u16),
}

// That of a node.
fn control_of(node: Node) -> Control
    ensures { result ≡ control_of (Some node) }
{
    match node {
        Node::Compound { statements } => Control::Sequence(statements),
        Node::If { clauses, otherwise } => Control::If(clauses, otherwise),
        Node::Switch { clauses, .. } => Control::Switch(clauses),
        Node::Loop { body, continuing } => Control::Loop(body, continuing),
        Node::For {
            condition: Some(_),
            body,
            ..
        } => Control::While(body),
        Node::For {
            condition: None,
            body,
            ..
        } => Control::Forever(body),
        Node::While { body, .. } => Control::While(body),
        Node::Break => Control::Break,
        Node::Continue => Control::Continue,
        Node::Return { expression } => Control::Return(expression.is_some()),
        Node::Continuing { body, break_if } => Control::Continuing(body, break_if.is_some()),
        Node::Function { name, ty, body, .. } => Control::Function(name, ty.is_some(), body),
        Node::Empty
        | Node::Assignment { .. }
        | Node::Increment { .. }
        | Node::Decrement { .. }
        | Node::Discard
        | Node::CallStatement { .. }
        | Node::ConstAssert { .. }
        | Node::Declaration { .. } => Control::Plain,
        _ => Control::Other,
    }
}

// That of an entry.
#[tactic(auto, unfolding(crate::specs::Control::control))]
pub fn control_at(book: &Book, entry: u16) -> Control
    ensures { result ≡ control book.now.words.now entry }
{
    book.node(entry).map_or(Control::Other, control_of)
}

impl Control {
    // Whether it is a continuing with a break-if.
    pub fn exits(self) -> bool
        ensures { result ≡ exits self }
    {
        matches!(self, Control::Continuing(_, true))
    }

    // Whether it is that of a statement.
    pub fn is_statement(self) -> bool
        ensures { result ≡ is_statement self }
    {
        !matches!(
            self,
            Control::Other | Control::Continuing(..) | Control::Function(..)
        )
    }
}
