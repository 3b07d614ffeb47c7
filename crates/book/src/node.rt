// What an entry of a loaded book says.
ghost use Rattle.std.specs.Prelude.{◌≡◌, ◌*◌, ◌≤◌, length, take, drop, is_some, IfSome, nat_lt};
ghost use Rattle.std.specs.List.{slice_get};
ghost use Rattle.std.specs.Iterator.{YieldsFirst, item_count};
ghost use Rattle.book.specs.Children.{Children};
ghost use Rattle.layout.specs.Layout.{entries};
ghost use Rattle.book.specs.Nodes.{assignment_node, binary_node, declaration_node, for_node, function_node, if_node, listed, literal_node, node_at, node_of, optional, optional_type, paired, unary_node};

use crate::book::Book;
use layout::walk::{construct_at, word};
use shape::Construct;
use std::marker::Model;
use syntax::{BinaryOperator, DeclarationKind, ShortCircuit, UnaryOperator};

// A list of words in the book.
#[derive(Clone, Copy)]
pub struct Items {
    pub start: usize,
    pub count: u16,
}

// A list of pairs of words in the book: a type of its own, so that none is read as a list of words.
#[derive(Clone, Copy)]
pub struct Pairs {
    pub start: usize,
    pub count: u16,
}

// An entry's construct with its parts; children are entries, and lists are spans of the book's words.
#[derive(Clone, Copy)]
pub enum Node {
    Unit {
        children: Items,
    },
    Empty,
    Compound {
        statements: Items,
    },
    // `=` has no operator
    Assignment {
        operator: Option<BinaryOperator>,
        lhs: u16,
        rhs: u16,
    },
    Increment {
        operand: u16,
    },
    Decrement {
        operand: u16,
    },
    // a condition and a body each
    If {
        clauses: Pairs,
        otherwise: Option<u16>,
    },
    // a selector, 0 for default, and a body each
    Switch {
        expression: u16,
        clauses: Pairs,
    },
    Loop {
        body: u16,
        continuing: Option<u16>,
    },
    For {
        initializer: Option<u16>,
        condition: Option<u16>,
        update: Option<u16>,
        body: u16,
    },
    While {
        condition: u16,
        body: u16,
    },
    Break,
    Continue,
    Return {
        expression: Option<u16>,
    },
    Discard,
    CallStatement {
        call: u16,
    },
    ConstAssert {
        expression: u16,
    },
    Declaration {
        kind: DeclarationKind,
        name: u16,
        ty: Option<u16>,
        initializer: Option<u16>,
    },
    Continuing {
        body: u16,
        break_if: Option<u16>,
    },
    Literal {
        kind: u16,
        words: [u16; 4],
    },
    Parenthesized {
        expression: u16,
    },
    Unary {
        operator: UnaryOperator,
        operand: u16,
    },
    Binary {
        operator: BinaryOperator,
        left: u16,
        right: u16,
    },
    ShortCircuit {
        operator: ShortCircuit,
        left: u16,
        right: u16,
    },
    Name {
        name: u16,
    },
    Call {
        name: u16,
        arguments: Items,
    },
    // a name and a type for each parameter
    Function {
        name: u16,
        is_const: bool,
        must_use: bool,
        ty: Option<u16>,
        body: u16,
        parameters: Pairs,
    },
}

// The words of a list, which are read in turn. They can't be copied, since contracts see the words and not where they lie;
// `iter` gives them once more.
#[derive(Drop)]
pub struct Listed<'a> {
    words: &'a [u16],
}

impl<'a> Model for Listed<'a> {
    ghost use Rattle.std.specs.Prelude.{ℕ, List};

    ghost Value = { List ℕ };

    ghost view = { λ s. s.words.now };
}

impl<'a> Listed<'a> {
    // The same words, to read them and keep these.
    pub fn iter(&self) -> Listed<'a>
        ensures { result ≡ self.now }
    {
        Listed { words: self.words }
    }

    // How many words are left.
    pub fn len(&self) -> usize
        ensures { result ≡ length self.now }
    {
        self.words.len()
    }

    // The i-th word, none past the end.
    pub fn get(&self, i: usize) -> Option<u16>
        ensures { result ≡ slice_get self.now i }
    {
        self.words.get(i).copied()
    }
}

impl<'a> Iterator for Listed<'a> {
    type Item = u16;

    ghost next_gives = { YieldsFirst (λ s. s) };

    ghost remaining = { item_count (λ s. s) };

    fn next(&mut self) -> Option<u16> {
        let (first, rest) = self.words.split_first()?;
        self.words = rest;
        Some(*first)
    }
}

// The pairs of a list, which are read in turn. They have a type of their own, since a list of `T` would show contracts a pair
// as a list of two words.
#[derive(Drop)]
pub struct Paired<'a> {
    pairs: &'a [[u16; 2]],
}

impl<'a> Model for Paired<'a> {
    ghost use Rattle.std.specs.Prelude.{ℕ, List, map};
    ghost use Rattle.book.specs.Lists.{as_pair};

    ghost Value = { List (ℕ × ℕ) };

    ghost view = { λ s. map as_pair s.pairs.now };
}

impl<'a> Paired<'a> {
    // The same pairs, to read them and keep these.
    pub fn iter(&self) -> Paired<'a>
        ensures { result ≡ self.now }
    {
        Paired { pairs: self.pairs }
    }

    // How many pairs are left.
    pub fn len(&self) -> usize
        ensures { result ≡ length self.now }
    {
        self.pairs.len()
    }

    // The i-th pair, none past the end.
    pub fn get(&self, i: usize) -> Option<(u16, u16)>
        ensures { result ≡ slice_get self.now i }
    {
        self.pairs.get(i).map(|[first, second]| (*first, *second))
    }
}

impl<'a> Iterator for Paired<'a> {
    type Item = (u16, u16);

    ghost next_gives = { YieldsFirst (λ s. s) };

    ghost remaining = { item_count (λ s. s) };

    fn next(&mut self) -> Option<(u16, u16)> {
        let ([first, second], rest) = self.pairs.split_first()?;
        self.pairs = rest;
        Some((*first, *second))
    }
}

// A child that may be absent.
pub fn optional(word: u16) -> Option<u16>
    ensures { result ≡ optional word }
{
    (word != 0).then_some(word)
}

// A type that may be absent.
fn optional_type(word: u16) -> Option<u16>
    ensures { result ≡ optional_type word }
{
    (word != u16::MAX).then_some(word)
}

// The `n` words that stand from a place on, fewer where the words end.
fn words_from(ws: &[u16], from: usize, n: usize) -> &[u16]
    ensures { result.now ≡ take n (drop from ws.now) }
{
    let rest = &ws[from.min(ws.len())..];
    &rest[..n.min(rest.len())]
}

// Constructs of more parts, and those of which a word may name nothing, have functions of their own: in the one match of
// `node_of` they make every node a third slower to read.
fn assignment_node(number: u16, lhs: u16, rhs: u16) -> Option<Node>
    ensures { result ≡ assignment_node number lhs rhs }
{
    if number == 0 {
        return Some(Node::Assignment {
            operator: None,
            lhs,
            rhs,
        });
    }
    let operator = BinaryOperator::try_from(number - 1).ok()?;
    Some(Node::Assignment {
        operator: Some(operator),
        lhs,
        rhs,
    })
}

// The short circuits follow the 14 other operators.
fn binary_node(number: u16, left: u16, right: u16) -> Option<Node>
    ensures { result ≡ binary_node number left right }
{
    if number < 14 {
        let operator = BinaryOperator::try_from(number).ok()?;
        return Some(Node::Binary {
            operator,
            left,
            right,
        });
    }
    let operator = ShortCircuit::try_from(number - 14).ok()?;
    Some(Node::ShortCircuit {
        operator,
        left,
        right,
    })
}

fn unary_node(number: u16, operand: u16) -> Option<Node>
    ensures { result ≡ unary_node number operand }
{
    let operator = UnaryOperator::try_from(number).ok()?;
    Some(Node::Unary { operator, operand })
}

// Behind its clauses an `if` has the body of its else.
fn if_node(ws: &[u16], p: usize) -> Node
    requires { p ≤ 65535 }
    ensures { result ≡ if_node ws.now p }
{
    let count = word(ws, p + 1);
    let otherwise = optional(word(ws, p + 2 + 2 * count as usize));
    Node::If {
        clauses: Pairs {
            start: p + 2,
            count,
        },
        otherwise,
    }
}

fn for_node(ws: &[u16], p: usize) -> Node
    requires { p ≤ 65535 }
    ensures { result ≡ for_node ws.now p }
{
    Node::For {
        initializer: optional(word(ws, p + 1)),
        condition: optional(word(ws, p + 2)),
        update: optional(word(ws, p + 3)),
        body: word(ws, p + 4),
    }
}

fn declaration_node(ws: &[u16], p: usize) -> Option<Node>
    requires { p ≤ 65535 }
    ensures { result ≡ declaration_node ws.now p }
{
    let kind = DeclarationKind::try_from(word(ws, p + 1)).ok()?;
    let name = word(ws, p + 2);
    let ty = optional_type(word(ws, p + 3));
    let initializer = optional(word(ws, p + 4));
    Some(Node::Declaration {
        kind,
        name,
        ty,
        initializer,
    })
}

fn literal_node(ws: &[u16], p: usize) -> Node
    requires { p ≤ 65535 }
    ensures { result ≡ literal_node ws.now p }
{
    let words = [
        word(ws, p + 2),
        word(ws, p + 3),
        word(ws, p + 4),
        word(ws, p + 5),
    ];
    Node::Literal {
        kind: word(ws, p + 1),
        words,
    }
}

fn function_node(ws: &[u16], p: usize) -> Node
    requires { p ≤ 65535 }
    ensures { result ≡ function_node ws.now p }
{
    let flags = word(ws, p + 2);
    Node::Function {
        name: word(ws, p + 1),
        is_const: flags % 2 == 1,
        must_use: flags >= 2,
        ty: optional_type(word(ws, p + 3)),
        body: word(ws, p + 4),
        parameters: Pairs {
            start: p + 6,
            count: word(ws, p + 5),
        },
    }
}

// The node of a construct whose body stands at `p`.
fn node_of(construct: Construct, ws: &[u16], p: usize) -> Option<Node>
    requires { p ≤ 65535 }
    ensures { result ≡ node_of construct ws.now p }
{
    let node = match construct {
        Construct::Unit => Node::Unit {
            children: Items {
                start: p + 2,
                count: word(ws, p + 1),
            },
        },
        Construct::Empty => Node::Empty,
        Construct::Compound => Node::Compound {
            statements: Items {
                start: p + 2,
                count: word(ws, p + 1),
            },
        },
        Construct::Assignment => return assignment_node(
            word(ws, p + 1),
            word(ws, p + 2),
            word(ws, p + 3),
        ),
        Construct::Increment => Node::Increment {
            operand: word(ws, p + 1),
        },
        Construct::Decrement => Node::Decrement {
            operand: word(ws, p + 1),
        },
        Construct::If => return Some(if_node(ws, p)),
        Construct::Switch => Node::Switch {
            expression: word(ws, p + 1),
            clauses: Pairs {
                start: p + 3,
                count: word(ws, p + 2),
            },
        },
        Construct::Loop => Node::Loop {
            body: word(ws, p + 1),
            continuing: optional(word(ws, p + 2)),
        },
        Construct::For => return Some(for_node(ws, p)),
        Construct::While => Node::While {
            condition: word(ws, p + 1),
            body: word(ws, p + 2),
        },
        Construct::Break => Node::Break,
        Construct::Continue => Node::Continue,
        Construct::Return => Node::Return {
            expression: optional(word(ws, p + 1)),
        },
        Construct::Discard => Node::Discard,
        Construct::CallStatement => Node::CallStatement {
            call: word(ws, p + 1),
        },
        Construct::ConstAssert => Node::ConstAssert {
            expression: word(ws, p + 1),
        },
        Construct::Declaration => return declaration_node(ws, p),
        Construct::Continuing => Node::Continuing {
            body: word(ws, p + 1),
            break_if: optional(word(ws, p + 2)),
        },
        Construct::Literal => return Some(literal_node(ws, p)),
        Construct::Parenthesized => Node::Parenthesized {
            expression: word(ws, p + 1),
        },
        Construct::Unary => return unary_node(word(ws, p + 1), word(ws, p + 2)),
        Construct::Binary => return binary_node(word(ws, p + 1), word(ws, p + 2), word(ws, p + 3)),
        Construct::Name => Node::Name {
            name: word(ws, p + 1),
        },
        Construct::Call => Node::Call {
            name: word(ws, p + 1),
            arguments: Items {
                start: p + 3,
                count: word(ws, p + 2),
            },
        },
        Construct::Function => return Some(function_node(ws, p)),
    };
    Some(node)
}

// What an entry says, by the words of its book; none past the last.
#[tactic(auto, unfolding(crate::specs::Nodes::node_at))]
fn node_in(words: &[u16], entry: u16) -> Option<Node>
    ensures { result ≡ node_at words.now entry }
{
    if entry >= word(words, 0) {
        return None;
    }
    let at = word(words, entry as usize + 1) as usize;
    let construct = construct_at(words, at)?;
    node_of(construct, words, at)
}

impl<'a> Book<'a> {
    // What an entry says; none exactly if the book has no such entry.
    #[tactic(auto, using(crate::proofs::Family::known_every, crate::proofs::Family::known_children))]
    pub fn node(&self, entry: u16) -> Option<Node>
        ensures value { result ≡ node_at self.now.words.now entry }
        ensures every { is_some result ≡ nat_lt entry (entries self.now.words.now) }
        ensures children { IfSome result (Children self.now.words.now entry) }
    {
        node_in(self.words, entry)
    }

    // The words of a list, fewer where the book ends.
    pub fn listed(&self, items: Items) -> Listed<'a>
        ensures { result ≡ listed self.now.words.now items }
    {
        Listed {
            words: words_from(self.words, items.start, items.count as usize),
        }
    }

    // The pairs of a list, fewer where the book ends.
    #[tactic(auto, using(crate::proofs::Lists::pairs_of_chunks))]
    pub fn paired(&self, pairs: Pairs) -> Paired<'a>
        ensures { result ≡ paired self.now.words.now pairs }
    {
        let words = words_from(self.words, pairs.start, 2 * pairs.count as usize);
        let (pairs, _) = words.as_chunks::<2>();
        Paired { pairs }
    }

    // The i-th word of a list, none past its end.
    pub fn item(&self, items: Items, i: u16) -> Option<u16>
        ensures { result ≡ slice_get (listed self.now.words.now items) i }
    {
        self.listed(items).get(i as usize)
    }

    // The i-th pair of a list, none past its end.
    pub fn pair(&self, pairs: Pairs, i: u16) -> Option<(u16, u16)>
        ensures { result ≡ slice_get (paired self.now.words.now pairs) i }
    {
        self.paired(pairs).get(i as usize)
    }
}
