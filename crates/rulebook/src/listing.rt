// The listing of a book: a line for each entry.
ghost use Rattle.std.specs.Iterator.{IsFinite};

use book::book::Book;
use book::node::{Listed, Node, Paired, optional};
use host::literal_number;
use std::fmt::{Display, Formatter, Result, Write};
use syntax::BinaryOperator;

// A part that may be absent, behind its name.
#[derive(Drop)]
struct Part(&'static str, Option<u16>);

impl Display for Part {
    fn fmt<W: Write>(&self, f: &mut Formatter<W>) -> Result {
        match self.1 {
            Some(value) => write!(f, " {}={value}", self.0),
            None => Ok(()),
        }
    }
}

// A word that stands there or does not.
#[derive(Drop)]
struct Flag(&'static str, bool);

impl Display for Flag {
    fn fmt<W: Write>(&self, f: &mut Formatter<W>) -> Result {
        if self.1 {
            write!(f, " {}", self.0)
        } else {
            Ok(())
        }
    }
}

// `=`, or the operator before it.
#[derive(Drop)]
struct Assigned(Option<BinaryOperator>);

impl Display for Assigned {
    fn fmt<W: Write>(&self, f: &mut Formatter<W>) -> Result {
        match self.0 {
            Some(operator) => write!(f, "{operator}="),
            None => f.write_str("="),
        }
    }
}

// A list in brackets, each of its items written by `each`.
fn bracketed<W: Write, I: Iterator + Drop, F: Fn(I::Item, &mut Formatter<W>) -> Result>(
    f: &mut Formatter<W>,
    items: I,
    each: F,
) -> Result
where
    I::Item: Drop,
    requires can { I.can_next items }
    requires ends { IsFinite (I.remaining items) }
    requires called { F.IsAlwaysCallable each }
{
    f.write_str("[")?;
    let mut first = true;
    for item in items {
        if !first {
            f.write_str(" ")?;
        }
        each(item, f)?;
        first = false;
    }
    f.write_str("]")
}

// Entries.
#[derive(Drop)]
struct List<'a>(Listed<'a>);

impl Display for List<'_> {
    fn fmt<W: Write>(&self, f: &mut Formatter<W>) -> Result {
        bracketed(f, self.0.iter(), |entry, f| write!(f, "{entry}"))
    }
}

// Pairs of words: the clauses of an `if`, or parameters.
#[derive(Drop)]
struct Clauses<'a>(Paired<'a>);

impl Display for Clauses<'_> {
    fn fmt<W: Write>(&self, f: &mut Formatter<W>) -> Result {
        bracketed(
            f,
            self.0.iter(),
            |(first, second), f| write!(f, "{first}:{second}"),
        )
    }
}

// The selector of a clause.
#[derive(Drop)]
struct Selector(u16);

impl Display for Selector {
    fn fmt<W: Write>(&self, f: &mut Formatter<W>) -> Result {
        match optional(self.0) {
            Some(selector) => write!(f, "{selector}"),
            None => f.write_str("default"),
        }
    }
}

// The clauses of a switch.
#[derive(Drop)]
struct Cases<'a>(Paired<'a>);

impl Display for Cases<'_> {
    fn fmt<W: Write>(&self, f: &mut Formatter<W>) -> Result {
        bracketed(
            f,
            self.0.iter(),
            |(selector, body), f| write!(f, "{}:{body}", Selector(selector)),
        )
    }
}

// The line of an entry: its number, its construct, and the parts that it has. The book has the words of its lists.
#[derive(Drop)]
pub struct Line<'a> {
    pub book: Book<'a>,
    pub entry: u16,
    pub node: Node,
}

impl Display for Line<'_> {
    fn fmt<W: Write>(&self, f: &mut Formatter<W>) -> Result {
        let Line { book, entry, node } = *self;
        write!(f, "{entry} ")?;
        match node {
            Node::Unit { children } => write!(f, "unit children={}", List(book.listed(children))),
            Node::Empty => f.write_str("empty"),
            Node::Compound { statements } => write!(
                f,
                "compound statements={}",
                List(book.listed(statements))
            ),
            Node::Assignment { operator, lhs, rhs } => {
                write!(
                    f,
                    "assignment operator={} lhs={lhs} rhs={rhs}",
                    Assigned(operator)
                )
            }
            Node::Increment { operand } => write!(f, "increment operand={operand}"),
            Node::Decrement { operand } => write!(f, "decrement operand={operand}"),
            Node::If { clauses, otherwise } => {
                write!(
                    f,
                    "if clauses={}{}",
                    Clauses(book.paired(clauses)),
                    Part("else", otherwise)
                )
            }
            Node::Switch {
                expression,
                clauses,
            } => {
                write!(
                    f,
                    "switch expression={expression} clauses={}",
                    Cases(book.paired(clauses))
                )
            }
            Node::Loop { body, continuing } => {
                write!(f, "loop body={body}{}", Part("continuing", continuing))
            }
            Node::For {
                initializer,
                condition,
                update,
                body,
            } => write!(
                f,
                "for{}{}{} body={body}",
                Part("initializer", initializer),
                Part("condition", condition),
                Part("update", update),
            ),
            Node::While { condition, body } => write!(f, "while condition={condition} body={body}"),
            Node::Break => f.write_str("break"),
            Node::Continue => f.write_str("continue"),
            Node::Return { expression } => write!(f, "return{}", Part("expression", expression)),
            Node::Discard => f.write_str("discard"),
            Node::CallStatement { call } => write!(f, "call-statement call={call}"),
            Node::ConstAssert { expression } => write!(f, "const-assert expression={expression}"),
            Node::Declaration {
                kind,
                name,
                ty,
                initializer,
            } => write!(
                f,
                "declaration kind={kind} name={name}{}{}",
                Part("type", ty),
                Part("initializer", initializer),
            ),
            Node::Continuing { body, break_if } => {
                write!(f, "continuing body={body}{}", Part("break-if", break_if))
            }
            Node::Literal { kind, words } => {
                write!(f, "literal kind={kind} number={}", literal_number(words))
            }
            Node::Parenthesized { expression } => write!(
                f,
                "parenthesized expression={expression}"
            ),
            Node::Unary { operator, operand } => write!(
                f,
                "unary operator={operator} operand={operand}"
            ),
            Node::Binary {
                operator,
                left,
                right,
            } => { write!(f, "binary operator={operator} left={left} right={right}") }
            Node::ShortCircuit {
                operator,
                left,
                right,
            } => { write!(f, "binary operator={operator} left={left} right={right}") }
            Node::Name { name } => write!(f, "name name={name}"),
            Node::Call { name, arguments } => write!(
                f,
                "call name={name} arguments={}",
                List(book.listed(arguments))
            ),
            Node::Function {
                name,
                is_const,
                must_use,
                ty,
                body,
                parameters,
            } => write!(
                f,
                "function name={name}{}{}{} parameters={} body={body}",
                Flag("const", is_const),
                Flag("must-use", must_use),
                Part("type", ty),
                Clauses(book.paired(parameters)),
            ),
        }
    }
}
