use book::book::Book;
use book::node::{Items, Node, Pairs};
use std::test::Fail;
use syntax::BinaryOperator;

#[test]
fn an_if_with_two_clauses_and_an_else(rt: HostRuntime) -> Result<(), Fail> {
    // if n5 {} else if n5 {} else {}
    let words = [4, 5, 8, 15, 17, 0, 1, 1, 6, 2, 2, 3, 2, 3, 3, 36, 5, 2, 0];
    let mut book = Book::empty();
    assert!(rt; book.load(&words).is_ok());
    match book.node(1) {
        Some(Node::If { clauses, otherwise }) => {
            assert_eq!(rt; clauses.count, 2);
            assert_eq!(rt; book.pair(clauses, 1), Some((2, 3)));
            assert_eq!(rt; book.pair(clauses, 2), None);
            assert_eq!(rt; otherwise, Some(3));
            Ok(())
        }
        _ => Err(Fail::new("no if")),
    }
}

#[test]
fn operators_and_short_circuits(rt: HostRuntime) -> Result<(), Fail> {
    let mut book = Book::empty();
    assert!(rt; book.load(&[3, 4, 6, 10, 0, 0, 35, 13, 2, 2, 36, 1]).is_ok());
    match book.node(1) {
        Some(
            Node::Binary {
                operator,
                left,
                right,
            },
        ) => {
            assert_eq!(rt; operator, BinaryOperator::GreaterThanEqual);
            assert_eq!(rt; (left, right), (2, 2));
        }
        _ => return Err(Fail::new("no binary expression")),
    }
    assert!(rt; book.load(&[3, 4, 6, 10, 0, 0, 35, 14, 2, 2, 36, 1]).is_ok());
    assert!(rt; matches!(book.node(1), Some(Node::ShortCircuit { .. })));
    assert!(rt; book.node(3).is_none());
    Ok(())
}

// What is read at the end of a list, past it and far past it, and when it is read in turn.
#[test]
fn lists_end_with_their_words(rt: HostRuntime) -> Result<(), Fail> {
    // { break; ; }
    let mut book = Book::empty();
    assert!(rt;
        book.load(&[4, 5, 7, 11, 12, 0, 0, 2, 2, 2, 3, 11, 1])
            .is_ok()
    );
    match book.node(1) {
        Some(Node::Compound { statements }) => {
            let statements = book.listed(statements);
            assert_eq!(rt; statements.len(), 2);
            assert_eq!(rt; statements.get(1), Some(3));
            assert_eq!(rt; statements.get(2), None);
            assert_eq!(rt; statements.get(usize::MAX), None);
            let mut rest = statements.iter();
            assert_eq!(rt; rest.next(), Some(2));
            assert_eq!(rt; rest.next(), Some(3));
            assert_eq!(rt; rest.next(), None);
            assert_eq!(rt; statements.len(), 2);
        }
        _ => return Err(Fail::new("no compound")),
    }
    // switch n5 { default {} } at the end of the words
    assert!(rt;
        book.load(&[4, 5, 7, 12, 14, 0, 0, 7, 2, 1, 0, 3, 36, 5, 2, 0])
            .is_ok()
    );
    match book.node(1) {
        Some(Node::Switch { clauses, .. }) => {
            let clauses = book.paired(clauses);
            assert_eq!(rt; clauses.len(), 1);
            assert_eq!(rt; clauses.get(0), Some((0, 3)));
            assert_eq!(rt; clauses.get(1), None);
            assert_eq!(rt; clauses.get(usize::MAX), None);
            let mut rest = clauses.iter();
            assert_eq!(rt; rest.next(), Some((0, 3)));
            assert_eq!(rt; rest.next(), None);
        }
        _ => return Err(Fail::new("no switch")),
    }
    let empty = Book::empty();
    match empty.node(0) {
        Some(Node::Unit { children }) => {
            let children = empty.listed(children);
            assert_eq!(rt; children.len(), 0);
            assert_eq!(rt; children.get(0), None);
            Ok(())
        }
        _ => Err(Fail::new("no unit")),
    }
}

#[test]
fn a_span_past_the_words(rt: HostRuntime) {
    let book = Book::empty();
    assert_eq!(rt; book.item(Items { start: 2, count: 9 }, 1), Some(0));
    assert_eq!(rt; book.item(Items { start: 2, count: 9 }, 2), None);
    assert_eq!(rt;
        book.item(
            Items {
                start: 18446744073709551615,
                count: 9,
            },
            2,
        ),
        None
    );
    assert_eq!(rt; book.pair(Pairs { start: 2, count: 9 }, 0), Some((0, 0)));
    assert_eq!(rt; book.pair(Pairs { start: 3, count: 9 }, 0), None);
}
