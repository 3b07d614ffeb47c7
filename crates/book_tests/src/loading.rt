use book::book::Book;
use layout::error::{BookError, BookFault};
use std::alloc::{AllocError, Global};
use std::process::Abort;
use std::test::Fail;

// What a book's words are said to be: how many entries it has, or why they are no book.
type Verdict = Result<u16, BookError>;

fn verdict(words: &[u16]) -> Verdict {
    let mut book = Book::empty();
    book.load(words)?;
    Ok(book.entries())
}

fn refused(fault: BookFault, entry: u16) -> Verdict {
    Err(BookError { fault, entry })
}

// A book of n entries: a unit without children, and then empty statements.
fn empties(heap: Global, n: u16) -> Result<Vec<u16>, AllocError> {
    let mut words = Vec::new(heap);
    words.push(n)?;
    words.push(n.wrapping_add(1))?;
    for e in 1..n {
        words.push(n.wrapping_add(2).wrapping_add(e))?;
    }
    words.push(0)?;
    words.push(0)?;
    for _ in 1..n {
        words.push(1)?;
    }
    Ok(words)
}

// A book of a unit, n - 1 calls with 16 arguments each, and names: of 20 n + 3 names - 16 words.
fn calls(heap: Global, n: u16, names: u16) -> Result<Vec<u16>, AllocError> {
    let mut words = Vec::new(heap);
    let all = n.wrapping_add(names);
    words.push(all)?;
    let mut at = all.wrapping_add(1);
    words.push(at)?;
    at = at.wrapping_add(2);
    for _ in 1..n {
        words.push(at)?;
        at = at.wrapping_add(19);
    }
    for _ in 0..names {
        words.push(at)?;
        at = at.wrapping_add(2);
    }
    words.push(0)?;
    words.push(0)?;
    for _ in 1..n {
        words.extend_from_slice(&[37, 7, 16])?;
        for _ in 0..16u16 {
            words.push(all.wrapping_sub(1))?;
        }
    }
    for _ in 0..names {
        words.extend_from_slice(&[36, 5])?;
    }
    Ok(words)
}

// Whether every list of words has its verdict.
fn all(rt: &impl Abort, cases: &[(&[u16], Verdict)]) {
    for (words, wanted) in cases {
        assert_eq!(rt; verdict(words), *wanted);
    }
}

#[test]
fn no_words_and_few(rt: HostRuntime) {
    all(
        &rt,
        &[
            (&[], refused(BookFault::BadLength, 0)),
            (&[0], refused(BookFault::BadLength, 0)),
            (&[1], refused(BookFault::BadLength, 0)),
            (&[1, 2], refused(BookFault::BadPlace, 0)),
            (&[1, 2, 0], refused(BookFault::BadPlace, 0)),
            (&[1, 2, 0, 0], Ok(1)),
            (&[1, 2, 0, 0, 0], refused(BookFault::BadPlace, 0)),
            (&[1, 3, 0, 0], refused(BookFault::BadPlace, 0)),
            (&[1, 2, 1], refused(BookFault::BadField, 0)),
            (&[1, 2, 19], refused(BookFault::BadField, 0)),
            (&[1, 2, 0, 65], refused(BookFault::BadPlace, 0)),
        ],
    );
}

#[test]
fn numbers_of_entries(rt: HostRuntime) -> Result<(), Fail> {
    let heap = rt.alloc();
    assert_eq!(rt; verdict(empties(heap, 4096)?.as_slice()), Ok(4096));
    assert_eq!(rt;
        verdict(empties(heap, 4097)?.as_slice()),
        refused(BookFault::BadLength, 0)
    );
    assert_eq!(rt;
        verdict(empties(heap, 0)?.as_slice()),
        refused(BookFault::BadLength, 0)
    );
    Ok(())
}

#[test]
fn numbers_of_words(rt: HostRuntime) -> Result<(), Fail> {
    let heap = rt.alloc();
    let longest = calls(heap, 3275, 17)?;
    assert_eq!(rt; longest.len(), 65535);
    assert_eq!(rt; verdict(longest.as_slice()), Ok(3292));
    let longer = calls(heap, 3274, 24)?;
    assert_eq!(rt; longer.len(), 65536);
    assert_eq!(rt;
        verdict(longer.as_slice()),
        refused(BookFault::BadLength, 0)
    );
    Ok(())
}

#[test]
fn places_and_lengths(rt: HostRuntime) {
    all(
        &rt,
        &[
            // an empty statement behind the unit: its place, its tag, a word too many, a tag that is cut off
            (&[2, 3, 5, 0, 0, 1], Ok(2)),
            (&[2, 3, 4, 0, 0, 1], refused(BookFault::BadPlace, 1)),
            (&[2, 3, 5, 0, 0], refused(BookFault::BadPlace, 1)),
            (&[2, 3, 5, 0, 0, 1, 1], refused(BookFault::BadPlace, 1)),
            // an unknown tag is refused before its length could matter, a known one is first measured
            (&[2, 3, 5, 0, 0, 19], refused(BookFault::BadField, 1)),
            (&[2, 3, 5, 0, 0, 0], refused(BookFault::BadPlace, 1)),
            (&[2, 3, 5, 0, 0, 0, 0], refused(BookFault::BadField, 1)),
            // words left over come before a wrong child
            (&[2, 3, 6, 0, 1, 9, 1, 1], refused(BookFault::BadPlace, 1)),
        ],
    );
}

#[test]
fn fields(rt: HostRuntime) {
    all(
        &rt,
        &[
            // a name, an operator, flags, a kind of declaration, and `if` without a clause
            (&[2, 3, 5, 0, 0, 36, 65534], Ok(2)),
            (&[2, 3, 5, 0, 0, 36, 65535], refused(BookFault::BadField, 1)),
            (&[3, 4, 6, 9, 0, 0, 34, 2, 2, 36, 1], Ok(3)),
            (
                &[3, 4, 6, 9, 0, 0, 34, 3, 2, 36, 1],
                refused(BookFault::BadField, 1),
            ),
            (&[3, 4, 6, 12, 0, 0, 48, 9, 3, 65535, 2, 0, 2, 0], Ok(3)),
            (
                &[3, 4, 6, 12, 0, 0, 48, 9, 4, 65535, 2, 0, 2, 0],
                refused(BookFault::BadField, 1),
            ),
            (&[2, 3, 5, 0, 0, 17, 2, 1, 0, 0], Ok(2)),
            (
                &[2, 3, 5, 0, 0, 17, 3, 1, 0, 0],
                refused(BookFault::BadField, 1),
            ),
            (&[2, 3, 5, 0, 0, 6, 0, 0], refused(BookFault::BadField, 1)),
            // the type of a parameter is never absent
            (
                &[3, 4, 6, 14, 0, 0, 48, 9, 0, 65535, 2, 1, 5, 65534, 2, 0],
                Ok(3),
            ),
            (
                &[3, 4, 6, 14, 0, 0, 48, 9, 0, 65535, 2, 1, 5, 65535, 2, 0],
                refused(BookFault::BadField, 1),
            ),
        ],
    );
}

#[test]
fn children(rt: HostRuntime) {
    all(
        &rt,
        &[
            // a child of the unit: not larger, not below the number of entries, absent where it may not be, an expression
            (&[2, 3, 6, 0, 1, 1, 1], Ok(2)),
            (&[2, 3, 6, 0, 1, 2, 1], refused(BookFault::WrongChild, 0)),
            (&[2, 3, 6, 0, 1, 0, 1], refused(BookFault::WrongChild, 0)),
            (
                &[2, 3, 6, 0, 1, 1, 36, 5],
                refused(BookFault::WrongChild, 0),
            ),
            // a parent is no child of its child
            (
                &[3, 4, 6, 8, 0, 0, 33, 2, 33, 1],
                refused(BookFault::WrongChild, 2),
            ),
            // a value that is absent, and one that is there
            (&[2, 3, 5, 0, 0, 13, 0], Ok(2)),
            (&[3, 4, 6, 8, 0, 0, 13, 2, 36, 5], Ok(3)),
            // the update of `for` is no declaration, its initializer may be one
            (
                &[4, 5, 7, 12, 17, 0, 0, 9, 2, 0, 0, 3, 17, 2, 1, 0, 0, 2, 0],
                Ok(4),
            ),
            (
                &[4, 5, 7, 12, 17, 0, 0, 9, 0, 0, 2, 3, 17, 2, 1, 0, 0, 2, 0],
                refused(BookFault::WrongChild, 1),
            ),
        ],
    );
}

#[test]
fn a_refused_load_leaves_the_book(rt: HostRuntime) {
    let mut book = Book::empty();
    assert!(rt; book.load(&[2, 3, 5, 0, 0, 1]).is_ok());
    assert!(rt; book.load(&[2, 3, 5, 0, 0, 19]).is_err());
    assert_eq!(rt; book.entries(), 2);
    assert_eq!(rt; book.length(), 6);
}

#[test]
fn refusals_have_numbers(rt: HostRuntime) {
    let faults = [
        BookFault::BadLength,
        BookFault::BadPlace,
        BookFault::BadField,
        BookFault::WrongChild,
    ];
    assert_eq!(rt; faults.map(u16::from), [1, 2, 3, 4]);
}
