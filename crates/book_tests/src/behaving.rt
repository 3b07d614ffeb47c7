use behavior::analysis::behavior_of;
use behavior::set::{Behavior, NONE};
use behavior::summary::Summaries;
use book::book::Book;
use book::node::Listed;
use control::Control;
use fitness::analysis::fit;
use fitness::fault::{Reason, Unfit};
use std::test::Fail;

const NEXT: Behavior = Behavior { next: true, ..NONE };

const BREAK: Behavior = Behavior {
    breaks: true,
    ..NONE
};

const RETURN: Behavior = Behavior {
    returns: true,
    ..NONE
};

// The set of entry 1, none if the words are no book.
fn set_of(words: &[u16]) -> Option<Behavior> {
    behavior_of(&Book::new(words).ok()?, 1)
}

#[test]
fn small_sets(rt: HostRuntime) {
    let cases: [(&[u16], Option<Behavior>); 9] = [
        // loop {} · loop { break; } · loop { continue; } · loop { return; }
        (&[3, 4, 6, 9, 0, 0, 8, 2, 0, 2, 0], Some(NONE)),
        (&[4, 5, 7, 10, 13, 0, 0, 8, 2, 0, 2, 1, 3, 11], Some(NEXT)),
        (&[4, 5, 7, 10, 13, 0, 0, 8, 2, 0, 2, 1, 3, 12], Some(NONE)),
        (
            &[4, 5, 7, 10, 13, 0, 0, 8, 2, 0, 2, 1, 3, 13, 0],
            Some(RETURN),
        ),
        // for (;;) {} · while n5 { return; } · { break; ; }
        (&[3, 4, 6, 11, 0, 0, 9, 0, 0, 0, 2, 2, 0], Some(NONE)),
        (
            &[5, 6, 8, 11, 13, 16, 0, 0, 10, 2, 3, 36, 5, 2, 1, 4, 13, 0],
            Some(Behavior {
                next: true,
                ..RETURN
            }),
        ),
        (&[4, 5, 7, 11, 12, 0, 0, 2, 2, 2, 3, 11, 1], Some(BREAK)),
        // a name is no statement, and words that are no book have no set
        (&[2, 3, 5, 0, 0, 36, 5], None),
        (&[2, 3, 5, 0, 0, 19], None),
    ];
    for (words, wanted) in cases {
        assert_eq!(rt; set_of(words), wanted);
    }
}

#[test]
fn an_orphan_continuing_counts(rt: HostRuntime) {
    let mut book = Book::empty();
    assert_eq!(rt; fit(&book), Ok(()));
    assert!(rt;
        book.load(&[4, 5, 7, 10, 13, 0, 0, 18, 2, 0, 2, 1, 3, 11])
            .is_ok()
    );
    assert_eq!(rt;
        fit(&book),
        Err(Unfit {
            holder: 1,
            reason: Reason::LeavingContinuing,
            entry: 1,
        })
    );
}

#[test]
fn nothing_past_the_last_entry(rt: HostRuntime) {
    let mut summaries = Summaries::new(Book::empty());
    for entry in [1, 4095, 4096, u16::MAX] {
        assert_eq!(rt; summaries.set_of(entry), None);
        assert_eq!(rt; summaries.of(entry).behavior, NONE);
    }
}

// The statements of a list, by the summaries alone.
fn statements_of<'a>(summaries: &Summaries<'a>, entry: u16) -> Option<Listed<'a>> {
    match summaries.control(entry) {
        Control::Sequence(items) => Some(summaries.book().listed(items)),
        _ => None,
    }
}

#[test]
fn summaries_know_their_book(rt: HostRuntime) -> Result<(), Fail> {
    // { break; ; }
    let words = [4, 5, 7, 11, 12, 0, 0, 2, 2, 2, 3, 11, 1];
    let mut book = Book::empty();
    assert!(rt; book.load(&words).is_ok());
    let summaries = Summaries::new(book);
    match statements_of(&summaries, 1) {
        Some(mut statements) => {
            assert_eq!(rt; statements.next(), Some(2));
            assert_eq!(rt; statements.next(), Some(3));
            assert_eq!(rt; statements.next(), None);
            assert!(rt; statements_of(&summaries, 2).is_none());
            Ok(())
        }
        None => Err(Fail::new("no list")),
    }
}

#[test]
fn sets_and_reasons_are_written(rt: HostRuntime) -> Result<(), Fail> {
    let heap = rt.alloc();
    assert_eq!(rt; NONE.to_string(heap)?.as_str(), "{}");
    assert_eq!(rt; RETURN.to_string(heap)?.as_str(), "{Return}");
    let all = Behavior {
        next: true,
        breaks: true,
        continues: true,
        returns: true,
    };
    assert_eq!(rt;
        all.to_string(heap)?.as_str(),
        "{Next, Break, Continue, Return}"
    );
    assert_eq!(rt; Reason::NoReturn.to_string(heap)?.as_str(), "NoReturn");
    Ok(())
}
