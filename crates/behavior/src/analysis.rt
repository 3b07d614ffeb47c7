// The sets of a book's statements.
ghost use Rattle.std.specs.Prelude.{◌≡◌, map, IfOk};
ghost use Rattle.std.specs.List.{range_with_len};
ghost use Rattle.layout.specs.Layout.{entries};
ghost use Rattle.behavior.specs.Rules.{behavior_at};

use crate::set::Behavior;
use crate::summary::Summaries;
use book::book::Book;
use std::alloc::{AllocError, Global};

// The behavior set of a statement; none of an entry that is no statement.
#[tactic(auto, using(crate::proofs::Walked::none_past))]
pub fn behavior_of(book: &Book, entry: u16) -> Option<Behavior>
    ensures { result ≡ behavior_at book.now.words.now entry }
{
    // before the table is made
    if entry >= book.entries() {
        return None;
    }
    Summaries::new(*book).set_of(entry)
}

// The sets of all entries at once.
pub fn behaviors(heap: Global, book: &Book) -> Result<Vec<Option<Behavior>>, AllocError>
    ensures { IfOk result (λ v. v.items ≡ map (behavior_at book.now.words.now) (range_with_len 0 (entries book.now.words.now))) }
{
    let mut summaries = Summaries::new(*book);
    (0..book.entries())
        .map(|e| summaries.set_of(e))
        .collect(heap)
}
