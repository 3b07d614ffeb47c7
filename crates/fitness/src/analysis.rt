// Whether a book is fit, and what is wrong with each of its entries.
ghost use Rattle.std.specs.Prelude.{◌≡◌, map, is_ok, IfOk, Decides};
ghost use Rattle.std.specs.List.{range_with_len};
ghost use Rattle.layout.specs.Layout.{entries};
ghost use Rattle.fitness.specs.Fit.{Fit, fault_at, fitness};

use crate::fault::{Unfit, continuing_fault, function_fault};
use behavior::summary::Summaries;
use book::book::Book;
use control::Control;
use std::alloc::{AllocError, Global};

// The fault of an entry, if it is a function or a continuing that is not fit.
fn fault_at(summaries: &mut Summaries, entry: u16) -> Option<Unfit>
    ensures value { result ≡ fault_at summaries.old entry }
    ensures same { summaries.new ≡ summaries.old }
{
    match summaries.control(entry) {
        Control::Function(_, typed, body) => {
            function_fault(entry, typed, body, summaries.of(body))
        }
        Control::Continuing(body, _) => continuing_fault(entry, summaries.of(body).behavior),
        _ => None,
    }
}

// Whether the book is fit; else the first function or continuing that is not, and why.
pub fn fit(book: &Book) -> Result<(), Unfit>
    ensures value { result ≡ fitness book.now.words.now }
    ensures decides { Decides (is_ok result) (Fit book.now.words.now) }
{
    let mut summaries = Summaries::new(*book);
    // a loop: of a search by `find_map` nothing is known where its closure changes what it holds
    for e in 0..book.entries() {
        if let Some(unfit) = fault_at(&mut summaries, e) {
            return Err(unfit);
        }
    }
    Ok(())
}

// The faults of all entries at once.
pub fn faults(heap: Global, book: &Book) -> Result<Vec<Option<Unfit>>, AllocError>
    ensures { IfOk result (λ v. v.items ≡ map (fault_at book.now.words.now) (range_with_len 0 (entries book.now.words.now))) }
{
    let mut summaries = Summaries::new(*book);
    (0..book.entries())
        .map(|e| fault_at(&mut summaries, e))
        .collect(heap)
}
