// The laws of every run, for every host and every loaded book: each function here stands for the theorem in its contract.
// They take the two by themselves, since a struct of both would make each clause longer.
ghost use Rattle.rules.specs.Flows.{FitNever, FlowsInSets, NeverAstray};
ghost use Rattle.rules.specs.Ledger.{LedgerHolds, LooksTell};
ghost use Rattle.rules.specs.Promises.{CallsYield, SmallestGrants};
ghost use Rattle.rules.specs.Store.{over};

use book::book::Book;
use host::Operators;

// The steps of a run or call that is not out of fuel are the smallest grant that gives its answer.
pub fn smallest_grant<H: Operators>(host: &H, book: &Book)
    ensures { SmallestGrants (over (H.Values.means host.now) (H.acts host.now) book.now.words.now) }
{}

// After every list of calls one scope is open, and the stage and the names are those that the calls alone tell.
pub fn ledger_holds<H: Operators>(host: &H, book: &Book)
    ensures { LedgerHolds (over (H.Values.means host.now) (H.acts host.now) book.now.words.now) }
{}

// A look at a name tells what the ledger has of it: nothing if it is not noted, else a value of the type that was noted.
pub fn looks_tell<H: Operators>(host: &H, book: &Book)
    ensures { LooksTell (over (H.Values.means host.now) (H.acts host.now) book.now.words.now) }
{}

// An accepted call yields a value exactly when its function declares a type, and of that type.
pub fn calls_yield<H: Operators>(host: &H, book: &Book)
    ensures { CallsYield (over (H.Values.means host.now) (H.acts host.now) book.now.words.now) }
{}

// A statement that is run and is not refused ends with a flow of its behavior set.
pub fn flows_in_sets<H: Operators>(host: &H, book: &Book)
    ensures { FlowsInSets (over (H.Values.means host.now) (H.acts host.now) book.now.words.now) }
{}

// No run of a statement and no call comes upon an entry that is not what its parent takes it for.
pub fn never_astray<H: Operators>(host: &H, book: &Book)
    ensures { NeverAstray (over (H.Values.means host.now) (H.acts host.now) book.now.words.now) }
{}

// Of a fit book, none is refused for what a function yields, or for a flow that leaves a continuing or a function.
pub fn fit_never_refused<H: Operators>(host: &H, book: &Book)
    ensures { FitNever (over (H.Values.means host.now) (H.acts host.now) book.now.words.now) }
{}
