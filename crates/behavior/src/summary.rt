// The summary of each entry, by functions that call each other over a table of what is known.
ghost use Rattle.std.specs.Prelude.{◌≡◌, ◌<◌, false, not};
ghost use Rattle.layout.specs.Layout.{entries};
ghost use Rattle.book.specs.Nodes.{listed, paired};
ghost use Rattle.behavior.specs.Below.{earlier};
ghost use Rattle.behavior.specs.Rules.{behavior_at, has_default, looped, none, only_next, plus_next, tested, turned};
ghost use Rattle.behavior.specs.Summaries.{Follows, bare_set, clauses_from, continuing_summary, control_summary, list_from, return_summary, summary, with_set};
ghost use Rattle.control.specs.Control.{control, exits};
ghost use Rattle.control.specs.declared.Control.TheVariants.{Sequence, Switch};

use crate::set::{BREAK, Behavior, CONTINUE, NEXT, NONE, RETURN};
use book::book::Book;
use book::node::{Items, Paired, Pairs};
use control::{Control, control_at};
use std::marker::Model;

// The set of an entry, and the least entries below it that are a return without a value, a return with one, and a
// continuing that leaves.
#[derive(Clone, Copy, PartialEq, Eq, Debug)]
pub struct Summary {
    pub behavior: Behavior,
    pub bare: Option<u16>,
    pub valued: Option<u16>,
    pub leaving: Option<u16>,
}

fn earlier(a: Option<u16>, b: Option<u16>) -> Option<u16>
    ensures { result ≡ earlier a b }
{
    match (a, b) {
        (Some(a), Some(b)) => Some(a.min(b)),
        (a, b) => a.or(b),
    }
}

impl Summary {
    // Of a set with nothing below.
    fn of(behavior: Behavior) -> Summary
        ensures { result ≡ bare_set behavior }
    {
        Summary {
            behavior,
            bare: None,
            valued: None,
            leaving: None,
        }
    }

    // The set given, and what is below either.
    fn with(self, other: Summary, behavior: Behavior) -> Summary
        ensures { result ≡ with_set behavior self other }
    {
        Summary {
            behavior,
            bare: earlier(self.bare, other.bare),
            valued: earlier(self.valued, other.valued),
            leaving: earlier(self.leaving, other.leaving),
        }
    }

    // Of a return at the entry, with a value or without.
    fn of_return(entry: u16, value: bool) -> Summary
        ensures { result ≡ return_summary entry value }
    {
        let nothing = Summary::of(RETURN);
        if value {
            Summary {
                valued: Some(entry),
                ..nothing
            }
        } else {
            Summary {
                bare: Some(entry),
                ..nothing
            }
        }
    }

    // What is below, with another set.
    fn turned_to(self, behavior: Behavior) -> Summary
        ensures { result ≡ with_set behavior (bare_set none) self }
    {
        Summary { behavior, ..self }
    }

    // A switch of these bodies.
    fn switched(self, default: bool) -> Summary
        ensures { result ≡ with_set (plus_next (turned self.behavior) (not default)) (bare_set none) self }
    {
        self.turned_to(self.behavior.turned().plus_next(!default))
    }

    // A loop of this body with no break-if.
    fn looped(self) -> Summary
        ensures { result ≡ with_set (looped self.behavior false) (bare_set none) self }
    {
        self.turned_to(self.behavior.looped(false))
    }

    // A loop of this body under a condition.
    fn tested(self) -> Summary
        ensures { result ≡ with_set (tested self.behavior) (bare_set none) self }
    {
        self.turned_to(self.behavior.tested())
    }

    // A continuing of this body at the entry.
    fn continuing(self, entry: u16) -> Summary
        ensures { result ≡ continuing_summary self entry }
    {
        if self.behavior.beyond_next() {
            Summary {
                leaving: Some(entry),
                ..self
            }
        } else {
            self
        }
    }
}

// Whether a clause has no selector.
fn has_default(mut clauses: Paired) -> bool
    ensures { result ≡ has_default clauses.entry }
{
    clauses.any(|(selector, _)| selector == 0)
}

// The summaries of a book's entries: those that were made are kept. In a clause it is the book's words.
#[derive(Drop)]
pub struct Summaries<'a> {
    book: Book<'a>,
    // a slot for each entry that a book may have, in fixed memory: no heap
    known: [Option<Summary>; 4096],
}

impl<'a> Model for Summaries<'a> {
    ghost use Rattle.std.specs.Prelude.{ℕ, List};
    ghost use Rattle.behavior.specs.Summaries.{Filled};

    ghost Value = { List ℕ };

    ghost view = { λ s. s.book.words.now };

    ghost invariant = { λ s. Filled s.book.words.now s.known };
}

impl<'a> Summaries<'a> {
    // With none made yet.
    pub fn new(book: Book<'a>) -> Summaries<'a>
        ensures { result ≡ book.entry.words.now }
    {
        Summaries {
            book,
            known: [None; 4096],
        }
    }

    // The book: a list in the control of an entry is a span of its words.
    pub fn book(&self) -> Book<'a>
        ensures { result.words.now ≡ self.now }
    {
        self.book
    }

    // The control of an entry: its children stand after it, and their summaries make that of the entry.
    #[tactic(auto, using(crate::proofs::Openings::follow_at, crate::proofs::Summed::summed_at))]
    pub fn control(&self, entry: u16) -> Control
        ensures value { result ≡ control self.now entry }
        ensures follow { Follows self.now entry result }
        ensures summed { entry < entries self.now → summary self.now entry ≡ control_summary self.now entry result }
    {
        control_at(&self.book, entry)
    }

    // Whether an entry is a continuing with a break-if. A call of its own, so that no level of the recursion has room for this
    // control too.
    #[inline(never)]
    fn exits(&self, entry: u16) -> bool
        ensures { result ≡ exits (control self.now entry) }
    {
        self.control(entry).exits()
    }

    // The summary of an entry, from the table, or else made and kept there; past the last entry there is nothing.
    #[cycle(summaries)]
    #[tactic(auto, using(crate::proofs::Walked::few_entries, crate::proofs::Walked::past_summary))]
    pub fn of(&mut self, entry: u16) -> Summary
        ensures value { result ≡ summary self.old entry }
        ensures same { self.new ≡ self.old }
    {
        if entry >= self.book.entries() {
            return Summary::of(NONE);
        }
        if let Some(summary) = self.known[entry as usize] {
            return summary;
        }
        let summary = self.summarize(entry);
        self.known[entry as usize] = Some(summary);
        summary
    }

    // The summary of an entry from those of its children. `within`, here and below, is how the recursion is known to end: from
    // an entry of the book it goes to larger ones alone.
    #[cycle(summaries)]
    #[tactic(auto, using(crate::proofs::Summed::list_folds, crate::proofs::Summed::clause_folds), unfolding(crate::specs::Summaries::summary))]
    fn summarize(&mut self, entry: u16) -> Summary
        requires within { entry < entries self.old }
        ensures value { result ≡ summary self.old entry }
        ensures same { self.new ≡ self.old }
    {
        match self.control(entry) {
            Control::Other => Summary::of(NONE),
            Control::Plain => Summary::of(NEXT),
            Control::Break => Summary::of(BREAK),
            Control::Continue => Summary::of(CONTINUE),
            Control::Return(value) => Summary::of_return(entry, value),
            Control::Sequence(items) => self.of_list(entry, items),
            Control::If(clauses, otherwise) => {
                let start = match otherwise {
                    Some(body) => self.of(body),
                    None => Summary::of(NEXT),
                };
                self.of_clauses(entry, clauses, start)
            }
            Control::Switch(clauses) => {
                let default = has_default(self.book.paired(clauses));
                self.of_clauses(entry, clauses, Summary::of(NONE))
                    .switched(default)
            }
            Control::Loop(body, None) | Control::Forever(body) => self.of(body).looped(),
            Control::Loop(body, Some(last)) => {
                let first = self.of(body);
                let second = self.of(last);
                first.with(second, first.behavior.looped(self.exits(last)))
            }
            Control::While(body) => self.of(body).tested(),
            Control::Continuing(body, _) => self.of(body).continuing(entry),
            Control::Function(_, _, body) => self.of(body),
        }
    }

    // The statements of a list in turn; each stands after the entry.
    #[cycle(summaries)]
    fn of_list(&mut self, entry: u16, items: Items) -> Summary
        requires within { entry < entries self.old }
        requires follow { Follows self.old entry (Sequence items) }
        ensures value { result ≡ list_from self.old (bare_set only_next) (listed self.old items) }
        ensures same { self.new ≡ self.old }
    {
        let mut so_far = Summary::of(NEXT);
        for child in self.book.listed(items) {
            let next = self.of(child);
            so_far = so_far.with(next, so_far.behavior.followed(next.behavior));
        }
        so_far
    }

    // The bodies of clauses joined to a summary so far; each stands after the entry. It differs from a list in its rule and
    // its items: one function over both would take two closures, to walk and to join.
    #[cycle(summaries)]
    fn of_clauses(&mut self, entry: u16, clauses: Pairs, start: Summary) -> Summary
        requires within { entry < entries self.old }
        requires follow { Follows self.old entry (Switch clauses) }
        ensures value { result ≡ clauses_from self.old start (paired self.old clauses) }
        ensures same { self.new ≡ self.old }
    {
        let mut so_far = start;
        for (_, body) in self.book.paired(clauses) {
            let next = self.of(body);
            so_far = so_far.with(next, so_far.behavior.union(next.behavior));
        }
        so_far
    }

    // The set of an entry, if it is a statement.
    #[tactic(auto, unfolding(crate::specs::Summaries::summary))]
    pub fn set_of(&mut self, entry: u16) -> Option<Behavior>
        ensures value { result ≡ behavior_at self.old entry }
        ensures same { self.new ≡ self.old }
    {
        if self.control(entry).is_statement() {
            Some(self.of(entry).behavior)
        } else {
            None
        }
    }
}
