// Why words are no book.
ghost use Rattle.std.specs.Prelude.{◌≡◌, ◌++◌, Some, codes, decimal};
ghost use Rattle.layout.specs.Verdict.{at, name_of, number_of};

use std::error::Error;
use std::fmt;

#[derive(Clone, Copy, PartialEq, Eq, Debug)]
pub enum BookFault {
    BadLength,
    BadPlace,
    BadField,
    WrongChild,
}

// A refusal, and the entry at which it arose.
#[derive(Clone, Copy, PartialEq, Eq, Debug)]
pub struct BookError {
    pub fault: BookFault,
    pub entry: u16,
}

impl BookFault {
    // The refusal with this fault at an entry.
    pub(crate) fn at(self, entry: u16) -> BookError
        ensures { result ≡ at self entry }
    {
        BookError { fault: self, entry }
    }
}

// The number under which the refusal is printed.
impl From<BookFault> for u16 {
    ghost from_gives = { λ fault n. n ≡ number_of fault };

    fn from(fault: BookFault) -> u16 {
        match fault {
            BookFault::BadLength => 1,
            BookFault::BadPlace => 2,
            BookFault::BadField => 3,
            BookFault::WrongChild => 4,
        }
    }
}

// The name under which it is printed.
impl fmt::Display for BookFault {
    ghost output = { λ fault. Some (name_of fault) };

    fn fmt<W: fmt::Write>(&self, f: &mut fmt::Formatter<W>) -> fmt::Result {
        f.write_str(match self {
            BookFault::BadLength => "BadLength",
            BookFault::BadPlace => "BadPlace",
            BookFault::BadField => "BadField",
            BookFault::WrongChild => "WrongChild",
        })
    }
}

impl fmt::Display for BookError {
    ghost output = { λ e. Some (name_of e.fault ++ codes " at entry " ++ decimal e.entry) };

    fn fmt<W: fmt::Write>(&self, f: &mut fmt::Formatter<W>) -> fmt::Result {
        write!(f, "{} at entry {}", self.fault, self.entry)
    }
}

impl Error for BookError {}
