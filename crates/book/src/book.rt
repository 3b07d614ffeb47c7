// A loaded book: words that are lent, and the fact that they were accepted.
ghost use Rattle.std.specs.Prelude.{◌≡◌, true, length, is_ok, if◌then◌else◌, Decides, IfOk, MatchResult};
ghost use Rattle.layout.specs.Layout.{entries};
ghost use Rattle.layout.specs.Verdict.{accepted, smallest, verdict};
ghost use Rattle.layout.specs.WellFormed.{WellFormed};

use layout::error::BookError;
use layout::judge::judge;
use layout::walk::word;

#[derive(Clone, Copy)]
pub struct Book<'a> {
    pub(crate) words: &'a [u16],
    ghost loaded: { accepted words.now ≡ true },
}

impl<'a> Book<'a> {
    // The smallest book: a unit with no children.
    pub fn empty() -> Book<'a>
        ensures { result.words.now ≡ smallest }
    {
        Book {
            words: &[1, 2, 0, 0],
        }
    }

    // The book that the words are, or why they are none.
    pub fn new(words: &'a [u16]) -> Result<Book<'a>, BookError>
        ensures verdict { MatchResult result (λ _. verdict words.now ≡ Ok tt) (λ e. verdict words.now ≡ Err e) }
        ensures accepted { Decides (is_ok result) (WellFormed words.now) }
        ensures words { IfOk result (λ book. book.words.now ≡ words.now) }
    {
        judge(words)?;
        Ok(Book { words })
    }

    // Takes the words over if they are a book, and else leaves the book as it was.
    pub fn load(&mut self, words: &'a [u16]) -> Result<(), BookError>
        ensures verdict { result ≡ verdict words.now }
        ensures accepted { Decides (is_ok result) (WellFormed words.now) }
        ensures words { self.new.words.now ≡ (if is_ok result then words.now else self.old.words.now) }
    {
        *self = Book::new(words)?;
        Ok(())
    }
}

impl Book<'_> {
    // How many entries the book has.
    pub fn entries(&self) -> u16
        ensures { result ≡ entries self.now.words.now }
    {
        word(self.words, 0)
    }

    // How many words the book has.
    pub fn length(&self) -> usize
        ensures { result ≡ length self.now.words.now }
    {
        self.words.len()
    }
}
