// Words that may be a book, and the bodies among them: where each ends, and a test of its fields.
ghost use Rattle.std.specs.Prelude.{◌≡◌, ℕ, ◌*◌, ◌≤◌, Bool, true, false, length, slice_index, Some, None, MatchOption, MatchResult};
ghost use Rattle.std.specs.List.{list_all};
ghost use Rattle.std.specs.Simd.{first_chunks};
ghost use Rattle.shape.specs.Shapes.{row};
ghost use Rattle.shape.specs.declared.Field.{Field};
ghost use Rattle.layout.specs.Layout.{Answers, all_pass, body_passes, construct, entries, place};
ghost use Rattle.layout.specs.Layout as layout;
ghost use Rattle.layout.specs.Verdict.{body_fault, child_fits, is_child, located, sized};

use crate::error::{BookError, BookFault};
use shape::{Child, Construct, Field, Shape, shape_of};

// A word, 0 past the last.
pub fn word(words: &[u16], at: usize) -> u16
    ensures { result ≡ slice_index words.now at }
{
    words.get(at).copied().unwrap_or(0)
}

// The shape of the body at `p`, none for an unknown tag.
fn shape_at(words: &[u16], p: usize) -> Option<&'static Shape>
    ensures { MatchOption result (construct words.now p ≡ None)
        (λ s. (construct words.now p ≡ Some s.now.construct) × ((row s.now).1 ≡ layout.shape words.now p)) }
{
    shape_of(word(words, p))
}

// The construct of the body at `p`, none for an unknown tag.
pub fn construct_at(words: &[u16], p: usize) -> Option<Construct>
    ensures { result ≡ construct words.now p }
{
    Some(shape_at(words, p)?.construct)
}

// Words that may be a book: 1 to 4,096 entries, room for their places, and at most 65,535 words.
#[derive(Clone, Copy)]
pub(crate) struct Draft<'a> {
    words: &'a [u16],
    ghost has_size: { sized words.now ≡ true },
}

// A body whose words are all there: where it stands among them, its shape, and where it ends.
#[derive(Clone, Copy)]
pub(crate) struct Body<'a> {
    words: &'a [u16],
    at: usize,
    shape: &'static Shape,
    end: usize,
    ghost known: { construct words.now at ≡ Some shape.now.construct },
    ghost laid: { (row shape.now).1 ≡ layout.shape words.now at },
    ghost ends: { end ≡ layout.end words.now at },
    ghost whole: { end ≤ length words.now },
}

impl<'a> Draft<'a> {
    // The draft that the words are, none if they are too few or too many.
    pub(crate) fn read(words: &'a [u16]) -> Option<Draft<'a>>
        ensures { MatchOption result (sized words.now ≡ false) (λ d. d.words.now ≡ words.now) }
    {
        let n = word(words, 0) as usize;
        if (1..=4096).contains(&n) && n < words.len() && words.len() <= 65535 {
            Some(Draft { words })
        } else {
            None
        }
    }

    // How many entries there are.
    pub(crate) fn entries(&self) -> u16
        ensures { result ≡ entries self.now.words.now }
    {
        word(self.words, 0)
    }

    // Where the body of an entry stands.
    pub(crate) fn place(&self, e: u16) -> usize
        ensures { result ≡ place self.now.words.now e }
    {
        word(self.words, e as usize + 1) as usize
    }

    // How many words there are.
    pub(crate) fn length(&self) -> usize
        ensures { result ≡ length self.now.words.now }
    {
        self.words.len()
    }

    // The body of entry `e` at `at`, or what is wrong with its words.
    pub(crate) fn body(&self, e: u16, at: usize) -> Result<Body<'a>, BookError>
        ensures { MatchResult result
            (λ b. (body_fault self.now.words.now at ≡ None) × (b.words.now ≡ self.now.words.now) × (b.at ≡ at))
            (λ b. located e (body_fault self.now.words.now at) ≡ Some b) }
    {
        let words = self.words;
        if words.len() <= at {
            return Err(BookFault::BadPlace.at(e));
        }
        let Some(shape) = shape_at(words, at) else {
            return Err(BookFault::BadField.at(e));
        };
        let groups = match shape.group {
            [] => 0,
            _ => word(words, at + shape.head.len()) as usize,
        };
        let end = at + 1 + shape.head.len() + shape.group.len() * groups + shape.tail.len();
        if words.len() < end {
            return Err(BookFault::BadPlace.at(e));
        }
        Ok(Body {
            words,
            at,
            shape,
            end,
        })
    }

    // Whether `w` may be the child of entry `e` in a field that takes `child`.
    fn is_child(&self, e: u16, child: Child, w: u16) -> bool
        ensures { result ≡ is_child self.now.words.now e child w }
    {
        e < w && w < self.entries() && child.takes(word(self.words, self.place(w)))
    }

    // Whether the word may stand in the field of entry `e`, as far as children go.
    pub(crate) fn child_fits(&self, e: u16, field: Field, w: u16) -> bool
        ensures { result ≡ child_fits self.now.words.now e field w }
    {
        match field {
            Field::Number { .. } => true,
            Field::Child(child) => self.is_child(e, child, w),
            Field::Optional(child) => w == 0 || self.is_child(e, child, w),
        }
    }
}

impl Body<'_> {
    // The tag.
    pub(crate) fn tag(&self) -> u16
        ensures { result ≡ slice_index self.now.words.now self.now.at }
    {
        word(self.words, self.at)
    }

    // Where the body ends.
    pub(crate) fn end(&self) -> usize
        ensures { result ≡ layout.end self.now.words.now self.now.at }
    {
        self.end
    }

    // Whether the test passes each field with its word.
    #[tactic(auto, using(crate::proofs::Bodies::end_is))]
    pub(crate) fn passes<F: Fn(Field, u16) -> bool>(&self, test: F) -> bool
        requires { F.IsAlwaysCallable test }
        ensures { (t : Field → ℕ → Bool) → Answers (F.post test) t → result ≡ body_passes t self.now.words.now self.now.at }
    {
        let Shape {
            head,
            group,
            tail,
            ..
        } = self.shape;
        let groups_from = self.at + 1 + head.len();
        let tail_from = self.end - tail.len();
        all_pass(head, &self.words[self.at + 1..groups_from], &test)
            && groups_pass(group, &self.words[groups_from..tail_from], &test)
            && all_pass(tail, &self.words[tail_from..self.end], &test)
    }
}

// Whether the test passes each field with its word.
fn all_pass<F: Fn(Field, u16) -> bool>(fields: &[Field], words: &[u16], test: &F) -> bool
    requires { F.IsAlwaysCallable test.now }
    ensures { (t : Field → ℕ → Bool) → Answers (F.post test.now) t → result ≡ all_pass t fields.now words.now }
{
    fields
        .iter()
        .zip(words)
        .all(|(field, word)| test(*field, *word))
}

// The same of the fields of a group, in each group of words.
fn groups_pass<F: Fn(Field, u16) -> bool>(fields: &[Field], words: &[u16], test: &F) -> bool
    requires { F.IsAlwaysCallable test.now }
    ensures { (t : Field → ℕ → Bool) (k : ℕ) → Answers (F.post test.now) t → length words.now ≡ length fields.now * k → result ≡ list_all (all_pass t fields.now) (first_chunks (length fields.now) k words.now) }
{
    fields.is_empty()
        || words
            .chunks_exact(fields.len())
            .all(|group| all_pass(fields, group, test))
}
