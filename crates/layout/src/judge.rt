// The judgment: whether words are a book, and why not.
ghost use Rattle.std.specs.Prelude.{◌≡◌, ℕ, ◌<◌, is_ok, Some, None, Decides, MatchResult};
ghost use Rattle.std.specs.Option.{option_or};
ghost use Rattle.layout.specs.Layout.{body_passes, end, entries, place, start};
ghost use Rattle.layout.specs.Verdict.{answer, child_fault, child_fits, first, layout_fault, left_over, located, misplaced, verdict};
ghost use Rattle.layout.specs.WellFormed.{WellFormed};

use crate::error::{BookError, BookFault};
use crate::walk::Draft;

// Whether the unit's tag stands elsewhere than at entry 0, or another there.
fn is_misplaced(e: u16, tag: u16) -> bool
    ensures { result ≡ misplaced e tag }
{
    (e == 0) != (tag == 0)
}

// Where the body of entry `e`, which has to stand at `at`, ends, or the refusal of it.
fn check_body(draft: &Draft, e: u16, at: usize) -> Result<usize, BookError>
    requires { at ≡ start draft.now.words.now e }
    ensures { MatchResult result
        (λ q. (layout_fault draft.now.words.now e ≡ None) × (q ≡ end draft.now.words.now (place draft.now.words.now e)))
        (λ b. located e (layout_fault draft.now.words.now e) ≡ Some b) }
{
    if draft.place(e) != at {
        return Err(BookFault::BadPlace.at(e));
    }
    let body = draft.body(e, at)?;
    if is_misplaced(e, body.tag()) || !body.passes(|field, word| field.fits(word)) {
        return Err(BookFault::BadField.at(e));
    }
    Ok(body.end())
}

// Walks the bodies in order, and sees that no word is left over.
fn lay_out(draft: &Draft) -> Result<(), BookError>
    ensures { result ≡ answer (option_or (first (layout_fault draft.now.words.now) 0 (entries draft.now.words.now)) (left_over draft.now.words.now)) }
{
    let n = draft.entries();
    let mut at = n as usize + 1;
    // in order, since each body has to stand where the one before it ends
    for e in 0..n {
        at = check_body(draft, e, at)?;
    }
    if at < draft.length() {
        return Err(BookFault::BadPlace.at(n - 1));
    }
    Ok(())
}

// Whether the children of an entry are right, if its body has no fault.
fn children_fit(draft: &Draft, e: u16) -> bool
    ensures { layout_fault draft.now.words.now e ≡ None
        → result ≡ body_passes (child_fits draft.now.words.now e) draft.now.words.now (place draft.now.words.now e) }
{
    let draft = *draft;
    match draft.body(e, draft.place(e)) {
        Ok(body) => body.passes(move |field, word| draft.child_fits(e, field, word)),
        Err(_) => false,
    }
}

// Checks the children of each entry in order.
fn check_children(draft: &Draft) -> Result<(), BookError>
    requires { (e : ℕ) → e < entries draft.now.words.now → layout_fault draft.now.words.now e ≡ None }
    ensures { result ≡ answer (first (child_fault draft.now.words.now) 0 (entries draft.now.words.now)) }
{
    match (0..draft.entries()).find(|e| !children_fit(draft, *e)) {
        Some(e) => Err(BookFault::WrongChild.at(e)),
        None => Ok(()),
    }
}

// The verdict on the words: whether they are a book, or the first refusal.
pub fn judge(words: &[u16]) -> Result<(), BookError>
    ensures verdict { result ≡ verdict words.now }
    ensures accepted { Decides (is_ok result) (WellFormed words.now) }
{
    let Some(draft) = Draft::read(words) else {
        return Err(BookFault::BadLength.at(0));
    };
    lay_out(&draft)?;
    check_children(&draft)
}
