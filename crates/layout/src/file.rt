// A book's file: two bytes a word, the low byte first.
ghost use Rattle.std.specs.Prelude.{◌≡◌, IfOk};
ghost use Rattle.layout.specs.Words.{words_of};

use std::alloc::{AllocError, Global};

// The words that the bytes are; a last byte that has no other is left out.
pub fn words_of(heap: Global, bytes: &[u8]) -> Result<Vec<u16>, AllocError>
    ensures { IfOk result (λ v. v.items ≡ words_of bytes.now) }
{
    let (pairs, _) = bytes.as_chunks::<2>();
    pairs
        .iter()
        .map(|pair| u16::from_le_bytes(*pair))
        .collect(heap)
}
