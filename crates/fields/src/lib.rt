#![tactic(auto)]
// Numbers as fields have them: shortest decimals, with a minus sign before a negative number.
ghost use Rattle.std.specs.Prelude.{◌≡◌, ◌≢◌, ℕ, ◌^◌, ◌<◌, ◌∷◌, ℤ, Option, Some, decimal, FitsSigned, MatchOption};
ghost use Rattle.std.specs.Int.{w64};
ghost use Rattle.std.specs.Fmt.{signed_decimal};
ghost use Rattle.fields.specs.Reading.{Prints, Undoes};
ghost use Rattle.fields.specs.Fields.{field, FieldLaws};

use std::fmt;

// So many digits always fit 64 bits.
const MOST_DIGITS: usize = 19;

// The only length at which 0 may come first.
const ONE_DIGIT: usize = 1;

// How far the lowest number is below 0.
const LOWEST: u64 = 9223372036854775808;

const HIGHEST: u64 = 9223372036854775807;

// The natural number below 10^19 that the bytes write.
pub fn natural(bytes: &[u8]) -> Option<u64>
    ensures prints { Prints (λ n. n < 10 ^ 19) decimal bytes.now result }
    ensures undoes { Undoes (λ n. n < 10 ^ 19) decimal bytes.now result }
{
    if bytes.len() == 0 || bytes.len() > MOST_DIGITS {
        return None;
    }
    if bytes[0] == b'0' && bytes.len() > ONE_DIGIT {
        return None;
    }
    let mut n = 0u64;
    for b in bytes {
        if *b < b'0' || *b > b'9' {
            return None;
        }
        n = n * 10 + (*b - b'0') as u64;
    }
    Some(n)
}

// The negative integer of 64 bits that the bytes write after its sign.
fn negative(bytes: &[u8]) -> Option<i64>
    ensures prints { Prints (FitsSigned w64) signed_decimal (45 ∷ bytes.now) result }
    ensures undoes { Undoes (FitsSigned w64) signed_decimal (45 ∷ bytes.now) result }
{
    let Some(n) = natural(bytes) else {
        return None;
    };
    if n == 0 || n > LOWEST {
        return None;
    }
    Some(-1 - (n - 1) as i64)
}

// The integer of 64 bits that the bytes write.
#[inline]
pub fn integer(bytes: &[u8]) -> Option<i64>
    ensures prints { Prints (FitsSigned w64) signed_decimal bytes.now result }
    ensures undoes { Undoes (FitsSigned w64) signed_decimal bytes.now result }
{
    if bytes.len() > 0 && bytes[0] == b'-' {
        return negative(&bytes[1..]);
    }
    match natural(bytes) {
        Some(n) if n <= HIGHEST => Some(n as i64),
        _ => None,
    }
}

// A value that is a number of one of some types, as a field has it: a letter for the type, and the number.
pub trait Fielded: Copy + fmt::Display {
    type Kind: Copy;

    ghost letter: { Self.Kind → ℕ };

    ghost kind: { Self → Self.Kind };

    ghost number: { Self → ℤ };

    ghost made: { Self.Kind → ℤ → Option Self };

    // what holds of every value of a program
    ghost valid: { Self → Type 0 };

    // The type with that letter.
    fn kind_with(byte: u8) -> Option<Self::Kind>
        ensures { MatchOption result ((t : Self.Kind) → letter t ≢ byte) (λ t. letter t ≡ byte) };

    // The value of a type with a number, if the type has that number.
    fn make(t: Self::Kind, z: i64) -> Option<Self>
        ensures { result ≡ made t z };

    ghost lawful: { FieldLaws letter kind number made valid };

    ghost prints: { (v : Self) → Self.Display.output v ≡ Some (field letter kind number v) };
}

// The value that is written so, and none if none is.
pub fn from_field<V: Fielded>(text: &[u8]) -> Option<V>
    ensures prints { Prints V.valid (field V.letter V.kind V.number) text.now result }
    ensures undoes { Undoes V.valid (field V.letter V.kind V.number) text.now result }
{
    let (first, rest) = text.split_first()?;
    let t = V::kind_with(*first)?;
    let z = integer(rest)?;
    V::make(t, z)
}
