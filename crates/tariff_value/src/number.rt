// Every value as a number of its type, and back. Each host has a table of types of its own: a table for both would have to
// hold the numbers, letters and ranges of each apart. What they share, the reader of fields, is in the crate `fields`.
ghost use Rattle.std.specs.Prelude.{◌≡◌, ok_or};
ghost use Rattle.tariff_value.specs.Types.{type_number, numbered_type, type_of, number_of, value, within};

use crate::{TariffType, TariffValue};
use syntax::UnknownNumber;

// The type with that number.
impl TryFrom<u16> for TariffType {
    type Error = UnknownNumber;

    ghost try_from_gives = { λ number r. r ≡ ok_or (numbered_type number) (record { 0 = number }) };

    fn try_from(number: u16) -> Result<TariffType, UnknownNumber> {
        match number {
            0 => Ok(TariffType::Flag),
            4 => Ok(TariffType::Count),
            5 => Ok(TariffType::Gram),
            6 => Ok(TariffType::Cent),
            _ => Err(UnknownNumber(number)),
        }
    }
}

impl From<TariffType> for u16 {
    ghost from_gives = { λ t n. n ≡ type_number t };

    fn from(t: TariffType) -> u16 {
        match t {
            TariffType::Flag => 0,
            TariffType::Count => 4,
            TariffType::Gram => 5,
            TariffType::Cent => 6,
        }
    }
}

impl TariffValue {
    pub fn tariff_type(self) -> TariffType
        ensures { result ≡ type_of self }
    {
        match self {
            TariffValue::Flag(_) => TariffType::Flag,
            TariffValue::Count(_) => TariffType::Count,
            TariffValue::Gram(_) => TariffType::Gram,
            TariffValue::Cent(_) => TariffType::Cent,
        }
    }
}

// The number of a value, false being 0 and true 1.
impl From<TariffValue> for u32 {
    ghost from_gives = { λ v n. n ≡ number_of v };

    fn from(v: TariffValue) -> u32 {
        match v {
            TariffValue::Flag(b) => u32::from(b),
            TariffValue::Count(n) | TariffValue::Gram(n) | TariffValue::Cent(n) => n,
        }
    }
}

// The value of a type with the number n. Of a Flag, any number but 0 is true.
pub fn of_type(t: TariffType, n: u32) -> TariffValue
    ensures { result ≡ value t n }
{
    match t {
        TariffType::Flag => TariffValue::Flag(n != 0),
        TariffType::Count => TariffValue::Count(n),
        TariffType::Gram => TariffValue::Gram(n),
        TariffType::Cent => TariffValue::Cent(n),
    }
}

// The value of a type with the number n, if the type has that number.
pub fn within_type(t: TariffType, n: u64) -> Option<TariffValue>
    ensures { result ≡ within t n }
{
    match t {
        TariffType::Flag => (n < 2).then_some(TariffValue::Flag(n == 1)),
        _ => u32::try_from(n).ok().map(|n| of_type(t, n)),
    }
}
