// A value as a field: a letter for its type, and its number in shortest decimals.
ghost use Rattle.std.specs.Prelude.{◌≡◌, ◌∷◌, [], pos, Some, refl};
ghost use Rattle.fields.specs.Reading.{Prints, Undoes};
ghost use Rattle.tariff_value.specs.Types.{type_of, number_of, within_integer};
ghost use Rattle.tariff_value.specs.Fields.{letter, tariff_field, Valid};
ghost use Rattle.tariff_value.specs.Laws.{values_lawful};

use crate::number::within_type;
use crate::{TariffType, TariffValue};
use fields::Fielded;
use std::fmt;

// A type is printed as its letter.
impl fmt::Display for TariffType {
    ghost output = { λ t. Some (letter t ∷ []) };

    fn fmt<W: fmt::Write>(&self, f: &mut fmt::Formatter<W>) -> fmt::Result {
        f.write_str(match self {
            TariffType::Flag => "f",
            TariffType::Count => "c",
            TariffType::Gram => "g",
            TariffType::Cent => "p",
        })
    }
}

impl fmt::Display for TariffValue {
    ghost output = { λ v. Some (tariff_field v) };

    fn fmt<W: fmt::Write>(&self, f: &mut fmt::Formatter<W>) -> fmt::Result {
        write!(f, "{}{}", self.tariff_type(), u32::from(*self))
    }
}

impl Fielded for TariffValue {
    type Kind = TariffType;

    ghost letter = { letter };

    ghost kind = { type_of };

    ghost number = { λ v. pos (number_of v) };

    ghost made = { within_integer };

    ghost valid = { Valid };

    ghost lawful = { values_lawful };

    ghost prints = { λ v. refl };

    fn kind_with(byte: u8) -> Option<TariffType> {
        match byte {
            b'f' => Some(TariffType::Flag),
            b'c' => Some(TariffType::Count),
            b'g' => Some(TariffType::Gram),
            b'p' => Some(TariffType::Cent),
            _ => None,
        }
    }

    fn make(t: TariffType, z: i64) -> Option<TariffValue> {
        within_type(t, u64::try_from(z).ok()?)
    }
}

// The value that is written so, and none if none is: the reader of fields, with clauses in the words of a tariff.
pub fn from_field(text: &[u8]) -> Option<TariffValue>
    ensures prints { Prints Valid tariff_field text.now result }
    ensures undoes { Undoes Valid tariff_field text.now result }
{
    fields::from_field(text)
}
