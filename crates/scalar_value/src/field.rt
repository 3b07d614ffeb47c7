// A scalar as a field: a letter for its type, and its number in shortest decimals.
ghost use Rattle.std.specs.Prelude.{◌≡◌, ◌∷◌, [], Some, refl};
ghost use Rattle.fields.specs.Reading.{Prints, Undoes};
ghost use Rattle.scalar_value.specs.Numbers.{type_of, number_of, within};
ghost use Rattle.scalar_value.specs.Fields.{letter, scalar_field, Valid};
ghost use Rattle.scalar_value.specs.Laws.{scalars_lawful};

use crate::number::within_type;
use crate::{Scalar, ScalarType};
use fields::Fielded;
use std::fmt;

// A type is printed as its letter.
impl fmt::Display for ScalarType {
    ghost output = { λ t. Some (letter t ∷ []) };

    fn fmt<W: fmt::Write>(&self, f: &mut fmt::Formatter<W>) -> fmt::Result {
        f.write_str(match self {
            ScalarType::Bool => "b",
            ScalarType::AbstractInt => "a",
            ScalarType::I32 => "i",
            ScalarType::U32 => "u",
        })
    }
}

impl fmt::Display for Scalar {
    ghost output = { λ v. Some (scalar_field v) };

    fn fmt<W: fmt::Write>(&self, f: &mut fmt::Formatter<W>) -> fmt::Result {
        write!(f, "{}{}", self.scalar_type(), i64::from(*self))
    }
}

impl Fielded for Scalar {
    type Kind = ScalarType;

    ghost letter = { letter };

    ghost kind = { type_of };

    ghost number = { number_of };

    ghost made = { within };

    ghost valid = { Valid };

    ghost lawful = { scalars_lawful };

    ghost prints = { λ v. refl };

    fn kind_with(byte: u8) -> Option<ScalarType> {
        match byte {
            b'b' => Some(ScalarType::Bool),
            b'a' => Some(ScalarType::AbstractInt),
            b'i' => Some(ScalarType::I32),
            b'u' => Some(ScalarType::U32),
            _ => None,
        }
    }

    fn make(t: ScalarType, z: i64) -> Option<Scalar> {
        within_type(t, i128::from(z))
    }
}

// The scalar that is written so, and none if none is: the reader of fields, with clauses in the words of scalars.
pub fn from_field(text: &[u8]) -> Option<Scalar>
    ensures prints { Prints Valid scalar_field text.now result }
    ensures undoes { Undoes Valid scalar_field text.now result }
{
    fields::from_field(text)
}
