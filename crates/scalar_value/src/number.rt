// Every scalar as a number of its type, and back.
ghost use Rattle.std.specs.Prelude.{◌≡◌, true, pos};
ghost use Rattle.syntax.specs.Numbers.{numbered};
ghost use Rattle.scalar_value.specs.Types.{scalar_types, type_number, size, highest, inside, wrap};
ghost use Rattle.scalar_value.specs.Numbers.{type_of, number_of, scalar, within, wrapped};

use crate::{Scalar, ScalarType};
use syntax::UnknownNumber;

// The type of a number, none from 4 on.
impl TryFrom<u16> for ScalarType {
    type Error = UnknownNumber;

    ghost try_from_gives = { λ number r. r ≡ numbered scalar_types number };

    fn try_from(number: u16) -> Result<ScalarType, UnknownNumber> {
        match number {
            0 => Ok(ScalarType::Bool),
            1 => Ok(ScalarType::AbstractInt),
            2 => Ok(ScalarType::I32),
            3 => Ok(ScalarType::U32),
            _ => Err(UnknownNumber(number)),
        }
    }
}

impl From<ScalarType> for u16 {
    ghost from_gives = { λ t n. n ≡ type_number t };

    fn from(t: ScalarType) -> u16 {
        match t {
            ScalarType::Bool => 0,
            ScalarType::AbstractInt => 1,
            ScalarType::I32 => 2,
            ScalarType::U32 => 3,
        }
    }
}

impl ScalarType {
    fn highest(self) -> i128
        ensures { result ≡ highest self }
    {
        match self {
            ScalarType::Bool => 1,
            ScalarType::AbstractInt => 9223372036854775807,
            ScalarType::I32 => 2147483647,
            ScalarType::U32 => 4294967295,
        }
    }

    // How many numbers the type has.
    pub fn size(self) -> i128
        ensures { result ≡ pos (size self) }
    {
        match self {
            ScalarType::Bool => 2,
            ScalarType::AbstractInt => 18446744073709551616,
            ScalarType::I32 | ScalarType::U32 => 4294967296,
        }
    }

    // The number of the type that differs from z by a multiple of the type's size.
    fn wrap(self, z: i128) -> i128
        ensures value { result ≡ wrap self z }
        ensures inside { inside self result ≡ true }
    {
        let rest = z.rem_euclid(self.size());
        if rest <= self.highest() {
            rest
        } else {
            rest - self.size()
        }
    }
}

impl Scalar {
    pub fn scalar_type(self) -> ScalarType
        ensures { result ≡ type_of self }
    {
        match self {
            Scalar::Bool(_) => ScalarType::Bool,
            Scalar::AbstractInt(_) => ScalarType::AbstractInt,
            Scalar::I32(_) => ScalarType::I32,
            Scalar::U32(_) => ScalarType::U32,
        }
    }
}

// The number of a scalar, false being 0 and true 1.
impl From<Scalar> for i64 {
    ghost from_gives = { λ v n. (n ≡ number_of v) × (inside (type_of v) n ≡ true) };

    fn from(v: Scalar) -> i64 {
        match v {
            Scalar::Bool(b) => i64::from(b),
            Scalar::AbstractInt(x) => x,
            Scalar::I32(x) => i64::from(x),
            Scalar::U32(x) => i64::from(x),
        }
    }
}

// The scalar of a type with the number z, if the type has that number.
pub fn within_type(t: ScalarType, z: i128) -> Option<Scalar>
    ensures { result ≡ within t z }
{
    match t {
        ScalarType::Bool => (z == 0 || z == 1).then_some(Scalar::Bool(z == 1)),
        ScalarType::AbstractInt => i64::try_from(z).ok().map(Scalar::AbstractInt),
        ScalarType::I32 => i32::try_from(z).ok().map(Scalar::I32),
        ScalarType::U32 => u32::try_from(z).ok().map(Scalar::U32),
    }
}

// The scalar of a type with the number z, wrapped into the type.
pub fn wrap_into(t: ScalarType, z: i128) -> Scalar
    ensures value { result ≡ wrapped t z }
    ensures keeps { inside t z ≡ true → result ≡ scalar t z }
{
    of_inside(t, t.wrap(z))
}

// The scalar of a number that its type has: no range is tested again.
fn of_inside(t: ScalarType, z: i128) -> Scalar
    requires { inside t z ≡ true }
    ensures { result ≡ scalar t z }
{
    match t {
        ScalarType::Bool => Scalar::Bool(z != 0),
        ScalarType::AbstractInt => Scalar::AbstractInt(z as i64),
        ScalarType::I32 => Scalar::I32(z as i32),
        ScalarType::U32 => Scalar::U32(z as u32),
    }
}
