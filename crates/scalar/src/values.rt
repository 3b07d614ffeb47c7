// The value part of the scalar host.
ghost use Rattle.scalar.specs.Values.{values};
ghost use Rattle.std.proofs.Common.{rules};

use host::Values;
use scalar_value::number::within_type;
use scalar_value::{Scalar, ScalarType};

// The host itself, which holds nothing.
#[derive(Clone, Copy)]
pub struct Scalars;

impl Values for Scalars {
    type Value = Scalar;

    ghost means = { λ _. values };

    ghost lawful = { Prim.search rules };

    fn type_of(&self, v: Scalar) -> u16 {
        u16::from(v.scalar_type())
    }

    fn truth(&self, v: Scalar) -> Option<bool> {
        match v {
            Scalar::Bool(b) => Some(b),
            _ => None,
        }
    }

    fn convert(&self, v: Scalar, t: u16) -> Option<Scalar> {
        match (v, ScalarType::try_from(t).ok()?) {
            (Scalar::AbstractInt(z), of @ (ScalarType::I32 | ScalarType::U32)) => {
                within_type(of, i128::from(z))
            }
            (v, of) => (v.scalar_type() == of).then_some(v),
        }
    }

    fn zero(&self, t: u16) -> Option<Scalar> {
        match ScalarType::try_from(t).ok()? {
            ScalarType::Bool => Some(Scalar::Bool(false)),
            ScalarType::AbstractInt => None,
            ScalarType::I32 => Some(Scalar::I32(0)),
            ScalarType::U32 => Some(Scalar::U32(0)),
        }
    }

    fn concretise(&self, t: u16) -> u16 {
        match ScalarType::try_from(t) {
            Ok(ScalarType::AbstractInt) => u16::from(ScalarType::I32),
            _ => t,
        }
    }
}
