// The operator part of the scalar host.
ghost use Rattle.std.specs.Prelude.{◌≡◌};
ghost use Rattle.scalar.specs.Operators.{negation, logical_negation, complement, beside, stepped, operators};
ghost use Rattle.std.proofs.Common.{rules};
ghost use Rattle.scalar.specs.Laws.{both_sound};

use crate::values::Scalars;
use arithmetic::operate;
use host::{HostFault, Operators, Stage, StepFault, Values, literal_number};
use scalar_value::number::within_type;
use scalar_value::{Scalar, ScalarType};
use syntax::{BinaryOperator, UnaryOperator};

fn negate(v: Scalar) -> Result<Scalar, HostFault>
    ensures { result ≡ negation v }
{
    match v {
        Scalar::AbstractInt(z) => Ok(Scalar::AbstractInt(z.wrapping_neg())),
        Scalar::I32(z) => Ok(Scalar::I32(z.wrapping_neg())),
        _ => Err(HostFault::Unary),
    }
}

fn not(v: Scalar) -> Result<Scalar, HostFault>
    ensures { result ≡ logical_negation v }
{
    match v {
        Scalar::Bool(b) => Ok(Scalar::Bool(!b)),
        _ => Err(HostFault::Unary),
    }
}

fn turn_bits(v: Scalar) -> Result<Scalar, HostFault>
    ensures { result ≡ complement v }
{
    match v {
        Scalar::Bool(_) => Err(HostFault::Unary),
        Scalar::AbstractInt(z) => Ok(Scalar::AbstractInt(!z)),
        Scalar::I32(z) => Ok(Scalar::I32(!z)),
        Scalar::U32(n) => Ok(Scalar::U32(!n)),
    }
}

// What a value becomes beside another: an AbstractInt takes the other's type.
fn take_type(v: Scalar, other: Scalar) -> Option<Scalar>
    ensures { result ≡ beside v other }
{
    match v {
        Scalar::AbstractInt(_) => Scalars.convert(v, u16::from(other.scalar_type())),
        _ => Some(v),
    }
}

// A step of an I32 or a U32, by 1 or -1, which wraps.
fn step(by: i32, v: Scalar) -> Result<Scalar, StepFault>
    ensures { result ≡ stepped by v }
{
    match v {
        Scalar::I32(z) => Ok(Scalar::I32(z.wrapping_add(by))),
        Scalar::U32(n) => Ok(Scalar::U32(n.wrapping_add_signed(by))),
        _ => Err(StepFault::WrongType),
    }
}

impl Operators for Scalars {
    ghost acts = { λ _. operators };

    ghost keeps = { λ h.
        record {
          literals = Prim.search rules;
          unaries = Prim.search rules;
          binaries = λ s op v w. both_sound s op (beside v w) (beside w v);
          sames = Prim.search rules;
          ups = Prim.search rules;
          downs = Prim.search rules;
        } };

    fn literal(&self, kind: u16, words: [u16; 4]) -> Result<Scalar, HostFault> {
        let t = ScalarType::try_from(kind).map_err(|_| HostFault::Literal)?;
        within_type(t, i128::from(literal_number(words))).ok_or(HostFault::Literal)
    }

    fn unary(&self, _stage: Stage, op: UnaryOperator, v: Scalar) -> Result<Scalar, HostFault> {
        match op {
            UnaryOperator::Negation => negate(v),
            UnaryOperator::LogicalNegation => not(v),
            UnaryOperator::BitwiseComplement => turn_bits(v),
        }
    }

    fn binary(
        &self,
        stage: Stage,
        op: BinaryOperator,
        a: Scalar,
        b: Scalar,
    ) -> Result<Scalar, HostFault> {
        let v = take_type(a, b).ok_or(HostFault::Binary)?;
        let w = take_type(b, a).ok_or(HostFault::Binary)?;
        operate(stage, op, v, w)
    }

    fn same(&self, a: Scalar, b: Scalar) -> Result<bool, HostFault> {
        Ok(a == b)
    }

    fn up(&self, v: Scalar) -> Result<Scalar, StepFault> {
        step(1, v)
    }

    fn down(&self, v: Scalar) -> Result<Scalar, StepFault> {
        step(-1, v)
    }
}
