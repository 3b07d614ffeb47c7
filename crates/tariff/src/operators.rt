// The operator part of the tariff host.
ghost use Rattle.std.specs.Prelude.{◌≡◌, ◌&&◌, ok_or};
ghost use Rattle.std.specs.Option.{option_map};
ghost use Rattle.tariff_value.specs.declared.TariffValue.TheVariants.{Flag};
ghost use Rattle.tariff_value.specs.Types.{value};
ghost use Rattle.tariff.specs.Operators.{logical_negation, is_amount, same_type, sum_type, product_type, quotient_type, flags, answer, operation, counted, operators};
ghost use Rattle.std.proofs.Common.{rules};

use crate::values::Tariff;
use host::{HostFault, Operators, Stage, StepFault, literal_number};
use syntax::{BinaryOperator, UnaryOperator};
use tariff_value::number::{of_type, within_type};
use tariff_value::{TariffType, TariffValue};

fn negate_flag(v: TariffValue) -> Result<TariffValue, HostFault>
    ensures { result ≡ logical_negation v }
{
    match v {
        TariffValue::Flag(b) => Ok(TariffValue::Flag(!b)),
        _ => Err(HostFault::Unary),
    }
}

// Whether the types are one, of an amount.
fn comparable(s: TariffType, t: TariffType) -> bool
    ensures { result ≡ (is_amount s && same_type s t) }
{
    s != TariffType::Flag && s == t
}

// The type of a sum, a difference or a remainder.
fn type_of_sum(s: TariffType, t: TariffType) -> Option<TariffType>
    ensures { result ≡ sum_type s t }
{
    comparable(s, t).then_some(s)
}

fn type_of_product(s: TariffType, t: TariffType) -> Option<TariffType>
    ensures { result ≡ product_type s t }
{
    match (s, t) {
        (TariffType::Flag, _) | (_, TariffType::Flag) => None,
        (_, TariffType::Count) => Some(s),
        (TariffType::Count, _) => Some(t),
        _ => None,
    }
}

fn type_of_quotient(s: TariffType, t: TariffType) -> Option<TariffType>
    ensures { result ≡ quotient_type s t }
{
    match (s, t) {
        (TariffType::Flag, _) => None,
        (_, TariffType::Count) => Some(s),
        _ => (s == t).then_some(TariffType::Count),
    }
}

// A value of the type with the number, and the fault where there is none.
fn typed(t: TariffType, n: Option<u32>, fault: HostFault) -> Result<TariffValue, HostFault>
    ensures { result ≡ ok_or (option_map (value t) n) fault }
{
    n.map(|n| of_type(t, n)).ok_or(fault)
}

// An operator on the truths of two Flags.
fn on_flags<F: Fn(bool, bool) -> bool>(
    v: TariffValue,
    w: TariffValue,
    f: F,
) -> Result<TariffValue, HostFault>
    requires { F.IsAlwaysCallable f }
    ensures { (r : _) × ((a b : _) → v ≡ Flag a → w ≡ Flag b → F.post f a b r) × (result ≡ flags (λ a b. r) v w) }
{
    match (v, w) {
        (TariffValue::Flag(a), TariffValue::Flag(b)) => Ok(TariffValue::Flag(f(a, b))),
        _ => Err(HostFault::Binary),
    }
}

// A truth, where the operator exists.
fn answer_if(exists: bool, b: bool) -> Result<TariffValue, HostFault>
    ensures { result ≡ answer exists b }
{
    exists
        .then_some(TariffValue::Flag(b))
        .ok_or(HostFault::Binary)
}

// An operator on two values.
fn operate(op: BinaryOperator, v: TariffValue, w: TariffValue) -> Result<TariffValue, HostFault>
    ensures { result ≡ operation op v w }
{
    let (s, t) = (v.tariff_type(), w.tariff_type());
    let (m, n) = (u32::from(v), u32::from(w));
    // closures, so that an operator pays for its own type alone
    let sum = || type_of_sum(s, t).ok_or(HostFault::Binary);
    let product = || type_of_product(s, t).ok_or(HostFault::Binary);
    let quotient = || type_of_quotient(s, t).ok_or(HostFault::Binary);
    match op {
        BinaryOperator::Addition => typed(sum()?, m.checked_add(n), HostFault::AddOverflow),
        BinaryOperator::Subtraction => typed(sum()?, m.checked_sub(n), HostFault::SubOverflow),
        BinaryOperator::Multiplication => typed(
            product()?,
            m.checked_mul(n),
            HostFault::MulOverflow,
        ),
        BinaryOperator::Division => typed(quotient()?, m.checked_div(n), HostFault::DivByZero),
        BinaryOperator::Remainder => typed(sum()?, m.checked_rem(n), HostFault::RemZeroDiv),
        BinaryOperator::BinaryAnd => on_flags(v, w, |a, b| a && b),
        BinaryOperator::BinaryOr => on_flags(v, w, |a, b| a || b),
        BinaryOperator::BinaryXor => Err(HostFault::Binary),
        BinaryOperator::Equality => answer_if(s == t, m == n),
        BinaryOperator::Inequality => answer_if(s == t, m != n),
        BinaryOperator::LessThan => answer_if(comparable(s, t), m < n),
        BinaryOperator::LessThanEqual => answer_if(comparable(s, t), m <= n),
        BinaryOperator::GreaterThan => answer_if(comparable(s, t), m > n),
        BinaryOperator::GreaterThanEqual => answer_if(comparable(s, t), m >= n),
    }
}

// The number of a Count, which alone is stepped.
fn count_in(v: TariffValue) -> Result<u32, StepFault>
    ensures { result ≡ counted v }
{
    match v {
        TariffValue::Count(n) => Ok(n),
        _ => Err(StepFault::WrongType),
    }
}

impl Operators for Tariff {
    ghost acts = { λ _. operators };

    ghost keeps = { Prim.search rules };

    // Two lines in each host, with its own types: a function for both would need a trait of types.
    fn literal(&self, kind: u16, words: [u16; 4]) -> Result<TariffValue, HostFault> {
        let t = TariffType::try_from(kind).map_err(|_| HostFault::Literal)?;
        let n = u64::try_from(literal_number(words)).map_err(|_| HostFault::Literal)?;
        within_type(t, n).ok_or(HostFault::Literal)
    }

    fn unary(
        &self,
        _stage: Stage,
        op: UnaryOperator,
        v: TariffValue,
    ) -> Result<TariffValue, HostFault> {
        match op {
            UnaryOperator::LogicalNegation => negate_flag(v),
            _ => Err(HostFault::Unary),
        }
    }

    fn binary(
        &self,
        _stage: Stage,
        op: BinaryOperator,
        a: TariffValue,
        b: TariffValue,
    ) -> Result<TariffValue, HostFault> {
        operate(op, a, b)
    }

    fn same(&self, a: TariffValue, b: TariffValue) -> Result<bool, HostFault> {
        Ok(a == b)
    }

    fn up(&self, v: TariffValue) -> Result<TariffValue, StepFault> {
        let next = count_in(v)?.checked_add(1);
        next.map(TariffValue::Count).ok_or(StepFault::Overflow)
    }

    fn down(&self, v: TariffValue) -> Result<TariffValue, StepFault> {
        let next = count_in(v)?.checked_sub(1);
        next.map(TariffValue::Count).ok_or(StepFault::Overflow)
    }
}
