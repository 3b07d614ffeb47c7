#![tactic(auto)]
// The operators on two scalars of one type: the exact result, brought into the type.
ghost use Rattle.std.specs.Prelude.{◌≡◌, ◌≢◌, true, pos, Ok};
ghost use Rattle.scalar_value.specs.declared.ScalarType.TheVariants.{Bool as BoolType};
ghost use Rattle.scalar_value.specs.Types.{inside};
ghost use Rattle.scalar_value.specs.Numbers.{wrapped};
ghost use Rattle.arithmetic.specs.Operations.{concrete, settled, sum, difference, product, lenient, unless, quotient, remainder, equals, bits, answer, operation, alike};

use host::{HostFault, Stage};
use scalar_value::number::{within_type, wrap_into};
use scalar_value::{Scalar, ScalarType};
use syntax::BinaryOperator;

fn is_concrete(t: ScalarType) -> bool
    ensures { result ≡ concrete t }
{
    matches!(t, ScalarType::I32 | ScalarType::U32)
}

// An exact result: I32 and U32 wrap, an AbstractInt outside its range is the fault.
fn settle(fault: HostFault, t: ScalarType, z: i128) -> Result<Scalar, HostFault>
    ensures { result ≡ settled fault t z }
{
    if is_concrete(t) {
        Ok(wrap_into(t, z))
    } else {
        within_type(t, z).ok_or(fault)
    }
}

fn is_lenient(stage: Stage, t: ScalarType) -> bool
    ensures { result ≡ lenient stage t }
{
    stage == Stage::Exec && is_concrete(t)
}

// The value in a lenient division, and else the fault.
fn lenient_or(fault: HostFault, stage: Stage, t: ScalarType, v: Scalar) -> Result<Scalar, HostFault>
    ensures { result ≡ unless fault stage t v }
{
    if is_lenient(stage, t) {
        Ok(v)
    } else {
        Err(fault)
    }
}

fn answer_of(b: bool) -> Result<Scalar, HostFault>
    ensures { result ≡ answer b }
{
    Ok(Scalar::Bool(b))
}

pub fn are_equal(m: i64, n: i64) -> bool
    ensures { result ≡ equals m n }
{
    m == n
}

// Two numbers of one type.
#[derive(Clone, Copy)]
struct Pair {
    of: ScalarType,
    m: i64,
    n: i64,
    ghost m_inside: { inside of m ≡ true },
    ghost n_inside: { inside of n ≡ true },
}

// Sum, difference and product are one call each: as one function over a closure they would be longer.
impl Pair {
    fn add(self) -> Result<Scalar, HostFault>
        ensures { result ≡ sum self.of self.m self.n }
    {
        settle(
            HostFault::AddOverflow,
            self.of,
            i128::from(self.m) + i128::from(self.n),
        )
    }

    fn subtract(self) -> Result<Scalar, HostFault>
        ensures { result ≡ difference self.of self.m self.n }
    {
        settle(
            HostFault::SubOverflow,
            self.of,
            i128::from(self.m) - i128::from(self.n),
        )
    }

    fn multiply(self) -> Result<Scalar, HostFault>
        ensures { result ≡ product self.of self.m self.n }
    {
        settle(
            HostFault::MulOverflow,
            self.of,
            i128::from(self.m) * i128::from(self.n),
        )
    }

    fn divide(self, stage: Stage) -> Result<Scalar, HostFault>
        ensures { result ≡ quotient stage self.of self.m self.n }
    {
        let (t, m, n) = (self.of, i128::from(self.m), i128::from(self.n));
        if n == 0 {
            return lenient_or(HostFault::DivByZero, stage, t, wrap_into(t, m));
        }
        // an absent quotient leads to another answer, and to a fault only where the division is not lenient
        match within_type(t, m / n) {
            Some(v) => Ok(v),
            None => lenient_or(HostFault::NegOverflow, stage, t, wrap_into(t, m)),
        }
    }

    fn rest(self, stage: Stage) -> Result<Scalar, HostFault>
        ensures { result ≡ remainder stage self.of self.m self.n }
    {
        let (t, m, n) = (self.of, i128::from(self.m), i128::from(self.n));
        if n == 0 {
            return lenient_or(HostFault::RemZeroDiv, stage, t, wrap_into(t, 0));
        }
        Ok(wrap_into(t, m % n))
    }

    // An operator on the bits of the two numbers.
    fn bitwise<F: Fn(u64, u64) -> u64>(self, f: F) -> Result<Scalar, HostFault>
        requires { F.IsAlwaysCallable f }
        ensures { (word : _) × F.post f (bits self.of self.m) (bits self.of self.n) word × (result ≡ Ok (wrapped self.of (pos word))) }
    {
        let a = bits_of(self.of, self.m);
        let b = bits_of(self.of, self.n);
        Ok(wrap_into(self.of, i128::from(f(a, b))))
    }

    // An operator on two Bools: there are but four.
    fn operate_on_bools(self, op: BinaryOperator) -> Result<Scalar, HostFault>
        requires { self.of ≡ BoolType }
        ensures { (stage : Stage) → result ≡ operation stage op BoolType self.m self.n }
    {
        match op {
            BinaryOperator::BinaryAnd => self.bitwise(|a, b| a & b),
            BinaryOperator::BinaryOr => self.bitwise(|a, b| a | b),
            BinaryOperator::Equality => answer_of(are_equal(self.m, self.n)),
            BinaryOperator::Inequality => answer_of(!are_equal(self.m, self.n)),
            _ => Err(HostFault::Binary),
        }
    }

    // An operator on two integers of one type.
    fn operate_on_integers(self, stage: Stage, op: BinaryOperator) -> Result<Scalar, HostFault>
        requires { self.of ≢ BoolType }
        ensures { result ≡ operation stage op self.of self.m self.n }
    {
        match op {
            BinaryOperator::Addition => self.add(),
            BinaryOperator::Subtraction => self.subtract(),
            BinaryOperator::Multiplication => self.multiply(),
            BinaryOperator::Division => self.divide(stage),
            BinaryOperator::Remainder => self.rest(stage),
            BinaryOperator::BinaryAnd => self.bitwise(|a, b| a & b),
            BinaryOperator::BinaryOr => self.bitwise(|a, b| a | b),
            BinaryOperator::BinaryXor => self.bitwise(|a, b| a ^ b),
            BinaryOperator::Equality => answer_of(are_equal(self.m, self.n)),
            BinaryOperator::Inequality => answer_of(!are_equal(self.m, self.n)),
            BinaryOperator::LessThan => answer_of(self.m < self.n),
            BinaryOperator::LessThanEqual => answer_of(self.m <= self.n),
            BinaryOperator::GreaterThan => answer_of(self.m > self.n),
            BinaryOperator::GreaterThanEqual => answer_of(self.m >= self.n),
        }
    }

    // What an operator answers, first by the type: one match with a guard for Bools takes a third longer.
    fn operate(self, stage: Stage, op: BinaryOperator) -> Result<Scalar, HostFault>
        ensures { result ≡ operation stage op self.of self.m self.n }
    {
        match self.of {
            ScalarType::Bool => self.operate_on_bools(op),
            _ => self.operate_on_integers(stage, op),
        }
    }
}

// The bits of a number in its type.
fn bits_of(t: ScalarType, z: i64) -> u64
    ensures { result ≡ bits t z }
{
    i128::from(z).rem_euclid(t.size()) as u64
}

// An operator on two scalars, which exists for scalars of one type alone.
pub fn operate(stage: Stage, op: BinaryOperator, v: Scalar, w: Scalar) -> Result<Scalar, HostFault>
    ensures { result ≡ alike stage op v w }
{
    if v.scalar_type() != w.scalar_type() {
        return Err(HostFault::Binary);
    }
    let pair = Pair {
        of: v.scalar_type(),
        m: i64::from(v),
        n: i64::from(w),
    };
    pair.operate(stage, op)
}
