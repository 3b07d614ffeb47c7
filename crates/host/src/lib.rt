#![tactic(auto)]
// What a host gives to an executor: values, and operators on them.
ghost use Rattle.std.specs.Prelude.{◌≡◌, ◌++◌, Some, Ok, codes, decimal};
ghost use Rattle.syntax.specs.Numbers.{numbered};
ghost use Rattle.syntax.specs.Symbols.{Reads};
ghost use Rattle.host.specs.Literals.{literal_number};
ghost use Rattle.host.specs.Meaning.{ValueMeaning, ValueLaws, OperatorMeaning, OperatorLaws};
ghost use Rattle.host.specs.Numbers.{stages, stage_number, stage_word, fault_number, step_fault_text};

use std::error::Error;
use std::fmt;
use std::str::FromStr;
use syntax::{BinaryOperator, UnaryOperator, UnknownNumber, UnknownWord};

// When an expression is evaluated.
#[derive(Clone, Copy, PartialEq, Eq, Debug)]
pub enum Stage {
    Const,
    Override,
    Exec,
}

// Why a host does not answer. `Other` is for a host that has faults of its own, by their numbers.
#[derive(Clone, Copy, PartialEq, Eq, Debug)]
pub enum HostFault {
    Unary,
    Binary,
    NegOverflow,
    AddOverflow,
    SubOverflow,
    MulOverflow,
    DivByZero,
    RemZeroDiv,
    Literal,
    Other(u16),
}

// Why `++` or `--` leads to no value.
#[derive(Clone, Copy, PartialEq, Eq, Debug)]
pub enum StepFault {
    Overflow,
    WrongType,
}

// The stage of a number, none from 3 on.
impl TryFrom<u16> for Stage {
    type Error = UnknownNumber;

    ghost try_from_gives = { λ number r. r ≡ numbered stages number };

    fn try_from(number: u16) -> Result<Stage, UnknownNumber> {
        match number {
            0 => Ok(Stage::Const),
            1 => Ok(Stage::Override),
            2 => Ok(Stage::Exec),
            _ => Err(UnknownNumber(number)),
        }
    }
}

// The number of a stage, from which the stage is read back.
impl From<Stage> for u16 {
    ghost from_gives = { λ stage n. (n ≡ stage_number stage) × (numbered stages n ≡ Ok stage) };

    fn from(stage: Stage) -> u16 {
        match stage {
            Stage::Const => 0,
            Stage::Override => 1,
            Stage::Exec => 2,
        }
    }
}

// The stage of a word: `const`, `override` or `exec`.
impl FromStr for Stage {
    type Err = UnknownWord;

    ghost from_str_gives = { Reads stage_word };

    fn from_str(text: &str) -> Result<Stage, UnknownWord> {
        match text {
            "const" => Ok(Stage::Const),
            "override" => Ok(Stage::Override),
            "exec" => Ok(Stage::Exec),
            _ => Err(UnknownWord),
        }
    }
}

// The number of a fault, under which a refusal is printed.
impl From<HostFault> for u16 {
    ghost from_gives = { λ fault n. n ≡ fault_number fault };

    fn from(fault: HostFault) -> u16 {
        match fault {
            HostFault::Unary => 40,
            HostFault::Binary => 41,
            HostFault::NegOverflow => 42,
            HostFault::AddOverflow => 43,
            HostFault::SubOverflow => 44,
            HostFault::MulOverflow => 45,
            HostFault::DivByZero => 46,
            HostFault::RemZeroDiv => 47,
            HostFault::Literal => 55,
            HostFault::Other(number) => number,
        }
    }
}

// A fault is written as `!` and its number.
impl fmt::Display for HostFault {
    ghost output = { λ fault. Some (codes "!" ++ decimal (fault_number fault)) };

    fn fmt<W: fmt::Write>(&self, f: &mut fmt::Formatter<W>) -> fmt::Result {
        write!(f, "!{}", u16::from(*self))
    }
}

impl Error for HostFault {}

impl fmt::Display for StepFault {
    ghost output = { λ fault. Some (step_fault_text fault) };

    fn fmt<W: fmt::Write>(&self, f: &mut fmt::Formatter<W>) -> fmt::Result {
        f.write_str(match self {
            StepFault::Overflow => "overflow",
            StepFault::WrongType => "wrong type",
        })
    }
}

impl Error for StepFault {}

// The number that the words of a literal write, least word first.
pub fn literal_number(words: [u16; 4]) -> i64
    ensures { result ≡ literal_number words }
{
    let [a, b, c, d] = words.map(u64::from);
    (a + (b << 16) + (c << 32) + (d << 48)).cast_signed()
}

// The value part of a host. A type is a number.
pub trait Values {
    type Value: Copy;

    ghost means: { Self → ValueMeaning Self.Value };

    fn type_of(&self, v: Self::Value) -> u16
        ensures { result ≡ (means self.now).type_of v };

    fn truth(&self, v: Self::Value) -> Option<bool>
        ensures { result ≡ (means self.now).truth v };

    fn convert(&self, v: Self::Value, t: u16) -> Option<Self::Value>
        ensures { result ≡ (means self.now).convert v t };

    fn zero(&self, t: u16) -> Option<Self::Value>
        ensures { result ≡ (means self.now).zero t };

    fn concretise(&self, t: u16) -> u16
        ensures { result ≡ (means self.now).concretise t };

    ghost lawful: { (h : Self) → ValueLaws (means h) };
}

// The operator part of a host.
pub trait Operators: Values {
    ghost acts: { Self → OperatorMeaning Self.Value };

    fn literal(&self, kind: u16, words: [u16; 4]) -> Result<Self::Value, HostFault>
        ensures { result ≡ (acts self.now).literal kind words };

    fn unary(
        &self,
        stage: Stage,
        op: UnaryOperator,
        v: Self::Value,
    ) -> Result<Self::Value, HostFault>
        ensures { result ≡ (acts self.now).unary stage op v };

    fn binary(
        &self,
        stage: Stage,
        op: BinaryOperator,
        a: Self::Value,
        b: Self::Value,
    ) -> Result<Self::Value, HostFault>
        ensures { result ≡ (acts self.now).binary stage op a b };

    // Whether two values are the same for a `switch`.
    fn same(&self, a: Self::Value, b: Self::Value) -> Result<bool, HostFault>
        ensures { result ≡ (acts self.now).same a b };

    // One more, as `++` has it. It stands apart from `down` as `++` does from `--`: with the direction as an argument,
    // every host would ask for it again.
    fn up(&self, v: Self::Value) -> Result<Self::Value, StepFault>
        ensures { result ≡ (acts self.now).up v };

    // One less, as `--` has it.
    fn down(&self, v: Self::Value) -> Result<Self::Value, StepFault>
        ensures { result ≡ (acts self.now).down v };

    ghost keeps: { (h : Self) → OperatorLaws (Self.Values.means h) (acts h) };
}
