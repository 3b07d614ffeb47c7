#![tactic(auto)]
// The words of WGSL that a book writes as numbers: operators and kinds of declaration.
ghost use Rattle.std.specs.Prelude.{◌≡◌, ◌++◌, Some, codes, decimal};
ghost use Rattle.syntax.specs.Numbers.{numbered, unary_operators, binary_operators, short_circuits, declaration_kinds};
ghost use Rattle.syntax.specs.Symbols.{Reads, unary_symbol, binary_symbol, short_circuit_symbol, kind_word};

use std::error::Error;
use std::fmt;
use std::str::FromStr;

// An operator before its operand.
#[derive(Clone, Copy, PartialEq, Eq, Debug)]
pub enum UnaryOperator {
    Negation,
    LogicalNegation,
    BitwiseComplement,
}

// An operator between two operands, both of which are evaluated.
#[derive(Clone, Copy, PartialEq, Eq, Debug)]
pub enum BinaryOperator {
    Addition,
    Subtraction,
    Multiplication,
    Division,
    Remainder,
    BinaryAnd,
    BinaryOr,
    BinaryXor,
    Equality,
    Inequality,
    LessThan,
    LessThanEqual,
    GreaterThan,
    GreaterThanEqual,
}

// An operator whose right operand is evaluated only if it is needed.
#[derive(Clone, Copy, PartialEq, Eq, Debug)]
pub enum ShortCircuit {
    And,
    Or,
}

#[derive(Clone, Copy, PartialEq, Eq, Debug)]
pub enum DeclarationKind {
    Const,
    Let,
    Var,
}

// A number that stands for nothing where it was read.
#[derive(Clone, Copy, PartialEq, Eq, Debug)]
pub struct UnknownNumber(pub u16);

impl fmt::Display for UnknownNumber {
    ghost output = { λ e. Some (codes "nothing has the number " ++ decimal e.0) };

    fn fmt<W: fmt::Write>(&self, f: &mut fmt::Formatter<W>) -> fmt::Result {
        write!(f, "nothing has the number {}", self.0)
    }
}

impl Error for UnknownNumber {}

// A text that is no word for what was asked.
#[derive(Clone, Copy, PartialEq, Eq, Debug)]
pub struct UnknownWord;

impl fmt::Display for UnknownWord {
    ghost output = { λ _. Some (codes "no such word") };

    fn fmt<W: fmt::Write>(&self, f: &mut fmt::Formatter<W>) -> fmt::Result {
        f.write_str("no such word")
    }
}

impl Error for UnknownWord {}

// The operator of a number, none from 3 on.
impl TryFrom<u16> for UnaryOperator {
    type Error = UnknownNumber;

    ghost try_from_gives = { λ number r. r ≡ numbered unary_operators number };

    fn try_from(number: u16) -> Result<UnaryOperator, UnknownNumber> {
        match number {
            0 => Ok(UnaryOperator::Negation),
            1 => Ok(UnaryOperator::LogicalNegation),
            2 => Ok(UnaryOperator::BitwiseComplement),
            _ => Err(UnknownNumber(number)),
        }
    }
}

impl UnaryOperator {
    // The operator as WGSL writes it.
    pub fn symbol(self) -> &'static str
        ensures { result.now ≡ unary_symbol self }
    {
        match self {
            UnaryOperator::Negation => "-",
            UnaryOperator::LogicalNegation => "!",
            UnaryOperator::BitwiseComplement => "~",
        }
    }
}

impl fmt::Display for UnaryOperator {
    ghost output = { λ v. Some (unary_symbol v) };

    fn fmt<W: fmt::Write>(&self, f: &mut fmt::Formatter<W>) -> fmt::Result {
        f.write_str(UnaryOperator::symbol(*self))
    }
}

impl FromStr for UnaryOperator {
    type Err = UnknownWord;

    ghost from_str_gives = { Reads unary_symbol };

    fn from_str(text: &str) -> Result<UnaryOperator, UnknownWord> {
        match text {
            "-" => Ok(UnaryOperator::Negation),
            "!" => Ok(UnaryOperator::LogicalNegation),
            "~" => Ok(UnaryOperator::BitwiseComplement),
            _ => Err(UnknownWord),
        }
    }
}

// The operator of a number, none from 14 on: 14 and 15 are the short circuits.
impl TryFrom<u16> for BinaryOperator {
    type Error = UnknownNumber;

    ghost try_from_gives = { λ number r. r ≡ numbered binary_operators number };

    fn try_from(number: u16) -> Result<BinaryOperator, UnknownNumber> {
        match number {
            0 => Ok(BinaryOperator::Addition),
            1 => Ok(BinaryOperator::Subtraction),
            2 => Ok(BinaryOperator::Multiplication),
            3 => Ok(BinaryOperator::Division),
            4 => Ok(BinaryOperator::Remainder),
            5 => Ok(BinaryOperator::BinaryAnd),
            6 => Ok(BinaryOperator::BinaryOr),
            7 => Ok(BinaryOperator::BinaryXor),
            8 => Ok(BinaryOperator::Equality),
            9 => Ok(BinaryOperator::Inequality),
            10 => Ok(BinaryOperator::LessThan),
            11 => Ok(BinaryOperator::LessThanEqual),
            12 => Ok(BinaryOperator::GreaterThan),
            13 => Ok(BinaryOperator::GreaterThanEqual),
            _ => Err(UnknownNumber(number)),
        }
    }
}

impl BinaryOperator {
    // The operator as WGSL writes it.
    pub fn symbol(self) -> &'static str
        ensures { result.now ≡ binary_symbol self }
    {
        match self {
            BinaryOperator::Addition => "+",
            BinaryOperator::Subtraction => "-",
            BinaryOperator::Multiplication => "*",
            BinaryOperator::Division => "/",
            BinaryOperator::Remainder => "%",
            BinaryOperator::BinaryAnd => "&",
            BinaryOperator::BinaryOr => "|",
            BinaryOperator::BinaryXor => "^",
            BinaryOperator::Equality => "==",
            BinaryOperator::Inequality => "!=",
            BinaryOperator::LessThan => "<",
            BinaryOperator::LessThanEqual => "<=",
            BinaryOperator::GreaterThan => ">",
            BinaryOperator::GreaterThanEqual => ">=",
        }
    }
}

impl fmt::Display for BinaryOperator {
    ghost output = { λ v. Some (binary_symbol v) };

    fn fmt<W: fmt::Write>(&self, f: &mut fmt::Formatter<W>) -> fmt::Result {
        f.write_str(BinaryOperator::symbol(*self))
    }
}

impl FromStr for BinaryOperator {
    type Err = UnknownWord;

    ghost from_str_gives = { Reads binary_symbol };

    fn from_str(text: &str) -> Result<BinaryOperator, UnknownWord> {
        match text {
            "+" => Ok(BinaryOperator::Addition),
            "-" => Ok(BinaryOperator::Subtraction),
            "*" => Ok(BinaryOperator::Multiplication),
            "/" => Ok(BinaryOperator::Division),
            "%" => Ok(BinaryOperator::Remainder),
            "&" => Ok(BinaryOperator::BinaryAnd),
            "|" => Ok(BinaryOperator::BinaryOr),
            "^" => Ok(BinaryOperator::BinaryXor),
            "==" => Ok(BinaryOperator::Equality),
            "!=" => Ok(BinaryOperator::Inequality),
            "<" => Ok(BinaryOperator::LessThan),
            "<=" => Ok(BinaryOperator::LessThanEqual),
            ">" => Ok(BinaryOperator::GreaterThan),
            ">=" => Ok(BinaryOperator::GreaterThanEqual),
            _ => Err(UnknownWord),
        }
    }
}

// The short circuit of a number, 0 or 1, that is counted on from the last binary operator.
impl TryFrom<u16> for ShortCircuit {
    type Error = UnknownNumber;

    ghost try_from_gives = { λ number r. r ≡ numbered short_circuits number };

    fn try_from(number: u16) -> Result<ShortCircuit, UnknownNumber> {
        match number {
            0 => Ok(ShortCircuit::And),
            1 => Ok(ShortCircuit::Or),
            _ => Err(UnknownNumber(number)),
        }
    }
}

impl ShortCircuit {
    // The operator as WGSL writes it.
    pub fn symbol(self) -> &'static str
        ensures { result.now ≡ short_circuit_symbol self }
    {
        match self {
            ShortCircuit::And => "&&",
            ShortCircuit::Or => "||",
        }
    }
}

impl fmt::Display for ShortCircuit {
    ghost output = { λ v. Some (short_circuit_symbol v) };

    fn fmt<W: fmt::Write>(&self, f: &mut fmt::Formatter<W>) -> fmt::Result {
        f.write_str(ShortCircuit::symbol(*self))
    }
}

// The kind of a number, none from 3 on.
impl TryFrom<u16> for DeclarationKind {
    type Error = UnknownNumber;

    ghost try_from_gives = { λ number r. r ≡ numbered declaration_kinds number };

    fn try_from(number: u16) -> Result<DeclarationKind, UnknownNumber> {
        match number {
            0 => Ok(DeclarationKind::Const),
            1 => Ok(DeclarationKind::Let),
            2 => Ok(DeclarationKind::Var),
            _ => Err(UnknownNumber(number)),
        }
    }
}

impl DeclarationKind {
    // The kind as WGSL writes it.
    pub fn symbol(self) -> &'static str
        ensures { result.now ≡ kind_word self }
    {
        match self {
            DeclarationKind::Const => "const",
            DeclarationKind::Let => "let",
            DeclarationKind::Var => "var",
        }
    }
}

impl fmt::Display for DeclarationKind {
    ghost output = { λ v. Some (kind_word v) };

    fn fmt<W: fmt::Write>(&self, f: &mut fmt::Formatter<W>) -> fmt::Result {
        f.write_str(DeclarationKind::symbol(*self))
    }
}

impl FromStr for DeclarationKind {
    type Err = UnknownWord;

    ghost from_str_gives = { Reads kind_word };

    fn from_str(text: &str) -> Result<DeclarationKind, UnknownWord> {
        match text {
            "const" => Ok(DeclarationKind::Const),
            "let" => Ok(DeclarationKind::Let),
            "var" => Ok(DeclarationKind::Var),
            _ => Err(UnknownWord),
        }
    }
}
