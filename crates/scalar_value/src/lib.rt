#![tactic(auto)]
// Scalars: booleans and integers, as numbers of a type and as fields.
pub mod field;
pub mod number;

#[derive(Clone, Copy, PartialEq, Eq, Debug)]
pub enum ScalarType {
    Bool,
    AbstractInt,
    I32,
    U32,
}

#[derive(Clone, Copy, PartialEq, Eq, Debug)]
pub enum Scalar {
    Bool(bool),
    AbstractInt(i64),
    I32(i32),
    U32(u32),
}
