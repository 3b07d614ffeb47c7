#![tactic(auto)]
// Values of a tariff: flags, counts, weights and prices, as numbers of a type and as fields.
pub mod field;
pub mod number;

#[derive(Clone, Copy, PartialEq, Eq, Debug)]
pub enum TariffType {
    Flag,
    Count,
    Gram,
    Cent,
}

#[derive(Clone, Copy, PartialEq, Eq, Debug)]
pub enum TariffValue {
    Flag(bool),
    Count(u32),
    Gram(u32),
    Cent(u32),
}
