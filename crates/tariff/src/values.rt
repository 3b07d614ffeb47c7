// The value part of the tariff host.
ghost use Rattle.tariff.specs.Values.{values};
ghost use Rattle.std.proofs.Common.{rules};

use host::Values;
use tariff_value::number::of_type;
use tariff_value::{TariffType, TariffValue};

// The host itself, which holds nothing.
#[derive(Clone, Copy)]
pub struct Tariff;

impl Values for Tariff {
    type Value = TariffValue;

    ghost means = { λ _. values };

    ghost lawful = { Prim.search rules };

    fn type_of(&self, v: TariffValue) -> u16 {
        u16::from(v.tariff_type())
    }

    fn truth(&self, v: TariffValue) -> Option<bool> {
        match v {
            TariffValue::Flag(b) => Some(b),
            _ => None,
        }
    }

    fn convert(&self, v: TariffValue, t: u16) -> Option<TariffValue> {
        (t == u16::from(v.tariff_type())).then_some(v)
    }

    fn zero(&self, t: u16) -> Option<TariffValue> {
        Some(of_type(TariffType::try_from(t).ok()?, 0))
    }

    fn concretise(&self, t: u16) -> u16 {
        t
    }
}
