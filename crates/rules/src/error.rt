// Why a run is refused.
ghost use Rattle.std.specs.Prelude.{◌≡◌};
ghost use Rattle.rules.specs.declared.error.Cause.TheVariants.{Name, Host};
ghost use Rattle.rules.specs.Causes.{cause_number};

use host::HostFault;
use names::error::NameFault;

#[derive(Clone, Copy, PartialEq, Eq, Debug)]
pub enum Cause {
    // by the caller's hand
    ShortTables,
    NoStatement,
    TooManyArguments,
    BadStage,
    // by the rule writer's
    Type,
    Conversion,
    UntypedDecl,
    UninitConst,
    UninitLet,
    UnknownFunction,
    MustUse,
    NotConst,
    ParamCount,
    ParamType,
    ReturnType,
    NoReturn,
    UnexpectedReturn,
    Void,
    FlowInContinuing,
    FlowInFunction,
    DiscardInConst,
    ConstAssertFailure,
    IncrType,
    IncrOverflow,
    DecrType,
    DecrOverflow,
    NotConstructible,
    // about names, and the host's
    Name(NameFault),
    Host(HostFault),
    // of the grant, and of the depth
    OutOfFuel,
    TooDeep,
}

// The number under which the refusal is printed.
impl From<Cause> for u16 {
    ghost from_gives = { λ cause n. n ≡ cause_number cause };

    fn from(cause: Cause) -> u16 {
        match cause {
            Cause::ShortTables => 5,
            Cause::NoStatement => 6,
            Cause::TooManyArguments => 7,
            Cause::BadStage => 8,
            Cause::Type => 10,
            Cause::Conversion => 14,
            Cause::UntypedDecl => 16,
            Cause::UninitConst => 17,
            Cause::UninitLet => 18,
            Cause::UnknownFunction => 22,
            Cause::MustUse => 24,
            Cause::NotConst => 25,
            Cause::ParamCount => 26,
            Cause::ParamType => 27,
            Cause::ReturnType => 28,
            Cause::NoReturn => 29,
            Cause::UnexpectedReturn => 30,
            Cause::Void => 31,
            Cause::FlowInContinuing => 32,
            Cause::FlowInFunction => 33,
            Cause::DiscardInConst => 34,
            Cause::ConstAssertFailure => 35,
            Cause::IncrType => 36,
            Cause::IncrOverflow => 37,
            Cause::DecrType => 38,
            Cause::DecrOverflow => 39,
            Cause::OutOfFuel => 50,
            Cause::TooDeep => 51,
            Cause::NotConstructible => 53,
            Cause::Name(fault) => u16::from(fault),
            Cause::Host(fault) => u16::from(fault),
        }
    }
}

// A refusal about names is the cause.
impl From<NameFault> for Cause {
    ghost from_gives = { λ refusal cause. cause ≡ Name refusal };

    fn from(refusal: NameFault) -> Cause {
        Cause::Name(refusal)
    }
}

// A fault of the host is the cause.
impl From<HostFault> for Cause {
    ghost from_gives = { λ refusal cause. cause ≡ Host refusal };

    fn from(refusal: HostFault) -> Cause {
        Cause::Host(refusal)
    }
}
