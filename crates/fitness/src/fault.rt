// What is wrong with a function or a continuing.
ghost use Rattle.std.specs.Prelude.{◌≡◌, Some};
ghost use Rattle.fitness.specs.Fit.{continuing_fault, function_fault, unfit};
ghost use Rattle.fitness.specs.Reasons.{reason_name};
ghost use Rattle.std.specs.Option.{option_map};

use behavior::set::Behavior;
use behavior::summary::Summary;
use std::fmt;

#[derive(Clone, Copy, PartialEq, Eq, Debug)]
pub enum Reason {
    // Break or Continue leaves the body of the function
    BreakOrContinue,
    // a function with a type has a way without return
    NoReturn,
    // a function with a type has a return without a value
    MissingValue,
    // a function without a type has a return with a value
    UnexpectedValue,
    // a continuing has a way that does not go on
    LeavingContinuing,
}

impl fmt::Display for Reason {
    ghost output = { λ reason. Some (reason_name reason) };

    fn fmt<W: fmt::Write>(&self, f: &mut fmt::Formatter<W>) -> fmt::Result {
        f.write_str(match self {
            Reason::BreakOrContinue => "BreakOrContinue",
            Reason::NoReturn => "NoReturn",
            Reason::MissingValue => "MissingValue",
            Reason::UnexpectedValue => "UnexpectedValue",
            Reason::LeavingContinuing => "LeavingContinuing",
        })
    }
}

// A function or continuing that is not fit, and the entry that shows it.
#[derive(Clone, Copy, PartialEq, Eq, Debug)]
pub struct Unfit {
    pub holder: u16,
    pub reason: Reason,
    pub entry: u16,
}

fn at(holder: u16, reason: Reason, entry: Option<u16>) -> Option<Unfit>
    ensures { result ≡ option_map (unfit holder reason) entry }
{
    entry.map(|entry| Unfit {
        holder,
        reason,
        entry,
    })
}

// The fault of a function, from the summary of its body.
pub(crate) fn function_fault(holder: u16, typed: bool, body: u16, summary: Summary) -> Option<Unfit>
    ensures { result ≡ function_fault holder typed body summary }
{
    let set = summary.behavior;
    if set.breaks || set.continues {
        return Some(Unfit {
            holder,
            reason: Reason::BreakOrContinue,
            entry: body,
        });
    }
    if typed && set.next {
        return Some(Unfit {
            holder,
            reason: Reason::NoReturn,
            entry: body,
        });
    }
    let wrong = if typed {
        at(holder, Reason::MissingValue, summary.bare)
    } else {
        at(holder, Reason::UnexpectedValue, summary.valued)
    };
    wrong.or(at(holder, Reason::LeavingContinuing, summary.leaving))
}

// The fault of a continuing, from the set of its body.
pub(crate) fn continuing_fault(holder: u16, set: Behavior) -> Option<Unfit>
    ensures { result ≡ continuing_fault holder set }
{
    set.beyond_next().then_some(Unfit {
        holder,
        reason: Reason::LeavingContinuing,
        entry: holder,
    })
}
