// One operation, from its line to its answer.
use names::binding::Found;
use names::error::NameFault;
use names::names::Names;
use scalar::values::Scalars;
use scalar_value::Scalar;
use scalar_value::field::from_field;
use std::fmt;
use std::num::ParseIntError;
use syntax::UnknownWord;

#[derive(Clone, Copy)]
pub enum Answer {
    Done,
    Bound,
    // none where no variable stands
    Found(Option<Found<Scalar>>),
    Truth(bool),
}

#[derive(Clone, Copy)]
pub enum Refusal {
    NoOperation,
    Fault(NameFault),
}

impl From<NameFault> for Refusal {
    fn from(fault: NameFault) -> Refusal {
        Refusal::Fault(fault)
    }
}

impl From<ParseIntError> for Refusal {
    fn from(_: ParseIntError) -> Refusal {
        Refusal::NoOperation
    }
}

impl From<UnknownWord> for Refusal {
    fn from(_: UnknownWord) -> Refusal {
        Refusal::NoOperation
    }
}

impl fmt::Display for Answer {
    fn fmt<W: fmt::Write>(&self, f: &mut fmt::Formatter<W>) -> fmt::Result {
        match *self {
            Answer::Done => Ok(()),
            Answer::Bound => write!(f, " = ok"),
            Answer::Found(Some(Found { place, binding })) => {
                let (kind, name, value) = (binding.kind, binding.name, binding.value);
                write!(f, " = {place}: {kind} {name} {value}")
            }
            Answer::Found(None) => write!(f, " = none"),
            Answer::Truth(true) => write!(f, " = yes"),
            Answer::Truth(false) => write!(f, " = no"),
        }
    }
}

impl fmt::Display for Refusal {
    fn fmt<W: fmt::Write>(&self, f: &mut fmt::Formatter<W>) -> fmt::Result {
        match *self {
            Refusal::NoOperation => write!(f, ": no operation"),
            Refusal::Fault(fault) => write!(f, " = !{}", u16::from(fault)),
        }
    }
}

// The first word, and what comes after it.
fn first_word(text: &str) -> Result<(&str, &str), Refusal> {
    text.split_once(' ').ok_or(Refusal::NoOperation)
}

fn value_of(text: &str) -> Result<Scalar, Refusal> {
    from_field(text.as_bytes()).ok_or(Refusal::NoOperation)
}

// A place and a value.
fn at_place(rest: &str) -> Result<(usize, Scalar), Refusal> {
    let (place, value) = first_word(rest)?;
    Ok((place.parse()?, value_of(value)?))
}

fn close(names: &mut Names<Scalar>, rest: &str) -> Result<Answer, Refusal> {
    match rest {
        "scope" => names.close_scope(),
        "all" => names.close_all(),
        _ => return Err(Refusal::NoOperation),
    }
    Ok(Answer::Done)
}

fn bind(names: &mut Names<Scalar>, rest: &str) -> Result<Answer, Refusal> {
    let (kind, rest) = first_word(rest)?;
    let (name, value) = first_word(rest)?;
    names.bind(name.parse()?, kind.parse()?, value_of(value)?)?;
    Ok(Answer::Bound)
}

fn variable(names: &Names<Scalar>, rest: &str) -> Result<Answer, Refusal> {
    let place = rest.parse()?;
    let variable = names.variable(place);
    Ok(Answer::Found(variable.map(|binding| Found { place, binding })))
}

pub fn perform(names: &mut Names<Scalar>, line: &str) -> Result<Answer, Refusal> {
    let (word, rest) = first_word(line)?;
    match word {
        "open" => {
            names.open_scope(rest.parse()?);
            Ok(Answer::Done)
        }
        "close" => close(names, rest),
        "bind" => bind(names, rest),
        "lookup" => Ok(Answer::Found(Some(names.lookup(rest.parse()?)?))),
        "duplicate" => Ok(Answer::Truth(names.duplicate(rest.parse()?))),
        "variable" => variable(names, rest),
        "write" => {
            let (place, value) = at_place(rest)?;
            names.write(&Scalars, place, value)?;
            Ok(Answer::Bound)
        }
        "assign" => {
            let (place, value) = at_place(rest)?;
            names.assign(&Scalars, place, value)?;
            Ok(Answer::Bound)
        }
        _ => Err(Refusal::NoOperation),
    }
}
