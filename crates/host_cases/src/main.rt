#![tactic(auto)]
// Runs a table of cases of the two hosts: a line has a question, ` = ` and the answer that the rules give.
// Each line is written with the answer of the host, and with the other one too where they differ.
use fields::{Fielded, from_field};
use host::Operators;
use scalar::values::Scalars;
use std::alloc::{AllocError, Global};
use std::{fmt, io};
use tariff::values::Tariff;

// A value or why there is none, as text.
fn written<V: fmt::Display + Drop, E: fmt::Display + Drop>(
    heap: Global,
    answer: Result<V, E>,
) -> Result<String, AllocError> {
    match answer {
        Ok(v) => v.to_string(heap),
        Err(e) => e.to_string(heap),
    }
}

// The value that a word writes.
fn value_in<V: Fielded>(word: &str) -> Option<V> {
    from_field(word.as_bytes())
}

// The answer to a question as it is written, none where the question cannot be read.
fn answer_to<H: Operators>(
    heap: Global,
    host: &H,
    question: &[&str],
) -> Option<Result<String, AllocError>>
where
    H::Value: Fielded,
{
    Some(match question {
        ["binary", stage, op, a, b, ..] => {
            let stage = stage.parse().ok()?;
            let op = op.parse().ok()?;
            written(heap, host.binary(stage, op, value_in(a)?, value_in(b)?))
        }
        ["unary", stage, op, v, ..] => {
            let stage = stage.parse().ok()?;
            written(heap, host.unary(stage, op.parse().ok()?, value_in(v)?))
        }
        ["same", a, b, ..] => written(heap, host.same(value_in(a)?, value_in(b)?)),
        ["up", v, ..] => written(heap, host.up(value_in(v)?)),
        ["down", v, ..] => written(heap, host.down(value_in(v)?)),
        ["literal", kind, a, b, c, d, ..] => {
            let words = [
                a.parse().ok()?,
                b.parse().ok()?,
                c.parse().ok()?,
                d.parse().ok()?,
            ];
            written(heap, host.literal(kind.parse().ok()?, words))
        }
        ["convert", v, t, ..] => written(
            heap,
            host.convert(value_in(v)?, t.parse().ok()?).ok_or("none"),
        ),
        ["truth", v, ..] => written(heap, host.truth(value_in(v)?).ok_or("none")),
        ["zero", t, ..] => written(heap, host.zero(t.parse().ok()?).ok_or("none")),
        ["concretise", t, ..] => host.concretise(t.parse().ok()?).to_string(heap),
        ["type", v, ..] => host.type_of(value_in(v)?).to_string(heap),
        _ => return None,
    })
}

// The answer of the host that the question names first.
fn answered(heap: Global, question: &str) -> Result<String, AllocError> {
    let words: Vec<&str> = question.split(' ').collect(heap)?;
    let answer = match words.as_slice() {
        ["scalar", rest @ ..] => answer_to(heap, &Scalars, rest),
        ["tariff", rest @ ..] => answer_to(heap, &Tariff, rest),
        _ => None,
    };
    answer.unwrap_or_else(|| String::from_str(heap, "unreadable"))
}

// Writes the case, and says whether the host gives the expected answer.
fn report(rt: &HostRuntime, question: &str, expected: &str) -> io::Result<bool> {
    let given = answered(rt.alloc(), question)?;
    if given.as_str() == expected {
        println!(rt; "{question} = {given}")?;
        Ok(true)
    } else {
        println!(rt; "{question} = {given}, and not {expected}")?;
        Ok(false)
    }
}

fn main(rt: HostRuntime) -> io::Result<()> {
    let mut cases = 0u64;
    let mut differ = 0u64;
    for line in rt.lines(rt.alloc()) {
        let line = line?;
        cases = cases.wrapping_add(1);
        let agrees = match line.as_str().split_once(" = ") {
            Some((question, expected)) => report(&rt, question, expected)?,
            None => false,
        };
        differ = differ.wrapping_add(u64::from(!agrees));
    }
    println!(rt; "{cases} cases, {differ} differ")
}
