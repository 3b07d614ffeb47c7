#![tactic(auto)]
// Performs operations on tables of names, one a line of the standard input, and prints each line with its answer.
// With three arguments it looks names up many times, for a clock outside.
mod bench;
mod cases;

use anyhow::{Context, anyhow};
use cases::perform;
use names::binding::Binding;
use names::names::Names;
use scalar_value::Scalar;
use std::env;
use std::process::ExitCode;
use syntax::DeclarationKind;

const USAGE: &str =
    "usage: names_cases with operations on standard input, or names_cases NAMES EACH ROUNDS";

const FREE: Binding<Scalar> = Binding {
    name: 0,
    kind: DeclarationKind::Const,
    value: Scalar::Bool(false),
};

// The length of the table that a line asks for.
fn table_of(line: &str) -> Option<usize> {
    line.strip_prefix("table ")?.parse().ok()
}

// Performs operations on a new table of a length, and prints each with its answer.
fn on_table(rt: &HostRuntime, length: usize, operations: &[String]) -> anyhow::Result<()> {
    let mut table = vec![in rt.alloc(); FREE; length]?;
    let mut names = Names::new(table.as_mut_slice());
    for line in operations {
        match perform(&mut names, line.as_str()) {
            Ok(answer) => println!(rt; "{line}{answer}")?,
            Err(refusal) => println!(rt; "{line}{refusal}")?,
        }
    }
    Ok(())
}

fn all_cases(rt: &HostRuntime) -> anyhow::Result<()> {
    let lines: Vec<String> = rt.lines(rt.alloc()).try_collect(rt.alloc())?;
    // each block begins with a line that asks for a table
    for block in lines.chunk_by(|_, line| table_of(line.as_str()).is_none()) {
        if let [first, operations @ ..] = block {
            let length = table_of(first.as_str()).context("an operation before any table")?;
            println!(rt; "{first}")?;
            on_table(rt, length, operations)?;
        }
    }
    Ok(())
}

fn run(rt: &HostRuntime) -> anyhow::Result<()> {
    let args: Vec<String> = env::args(rt)?.skip(1).collect(rt.alloc())?;
    match args.as_slice() {
        [] => all_cases(rt),
        [count, each, rounds] => bench::look_up(
            rt,
            count.as_str().parse()?,
            each.as_str().parse()?,
            rounds.as_str().parse()?,
        ),
        _ => Err(anyhow!("{USAGE}")),
    }
}

// As `rulebook` ends; a crate for the two would hold these lines alone.
fn main(rt: HostRuntime) -> ExitCode {
    match run(&rt) {
        Ok(()) => ExitCode::SUCCESS,
        Err(error) => {
            let _ = eprintln!(rt; "names_cases: {error}");
            ExitCode::FAILURE
        }
    }
}
