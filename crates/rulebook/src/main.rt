#![tactic(auto)]
// Checks and shows rule books, and says how their statements may end.
mod listing;
mod report;

use anyhow::{Context, anyhow};
use book::book::Book;
use layout::error::BookError;
use layout::file::words_of;
use listing::Line;
use report::print_behaviors;
use std::io::Read;
use std::process::ExitCode;
use std::{env, fs, io};

const USAGE: &str =
    "usage: rulebook check FILE, show FILE or behavior FILE, or rulebook batch with such commands on standard input";

// More bytes than the longest book has, and a whole number of words: what comes behind them makes no difference, and is not
// waited for.
const ENOUGH: u64 = 131_076;

// The bytes of a file, as far as they can matter.
fn read_file(rt: &HostRuntime, path: &str) -> anyhow::Result<Vec<u8>> {
    let file = fs::open(rt, path).context(format_args!("{path}"))?;
    let mut bytes = Vec::new(rt.alloc());
    file.take(ENOUGH).read_to_end(&mut bytes)?;
    Ok(bytes)
}

// The words of a file; an odd byte is no word, unless the file is too long for a book anyway.
fn read_words(rt: &HostRuntime, path: &str) -> anyhow::Result<Vec<u16>> {
    let bytes = read_file(rt, path)?;
    if bytes.len() % 2 != 0 {
        return Err(anyhow!("an odd number of bytes").context(format_args!("{path}")));
    }
    Ok(words_of(rt.alloc(), bytes.as_slice())?)
}

fn print_refusal(rt: &HostRuntime, error: BookError) -> io::Result<()> {
    println!(rt;
        "refused;{};{};{}",
        u16::from(error.fault),
        error.fault,
        error.entry
    )
}

fn print_size(rt: &HostRuntime, book: &Book) -> anyhow::Result<()> {
    println!(rt; "accepted;{};{}", book.entries(), book.length())?;
    Ok(())
}

fn print_entries(rt: &HostRuntime, book: &Book) -> anyhow::Result<()> {
    for entry in 0..book.entries() {
        if let Some(node) = book.node(entry) {
            println!(rt;
                "{}",
                Line {
                    book: *book,
                    entry,
                    node,
                }
            )?;
        }
    }
    Ok(())
}

// Prints what is asked of the book in a file, or why the file is none.
fn about<F>(rt: &HostRuntime, path: &str, print: F) -> anyhow::Result<()>
where
    F: FnOnce(&HostRuntime, &Book) -> anyhow::Result<()>,
    requires { F.IsAlwaysCallable print }
{
    let words = read_words(rt, path)?;
    let mut book = Book::empty();
    match book.load(words.as_slice()) {
        Ok(()) => print(rt, &book),
        Err(error) => Ok(print_refusal(rt, error)?),
    }
}

fn perform(rt: &HostRuntime, command: &str, path: &str) -> anyhow::Result<()> {
    match command {
        "check" => about(rt, path, print_size),
        "show" => about(rt, path, print_entries),
        "behavior" => about(rt, path, print_behaviors),
        _ => Err(anyhow!("{USAGE}")),
    }
}

// Performs the commands of the standard input, one a line, each after a line that names it.
fn batch(rt: &HostRuntime) -> anyhow::Result<()> {
    for line in rt.lines(rt.alloc()) {
        let line = line?;
        let (command, path) = line.as_str().split_once(' ').context(USAGE)?;
        println!(rt; "> {command} {path}")?;
        perform(rt, command, path)?;
    }
    Ok(())
}

fn run(rt: &HostRuntime) -> anyhow::Result<()> {
    let args: Vec<String> = env::args(rt)?.skip(1).collect(rt.alloc())?;
    match args.as_slice() {
        [command, path] => perform(rt, command.as_str(), path.as_str()),
        [command] if command.as_str() == "batch" => batch(rt),
        _ => Err(anyhow!("{USAGE}")),
    }
}

// As `names_cases` ends; a crate for the two would hold these lines alone.
fn main(rt: HostRuntime) -> ExitCode {
    match run(&rt) {
        Ok(()) => ExitCode::SUCCESS,
        Err(error) => {
            let _ = eprintln!(rt; "rulebook: {error:#}");
            ExitCode::FAILURE
        }
    }
}
