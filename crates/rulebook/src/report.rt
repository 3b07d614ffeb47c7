// The report on a book's behaviors: a line for each statement, a line for each function, and the verdict.
use behavior::analysis::behaviors;
use behavior::set::{Behavior, NONE};
use book::book::Book;
use control::{Control, control_at};
use fitness::analysis::{faults, fit};
use fitness::fault::Unfit;
use std::fmt::{self, Display, Formatter, Write};

// `fit`, or why not and at which entry.
#[derive(Drop)]
struct Fitness(Option<Unfit>);

impl Display for Fitness {
    fn fmt<W: Write>(&self, f: &mut Formatter<W>) -> fmt::Result {
        match self.0 {
            Some(unfit) => write!(f, "unfit;{};{}", unfit.reason, unfit.entry),
            None => f.write_str("fit"),
        }
    }
}

fn print_statements(rt: &HostRuntime, sets: &[Option<Behavior>]) -> anyhow::Result<()> {
    for (entry, set) in sets.iter().enumerate() {
        if let Some(set) = set {
            println!(rt; "entry;{entry};{set}")?;
        }
    }
    Ok(())
}

fn print_functions(rt: &HostRuntime, book: &Book, sets: &[Option<Behavior>]) -> anyhow::Result<()> {
    let faults = faults(rt.alloc(), book)?;
    for (entry, fault) in (0..book.entries()).zip(&faults) {
        if let Control::Function(name, _, body) = control_at(book, entry) {
            let set = sets.get(body as usize).copied().flatten().unwrap_or(NONE);
            println!(rt; "function;{name};{set};{}", Fitness(*fault))?;
        }
    }
    Ok(())
}

pub fn print_behaviors(rt: &HostRuntime, book: &Book) -> anyhow::Result<()> {
    let sets = behaviors(rt.alloc(), book)?;
    print_statements(rt, sets.as_slice())?;
    print_functions(rt, book, sets.as_slice())?;
    match fit(book) {
        Ok(()) => println!(rt; "book;fit")?,
        Err(_) => println!(rt; "book;unfit")?,
    }
    Ok(())
}
