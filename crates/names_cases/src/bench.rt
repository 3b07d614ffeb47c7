// Look-ups in a table of names, many times.
use crate::FREE;
use anyhow::anyhow;
use names::error::NameFault;
use names::names::Names;
use names::scope::ScopeKind;
use scalar_value::Scalar;
use syntax::DeclarationKind;

// Binds the names from 0 on, and opens a scope before each `each` of them.
fn fill(names: &mut Names<Scalar>, count: u16, each: u16) -> Result<(), NameFault> {
    for name in 0..count {
        if each > 0 && name % each == 0 {
            names.open_scope(ScopeKind::Regular);
        }
        names.bind(name, DeclarationKind::Let, Scalar::U32(u32::from(name)))?;
    }
    Ok(())
}

fn place_of(names: &Names<Scalar>, name: u16) -> u64 {
    names.lookup(name).map_or(0, |found| found.place as u64)
}

// Looks each name up in turn, and prints the sum of the places at which they are found.
pub fn look_up(rt: &HostRuntime, count: u16, each: u16, rounds: u64) -> anyhow::Result<()> {
    let mut table = [FREE; 1024];
    let mut names = Names::new(&mut table);
    fill(&mut names, count, each).map_err(|_| anyhow!("more names than records"))?;
    let mut sum: u64 = 0;
    for _ in 0..rounds {
        for name in 0..count {
            sum = sum.wrapping_add(place_of(&names, name));
        }
    }
    println!(rt; "{sum}")?;
    Ok(())
}
