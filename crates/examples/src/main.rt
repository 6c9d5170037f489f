//! The programs of the pages: prints what each of them finds, or only those that the arguments name.
#![tactic(auto)]

mod by_hand;
mod cookbook;
mod owning;

use anyhow::{Result, bail};
use std::env;

fn main(rt: HostRuntime) -> Result<()> {
    let names: Vec<String> = env::args(&rt)?.skip(1).collect(rt.alloc())?;
    if names.is_empty() {
        return run_all(&rt);
    }
    for name in &names {
        run(&rt, name)?;
    }
    Ok(())
}

fn run_all(rt: &HostRuntime) -> Result<()> {
    by_hand::run(rt)?;
    owning::run(rt)?;
    cookbook::run(rt)
}

fn run(rt: &HostRuntime, name: &str) -> Result<()> {
    match name {
        "by_hand" => by_hand::run(rt),
        "owning" => owning::run(rt),
        "cookbook" => cookbook::run(rt),
        _ => bail!("no example has the name {name:?}: there are by_hand, owning and cookbook"),
    }
}
