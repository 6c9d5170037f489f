//! The first program of the README: all matches of `ab+` in a text.
#![tactic(auto)]

use anyhow::Result;
use nfa_engines::Input;
use nfa_meta::Regex;

fn main(rt: HostRuntime) -> Result<()> {
    let alloc = rt.alloc();
    let mut regex = Regex::new(alloc, "ab+")?;
    for found in regex.find_iter(Input::new(b"ab, abb and b")) {
        println!(rt; "{}..{}", found.start(), found.end())?;
    }
    Ok(())
}
