//! The recipes of docs/COOKBOOK.md, each with a line of output.
mod counts;
mod field;
mod matcher;
mod replace;
mod tokens;
mod validate;

use crate::cookbook::counts::{count_of, counts};
use crate::cookbook::field::Field;
use crate::cookbook::matcher::Matcher;
use crate::cookbook::replace::replace_all;
use crate::cookbook::tokens::{Kind, Tokenizer};
use crate::cookbook::validate::Validator;
use anyhow::Result;
use std::alloc::Global;

const LOG: [&[u8]; 3] = [b"10:02 WARN disk", b"10:03 INFO up", b"10:05 WARN disk"];

/// Prints a line for each recipe.
pub fn run(rt: &HostRuntime) -> Result<()> {
    shapes(rt)?;
    picked(rt)?;
    levels(rt)?;
    println!(rt; "tokens: {}", token_count(rt.alloc(), b"x1 = 20+y")?)?;
    masked(rt)
}

fn shapes(rt: &HostRuntime) -> Result<()> {
    let mut validator = Validator::new(rt.alloc())?;
    print_shapes(rt, &mut validator)
}

fn print_shapes(rt: &HostRuntime, validator: &mut Validator) -> Result<()> {
    println!(rt;
        "date: {} {}",
        validator.is_date(b"2026-11-27"),
        validator.is_date(b"2026-11-27\n")
    )?;
    println!(rt;
        "version: {} {}",
        validator.is_version(b"0.10.3"),
        validator.is_version(b"01.0.0")
    )?;
    println!(rt;
        "ipv4: {} {}",
        validator.is_ipv4(b"10.0.0.255"),
        validator.is_ipv4(b"10.0.0.256")
    )?;
    Ok(())
}

fn picked(rt: &HostRuntime) -> Result<()> {
    let mut matcher = Matcher::new(rt.alloc(), "WARN|ERROR")?;
    print_picked(rt, &mut matcher)
}

fn print_picked(rt: &HostRuntime, matcher: &mut Matcher) -> Result<()> {
    println!(rt; "lines: {}", matcher.matching(rt.alloc(), &LOG)?.len())?;
    Ok(())
}

fn levels(rt: &HostRuntime) -> Result<()> {
    let mut level = Field::new(rt.alloc(), r"\A\S+ (?<level>\w+)", "level")?;
    print_levels(rt, &mut level)
}

fn print_levels(rt: &HostRuntime, level: &mut Field) -> Result<()> {
    let counts = counts(rt.alloc(), level, &LOG)?;
    println!(rt;
        "WARN: {}, INFO: {}",
        count_of(&counts, "WARN"),
        count_of(&counts, "INFO")
    )?;
    Ok(())
}

fn masked(rt: &HostRuntime) -> Result<()> {
    let mut matcher = Matcher::new(rt.alloc(), "[0-9]+")?;
    print_masked(rt, &mut matcher)
}

fn print_masked(rt: &HostRuntime, matcher: &mut Matcher) -> Result<()> {
    let masked = replace_all(rt.alloc(), matcher, b"call 555 or 556", b"#")?;
    println!(rt;
        "replaced: {}",
        String::from_utf8_lossy(rt.alloc(), &masked)?
    )?;
    Ok(())
}

fn token_count(alloc: Global, text: &[u8]) -> Result<usize> {
    let tokens = Tokenizer::new(alloc)?.tokens(alloc, text)?;
    Ok(
        tokens
            .iter()
            .filter(|token| token.kind != Kind::Other)
            .count(),
    )
}
