//! Tokens of a text by an engine that the cookbook owns.
ghost use Rattle.std.specs.Prelude.{◌≤◌, OnOk, ℕ};
ghost use Rattle.nfa_engines.specs.Engines.{Fits};
ghost use Rattle.examples.specs.Tiles.{Tile};

use anyhow::Result;
use nfa_compiler::{Compiler, Config};
use nfa_engines::Input;
use nfa_engines::pikevm::{Cache, PikeVM};
use std::alloc::{AllocError, Global};

/// What a token is: a match of the rule of this number, or what no rule matches.
#[derive(Clone, Copy, Debug, PartialEq, Eq)]
pub enum Kind {
    Rule(usize),
    Other,
}

/// A piece of the text.
#[derive(Clone, Copy, Debug, PartialEq, Eq)]
pub struct Token {
    pub kind: Kind,
    pub start: usize,
    pub end: usize,
}

/// The rules: words, numbers, white space and signs.
const RULES: [&str; 4] = [
    r"[A-Za-z_][0-9A-Za-z_]*",
    r"[0-9]+(?:\.[0-9]+)?",
    r"\s+",
    r"[-+*/=<>()]",
];

/// An engine of the rules and its cache.
#[derive(Drop)]
pub struct Tokenizer {
    vm: PikeVM,
    cache: Cache,
    ghost fits: { Fits cache vm.nfa },
}

impl Tokenizer {
    ghost use Rattle.std.specs.Prelude.{IfOk, length};
    ghost use Rattle.examples.specs.Tiles.{Tile};

    /// Compiles the rules.
    pub fn new(alloc: Global) -> Result<Tokenizer> {
        let compiler = Compiler::new().configure(Config::new().utf8(false));
        let vm = PikeVM::new_from_nfa(compiler.build_many(alloc, &RULES)?)?;
        let cache = vm.create_cache(alloc)?;
        Ok(Tokenizer { vm, cache })
    }

    /// Returns the tokens of the text: the matches of the rules, and what is between them.
    pub fn tokens(&mut self, alloc: Global, text: &[u8]) -> Result<Vec<Token>, AllocError>
        ensures { IfOk result (λ tokens. Tile 0 (length text.now) tokens.items) }
    {
        let mut tokens = Vec::new(alloc);
        let mut at = 0;
        for found in self.vm.find_iter(&mut self.cache, Input::new(text)) {
            let start = found.start();
            let end = found.end();
            if at <= start && start <= end && end <= text.len() {
                let kind = Kind::Rule(found.pattern().as_usize());
                push_piece(&mut tokens, Kind::Other, at, start)?;
                push_piece(&mut tokens, kind, start, end)?;
                at = end;
            }
        }
        push_piece(&mut tokens, Kind::Other, at, text.len())?;
        Ok(tokens)
    }
}

/// Pushes the piece of the text, unless it is empty.
fn push_piece(
    tokens: &mut Vec<Token>,
    kind: Kind,
    start: usize,
    end: usize,
) -> Result<(), AllocError>
    requires { start ≤ end }
    ensures { OnOk result ((from : ℕ) → Tile from start tokens.old.items → Tile from end tokens.new.items) }
{
    if start < end {
        tokens.push(Token { kind, start, end })?;
    }
    Ok(())
}
