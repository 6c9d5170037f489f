//! A field of lines: the text of a named group.
ghost use Rattle.std.specs.Prelude.{◌≡◌, option_map};
ghost use Rattle.examples.specs.Fields.{utf8_text};

use anyhow::Result;
use nfa_compiler::written::{compile, named_group_of_pattern};
use nfa_engines::pikevm::{Cache, PikeVM};
use nfa_engines::{Captures, Input};
use std::alloc::Global;
use std::marker::Model;
use std::str;

/// A field of lines. A contract sees the pattern and the name of its group.
#[derive(Drop)]
pub struct Field {
    pattern: &'static str,
    name: &'static str,
    vm: PikeVM,
    cache: Cache,
    captures: Captures,
}

impl Model for Field {
    ghost use Rattle.std.specs.Prelude.{◌≡◌, None, length};
    ghost use Rattle.nfa_engines.specs.Engines.{Fits};
    ghost use Rattle.nfa_engines.specs.Groups.{slot_count};
    ghost use Rattle.nfa_compiler.specs.WrittenPatterns.{IsOfPattern};
    ghost use Rattle.examples.specs.Fields.{FieldOf};

    ghost Value = { FieldOf };

    ghost view = { λ f. record { pattern = f.pattern.now; name = f.name.now } };

    ghost invariant = { λ f. IsOfPattern f.pattern.now f.vm.nfa × (f.vm.match_kind ≡ None) × Fits f.cache f.vm.nfa
        × (f.captures.groups ≡ f.vm.nfa.groups) × (length f.captures.slots ≡ slot_count f.vm.nfa.groups) };
}

impl Field {
    ghost use Rattle.std.specs.Prelude.{◌≡◌, IfOk, option_map};
    ghost use Rattle.examples.specs.Fields.{field_bytes, field_text};

    /// Compiles the pattern.
    pub fn new(alloc: Global, pattern: &'static str, name: &'static str) -> Result<Field>
        ensures { IfOk result (λ field. field ≡ record { pattern = pattern.now; name = name.now }) }
    {
        let vm = PikeVM::new_from_nfa(compile(alloc, pattern)?)?;
        let cache = vm.create_cache(alloc)?;
        let captures = vm.create_captures(alloc)?;
        Ok(Field {
            pattern,
            name,
            vm,
            cache,
            captures,
        })
    }

    /// Returns the bytes of the group in the first match in the line.
    pub fn bytes<'t>(&mut self, line: &'t [u8]) -> Option<&'t [u8]>
        ensures field { option_map (λ bytes. bytes.now) result ≡ field_bytes self.old line.now }
        ensures keeps { self.new ≡ self.old }
    {
        self.vm
            .captures(&mut self.cache, Input::new(line), &mut self.captures);
        named_group_of_pattern(
            self.pattern,
            self.vm.get_nfa(),
            line,
            &self.captures,
            self.name,
        );
        let span = self.captures.get_group_by_name(self.name)?;
        Some(&line[span.start..span.end])
    }

    /// Returns the same as text, or `None` if it is not UTF-8.
    pub fn text<'t>(&mut self, line: &'t [u8]) -> Option<&'t str>
        ensures field { option_map (λ text. text.now) result ≡ field_text self.old line.now }
        ensures keeps { self.new ≡ self.old }
    {
        let bytes = self.bytes(line)?;
        as_text(bytes)
    }
}

/// Returns the bytes as text, or `None` if they are not UTF-8.
fn as_text(bytes: &[u8]) -> Option<&str>
    ensures { option_map (λ text. text.now) result ≡ utf8_text bytes.now }
{
    match str::from_utf8(bytes) {
        Ok(text) => Some(text),
        Err(_) => None,
    }
}
