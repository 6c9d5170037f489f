//! What the programs share that search with the engine that an argument names: the engine, its searches of one haystack
//! in rounds, to be timed, and why they fail.
ghost use Rattle.std.specs.Prelude.{◌≡◌, ◌<◌, ◌↔◌, IfErr, IfOk, IfSome, IsOkUnless, OnOk, Some, codes};
ghost use Rattle.std.specs.Io.KnownBytes.{IsAtEnd};
ghost use Rattle.regex_search_core.specs.Search.{whole};
ghost use Rattle.nfa_engines.specs.Backtrack.{IsTooLong};
ghost use Rattle.nfa_engines.specs.BacktrackFinding.{AnswersByLength, IsRefusal};
ghost use Rattle.nfa_engines.specs.Engines.{Fits, kind_of};
ghost use Rattle.regex_search_core.specs.declared.search.MatchKind.TheVariants.{LeftmostFirst};
ghost use Rattle.nfa_samples.specs.declared.named_engine.Engine.TheVariants as engine;
ghost use Rattle.nfa_samples.specs.declared.named_engine.Failure.TheVariants as failure;
ghost use Rattle.nfa_samples.specs.Counts.{IsLastCount, IsMatchCount, IsOfReading, IsWhyNotCounted, Refuses};

use nfa_engines::backtrack::{self, BoundedBacktracker};
use nfa_engines::error::SearchError;
use nfa_engines::pikevm::{self, PikeVM};
use regex_search_core::Input;
use std::alloc::{AllocError, Global};
use std::io;
use std::io::Read;
use thiserror::Error;
use thompson_nfa::{BuildError, NFA};

/// An engine of this library.
#[derive(Clone, Copy, Debug)]
pub enum Engine {
    /// A bounded backtracker.
    Backtracker,
    /// A PikeVM.
    PikeVM,
}

impl Engine {
    /// Returns the engine that the argument names: `back` or `pike`.
    pub fn from_word(word: &str) -> Option<Engine>
        ensures back { (result ≡ Some engine.Backtracker) ↔ (word.now ≡ codes "back") }
        ensures pike { (result ≡ Some engine.PikeVM) ↔ (word.now ≡ codes "pike") }
    {
        match word {
            "back" => Some(Engine::Backtracker),
            "pike" => Some(Engine::PikeVM),
            _ => None,
        }
    }

    /// Returns the number of matches of the last round, with one cache for all. Without rounds it is 0.
    ///
    /// # Errors
    ///
    /// `TooLong` if there are rounds, and the haystack is too long for the backtracker; otherwise `Memory`.
    pub fn count_matches(
        self,
        alloc: Global,
        nfa: NFA,
        haystack: &[u8],
        rounds: u64,
    ) -> Result<u64, Failure>
        ensures count { IfOk result (IsLastCount nfa haystack.now rounds) }
        ensures short { OnOk result (0 < rounds → ¬ (Refuses self nfa haystack.now)) }
        ensures errors { IfErr result (IsWhyNotCounted self nfa haystack.now rounds) }
    {
        match self {
            Engine::Backtracker => backtrack_rounds(alloc, nfa, haystack, rounds),
            Engine::PikeVM => pike_rounds(alloc, nfa, haystack, rounds),
        }
    }
}

/// Returns the bytes of the haystack: what the reader had left. Fails if the reader does, or if memory was refused.
pub fn read_haystack<R: Read>(alloc: Global, haystack: &mut R) -> Result<Vec<u8>, Failure>
    ensures bytes { IfOk result (λ bytes. IfSome (R.remaining haystack.old) (λ left. bytes.items ≡ left)) }
    ensures end { OnOk result (IsAtEnd (R.remaining haystack.new)) }
    ensures errors { IfErr result IsOfReading }
{
    let mut bytes = Vec::new(alloc);
    haystack.read_to_end(&mut bytes)?;
    Ok(bytes)
}

fn backtrack_rounds(alloc: Global, nfa: NFA, haystack: &[u8], rounds: u64) -> Result<u64, Failure>
    ensures count { IfOk result (IsLastCount nfa haystack.now rounds) }
    ensures short { OnOk result (0 < rounds → ¬ (Refuses engine.Backtracker nfa haystack.now)) }
    ensures errors { IfErr result (IsWhyNotCounted engine.Backtracker nfa haystack.now rounds) }
{
    let engine = BoundedBacktracker::new_from_nfa(nfa)?;
    let mut cache = engine.create_cache(alloc);
    let count = count_last_backtracked(&engine, &mut cache, haystack, rounds)?;
    Ok(count)
}

fn count_last_backtracked(
    engine: &BoundedBacktracker,
    cache: &mut backtrack::Cache,
    haystack: &[u8],
    rounds: u64,
) -> Result<u64, SearchError>
    ensures count { IfOk result (IsLastCount engine.now.nfa haystack.now rounds) }
    ensures short { OnOk result (0 < rounds → ¬ (IsTooLong engine.now (whole haystack.now))) }
    ensures errors { IfErr result (λ error. (0 < rounds) × IsRefusal engine.now (whole haystack.now) error) }
{
    let mut count = 0;
    for _ in 0..rounds {
        count = count_backtracked(engine, cache, haystack)?;
    }
    Ok(count)
}

fn count_backtracked(
    engine: &BoundedBacktracker,
    cache: &mut backtrack::Cache,
    haystack: &[u8],
) -> Result<u64, SearchError>
    ensures count { IfOk result (IsMatchCount engine.now.nfa haystack.now) }
    ensures by_length { AnswersByLength engine.now (whole haystack.now) result }
{
    let mut count = 0u64;
    for found in engine.try_find_iter(cache, Input::new(haystack)) {
        found?;
        count += 1;
    }
    Ok(count)
}

fn pike_rounds(alloc: Global, nfa: NFA, haystack: &[u8], rounds: u64) -> Result<u64, Failure>
    ensures count { IfOk result (IsLastCount nfa haystack.now rounds) }
    ensures memory { IsOkUnless result failure.Memory }
{
    let engine = PikeVM::new_from_nfa(nfa)?;
    let mut cache = engine.create_cache(alloc)?;
    Ok(count_last_piked(&engine, &mut cache, haystack, rounds))
}

fn count_last_piked(engine: &PikeVM, cache: &mut pikevm::Cache, haystack: &[u8], rounds: u64) -> u64
    requires fits { Fits cache.old engine.now.nfa }
    requires kind { kind_of engine.now ≡ LeftmostFirst }
    ensures { IsLastCount engine.now.nfa haystack.now rounds result }
{
    let mut count = 0;
    for _ in 0..rounds {
        count = count_piked(engine, cache, haystack);
    }
    count
}

fn count_piked(engine: &PikeVM, cache: &mut pikevm::Cache, haystack: &[u8]) -> u64
    requires fits { Fits cache.old engine.now.nfa }
    requires kind { kind_of engine.now ≡ LeftmostFirst }
    ensures count { IsMatchCount engine.now.nfa haystack.now result }
    ensures fits { Fits cache.new engine.now.nfa }
{
    let mut count = 0u64;
    for _found in engine.find_iter(cache, Input::new(haystack)) {
        count += 1;
    }
    count
}

/// Why the matches were not counted.
#[derive(Debug, Drop, Error)]
pub enum Failure {
    /// The haystack is too long for the engine.
    #[error("the haystack of {len} bytes is too long for the backtracker")]
    TooLong { len: usize },
    /// Allocation failed.
    #[error("out of memory")]
    Memory,
    /// The haystack could not be read.
    #[error("cannot read the haystack: {0}")]
    Read(io::Error),
}

impl From<AllocError> for Failure {
    ghost use Rattle.std.specs.Prelude.{◌≡◌};
    ghost use Rattle.nfa_samples.specs.declared.named_engine.Failure.TheVariants as failure;

    ghost from_gives = { λ _ gives. gives ≡ failure.Memory };

    fn from(_: AllocError) -> Failure {
        Failure::Memory
    }
}

impl From<BuildError> for Failure {
    ghost use Rattle.std.specs.Prelude.{◌≡◌};
    ghost use Rattle.nfa_samples.specs.declared.named_engine.Failure.TheVariants as failure;

    ghost from_gives = { λ _ gives. gives ≡ failure.Memory };

    // The NFAs of the programs are well formed, so only an allocation can have failed.
    fn from(_: BuildError) -> Failure {
        Failure::Memory
    }
}

impl From<SearchError> for Failure {
    ghost use Rattle.std.specs.Prelude.{◌≡◌};
    ghost use Rattle.nfa_samples.specs.Counts.{failure_of};

    ghost from_gives = { λ error gives. gives ≡ failure_of error };

    fn from(error: SearchError) -> Failure {
        match error {
            SearchError::HaystackTooLong { len } => Failure::TooLong { len },
            // A search calls no finder but the engine, so no finder fails.
            SearchError::Memory | SearchError::Finder(_) => Failure::Memory,
        }
    }
}

impl From<io::Error> for Failure {
    ghost use Rattle.nfa_samples.specs.Counts.{IsOfReader};

    ghost from_gives = { IsOfReader };

    fn from(error: io::Error) -> Failure {
        if error.kind() == io::ErrorKind::OutOfMemory {
            return Failure::Memory;
        }
        Failure::Read(error)
    }
}
