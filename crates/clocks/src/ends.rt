//! What a lazy DFA finds in a text: where matches end, or windows that they are in.
ghost use Rattle.nfa_lazy_dfa.specs.Rows.{IsFor};

use crate::stop::Stop;
use nfa_engines::Input;
use nfa_lazy_dfa::{Cache, DFA, StopError};
use std::alloc::Global;
use thompson_nfa::NFA;

/// A call of a lazy DFA.
#[derive(Clone, Copy, Debug)]
pub enum Ends {
    Halves,
    Windows,
}

impl Ends {
    /// Returns the call that follows `dfa` in an argument.
    pub fn from_word(word: &str) -> Option<Ends> {
        match word {
            "" => Some(Ends::Halves),
            "-windows" => Some(Ends::Windows),
            _ => None,
        }
    }

    /// Returns the count of the last round, with one DFA and one cache for all rounds.
    pub fn rounds(self, alloc: Global, nfa: NFA, text: &[u8], rounds: u64) -> Result<u64, Stop> {
        let dfa = DFA::new(nfa)?;
        let mut cache = dfa.create_cache(alloc)?;
        let count = self.count_last(&dfa, &mut cache, text, rounds)?;
        Ok(count)
    }

    fn count_last(
        self,
        dfa: &DFA,
        cache: &mut Cache,
        text: &[u8],
        rounds: u64,
    ) -> Result<u64, StopError>
        requires { IsFor cache.old dfa.now }
    {
        let mut count = 0;
        for _ in 0..rounds {
            count = self.count(dfa, cache, text)?;
        }
        Ok(count)
    }

    /// Searches from each end on, or from one byte further on than the last search, until nothing is found.
    fn count(self, dfa: &DFA, cache: &mut Cache, text: &[u8]) -> Result<u64, StopError>
        requires { IsFor cache.old dfa.now }
        ensures { IsFor cache.new dfa.now }
    {
        let mut count = 0u64;
        let mut from = 0;
        while from < text.len() {
            let input = Input::new(text).range(from..text.len());
            match self.end(dfa, cache, input)? {
                None => return Ok(count),
                Some(end) => {
                    count = count.wrapping_add(1);
                    from = end.max(from.saturating_add(1));
                }
            }
        }
        Ok(count)
    }

    fn end(self, dfa: &DFA, cache: &mut Cache, input: Input<'_>) -> Result<Option<usize>, StopError>
        requires { IsFor cache.old dfa.now }
        ensures { IsFor cache.new dfa.now }
    {
        match self {
            Ends::Halves => Ok(dfa.try_find_half(cache, input)?.map(|half| half.offset())),
            Ends::Windows => Ok(
                dfa.try_find_window(cache, input)?
                    .map(|window| window.end()),
            ),
        }
    }
}
