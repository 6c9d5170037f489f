//! A user that takes any cache, and makes it fit at run time.

use nfa_engines::Input;
use nfa_engines::error::SearchError;
use nfa_engines::pikevm::{Cache, PikeVM};

/// Returns whether the text has a match. The cache may be that of another engine.
pub fn matches(vm: &PikeVM, cache: &mut Cache, text: &[u8]) -> Result<bool, SearchError> {
    if !cache.fits(vm) {
        vm.reset_cache(cache)?;
    }
    Ok(vm.is_match(cache, Input::new(text)))
}
