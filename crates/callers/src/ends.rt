//! What a hybrid finds: where matches end.
ghost use Rattle.std.specs.Prelude.{◌≡◌};
ghost use Rattle.nfa_choice.specs.HybridState.{KeepsHybrid};

use nfa_choice::hybrid::Hybrid;
use nfa_engines::Input;

/// The text up to the end of its first match.
pub fn up_to_match<'t>(hybrid: &mut Hybrid, text: &'t [u8]) -> Option<&'t [u8]> {
    let half = hybrid.find_half(Input::new(text))?;
    Some(&text[..half.offset()])
}

/// The offset at which the last match ends.
pub fn last_end(hybrid: &mut Hybrid, text: &[u8]) -> Option<usize> {
    let mut last = None;
    for half in hybrid.half_matches(Input::new(text)) {
        last = Some(half.offset());
    }
    last
}

/// Two searches keep what one keeps, and answer alike.
pub fn found_twice(hybrid: &mut Hybrid, text: &[u8]) -> (bool, bool)
    ensures same { result.0 ≡ result.1 }
    ensures keeps { KeepsHybrid hybrid.old hybrid.new }
{
    let first = hybrid.is_match(Input::new(text));
    (first, hybrid.is_match(Input::new(text)))
}
