//! What the bytes that each match has mean for searches. The function is empty: its contract is the theorem.
ghost use Rattle.nfa_grep.specs.Required.{HitsHaveBytes};

/// If each match of these patterns has some bytes, a text in which one of the patterns matches has them, by the
/// reference matcher.
pub fn hits_have_required_bytes()
    ensures { HitsHaveBytes }
{}
