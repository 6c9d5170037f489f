//! What a template may mean otherwise than its author thinks.
ghost use Rattle.std.specs.Prelude.{◌≡◌, ◌<◌, MatchBool, false, length, slice_index, true};
ghost use Rattle.replacer.specs.Hits.{HasForeign, HasNoForeign, IsDigit, IsForeign};

/// What is printed on standard error for a template that has what other programs replace.
pub const HINT: &str =
    "\\1 and & in a template stand for themselves; $1 is a group, and $0 the match";

/// Returns whether the template has an `&`, or a backslash before a digit.
pub fn has_foreign(template: &[u8]) -> bool
    ensures found { result ≡ true → HasForeign template.now }
    ensures none { result ≡ false → HasNoForeign template.now (length template.now) }
{
    for at in 0..template.len() {
        if is_foreign(template, at) {
            return true;
        }
    }
    false
}

/// Returns whether an `&`, or a backslash before a digit, is there.
fn is_foreign(template: &[u8], at: usize) -> bool
    requires { at < length template.now }
    ensures { MatchBool result (IsForeign template.now at) (¬ IsForeign template.now at) }
{
    if template[at] == b'\\' {
        return is_digit(byte_at(template, at + 1));
    }
    template[at] == b'&'
}

/// Returns whether the byte is a digit.
fn is_digit(byte: u8) -> bool
    ensures { MatchBool result (IsDigit byte) (¬ IsDigit byte) }
{
    matches!(byte, b'0'..=b'9')
}

/// Returns the byte of the template at this offset, or 0 after its end.
fn byte_at(template: &[u8], at: usize) -> u8
    ensures { result ≡ slice_index template.now at }
{
    if at < template.len() { template[at] } else { 0 }
}
