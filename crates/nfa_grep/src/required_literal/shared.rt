//! What some bytes have in common.
ghost use Rattle.std.specs.Prelude.{◌≡◌, ◌+◌, ◌≤◌, All, IfSome, length, slice_range};
ghost use Rattle.nfa_grep.specs.Required.{OccursIn};

use memchr::memmem;

/// Returns a part of these bytes that is in all needles.
pub fn shared_by_all<'b>(bytes: &'b [u8], needles: &[Vec<u8>]) -> &'b [u8]
    ensures inside { OccursIn bytes.now result.now }
    ensures each { All (λ needle. OccursIn needle.items result.now) needles.now }
{
    let mut part = bytes;
    for needle in needles {
        part = shared(part, needle);
    }
    part
}

/// Returns a longest part of these bytes that is in the needle.
fn shared<'b>(bytes: &'b [u8], needle: &[u8]) -> &'b [u8]
    ensures inside { OccursIn bytes.now result.now }
    ensures needle { OccursIn needle.now result.now }
{
    for cut in 0..bytes.len() {
        let len = bytes.len() - cut;
        if let Some(start) = start_of_shared(bytes, len, needle) {
            return &bytes[start..start + len];
        }
    }
    &bytes[..0]
}

/// Returns where a part of this length starts that is in the needle.
fn start_of_shared(bytes: &[u8], len: usize, needle: &[u8]) -> Option<usize>
    requires { len ≤ length bytes.now }
    ensures within { IfSome result (λ start. start + len ≤ length bytes.now) }
    ensures shared { IfSome result (λ start. OccursIn needle.now (slice_range bytes.now start (start + len))) }
{
    for start in 0..bytes.len() - len + 1 {
        if memmem::find(needle, &bytes[start..start + len]).is_some() {
            return Some(start);
        }
    }
    None
}
