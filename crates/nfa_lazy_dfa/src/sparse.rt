//! Whether few bytes begin a match.
use nfa_scan_core::first_bytes::FirstBytes;
use thompson_nfa::NFA;

/// How many bytes may begin a match if a loop for idle rows is to pay. With more of them a scan leaves such a row
/// after a few bytes.
const FEW: usize = 12;

/// Whether few bytes begin a match.
pub fn is_sparse(nfa: &NFA) -> bool {
    let first = FirstBytes::new(nfa);
    let mut count = 0usize;
    for may_begin in first.may_begin.iter() {
        if *may_begin {
            count = count.saturating_add(1);
        }
    }
    count <= FEW
}
