//! A search: a scan, and further scans while the answer ends inside a codepoint.
ghost use Rattle.std.specs.Prelude.{◌≡◌, ◌-◌, ◌*◌, ◌≤◌, length};
ghost use Rattle.regex_search_core.specs.Search.{search_of};
ghost use Rattle.nfa_paths.specs.Paths.{raised};
ghost use Rattle.nfa_paths.specs.Restarts.{IsBounded, SearchGives};
ghost use Rattle.nfa_scan_core.specs.FirstBytes.{IsFirstBytes};
ghost use Rattle.nfa_pikevm_scan.specs.Scans.{HaveRoom, SameSizes};

use nfa_pikevm_scan::scan::scan;
use nfa_pikevm_scan::slot::{Slot, unset_row};
use nfa_pikevm_scan::threads::Threads;
use nfa_scan_core::first_bytes::FirstBytes;
use nfa_scan_core::starts::may_end_at;
use regex_search_core::{HalfMatch, Input, MatchKind};
use thompson_nfa::NFA;

/// Scans, and scans again from one byte further on while the answer ends inside a codepoint. Only an NFA that can match
/// the empty string and is in UTF-8 mode has such answers. An anchored search ends at the first one. The input then
/// starts where the last scan started.
pub fn search(
    nfa: &NFA,
    first: &FirstBytes,
    kind: MatchKind,
    input: &mut Input<'_>,
    threads: &mut Threads,
    slots: &mut [Slot],
) -> Option<HalfMatch>
    requires first { IsFirstBytes nfa.now first.now.may_begin }
    requires serves { HaveRoom nfa.now (length slots.old) threads.old }
    requires counted { threads.old.scans ≡ 0 }
    requires turned { threads.old.reached.seen.turns ≡ 0 }
    ensures answer { SearchGives nfa.now kind (search_of input.old).earliest (search_of input.old) result slots.new
        threads.new.scans threads.new.reached.seen.turns }
    ensures last { search_of input.new ≡ raised (search_of input.old) (threads.new.scans - 1) }
    ensures sizes { SameSizes threads.old threads.new }
    ensures bounds { IsBounded nfa.now kind (search_of input.old).earliest (search_of input.old) threads.new.scans
        threads.new.reached.seen.turns }
{
    loop {
        let half = scan(nfa, first, kind, input, threads, slots)?;
        if may_end_at(nfa, input, half.offset()) {
            return Some(half);
        }
        if input.get_anchored().is_anchored() {
            unset_row(slots);
            return None;
        }
        let start = input.start() + 1;
        input.set_start(start);
    }
}
