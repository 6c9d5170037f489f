//! A scan, row by row.
ghost use Rattle.std.specs.Prelude.{◌≡◌, ℕ, ◌+◌, ◌-◌, ◌<◌, ◌≤◌, ◌⊎◌, IfErr, IfNone, IfOk, IfSome, OnErr, OnOk, Option};
ghost use Rattle.std.specs.Prelude.{Some, ◌∷◌, [], false, if◌then◌else◌, is_some, length, option_map, slice_get};
ghost use Rattle.std.specs.Prelude.{slice_index, true, vec_len};
ghost use Rattle.regex_search_core.specs.Found.{half_found_of, half_at};
ghost use Rattle.regex_search_core.specs.PatternSets.{number_of};
ghost use Rattle.regex_search_core.specs.Search.{search_of};
ghost use Rattle.nfa_paths.specs.Paths.{start_count, start_state, starts};
ghost use Rattle.nfa_lazy_dfa.specs.Configurations.{scan_half};
ghost use Rattle.nfa_lazy_dfa.specs.Places.{IsFirstAt, IsFoundAt, IsNextPlace};
ghost use Rattle.nfa_lazy_dfa.specs.Assertions.{IsRead, SameLooks, byte_before, sees};
ghost use Rattle.nfa_lazy_dfa.specs.Capacities.{HasToScan, IsUsedUpAt, StopsAtStart, first_row_memory};
ghost use Rattle.nfa_lazy_dfa.specs.Reads.{HasRead, IsOver};
ghost use Rattle.nfa_lazy_dfa.specs.Rows.{IsAt, IsFor, IsRowOf, LeadsTo, Scans, Spends, steps_of};
ghost use Rattle.nfa_lazy_dfa.specs.Stances.{Stance, hit_here, stance_of};
ghost use Rattle.nfa_lazy_dfa.specs.Stops.{IsStop};

use crate::cache::{Cache, ROW_CELLS, UNKNOWN};
use crate::dfa::DFA;
use crate::direct::over_known;
use crate::ends::found_last;
use crate::error::StopError;
use crate::fill::row_of;
use crate::follow::{Stand, before};
use crate::known::{cell_at, walk};
use nfa_scan_core::starts::start_state;
use regex_search_core::{HalfMatch, Input, PatternID, StateID};

/// Where a scan is: a position, the row there, and what was found before.
#[derive(Clone, Copy)]
pub struct Place {
    pub at: usize,
    pub row: u32,
    pub found: Option<HalfMatch>,
}

/// Where a scan begins: its first place, and the NFA state that it starts in.
#[derive(Clone, Copy)]
pub struct First {
    pub place: Place,
    pub start: StateID,
}

/// Whether a match may start at more than one position.
pub fn may_start_later(dfa: &DFA, input: &Input<'_>) -> bool
    requires { (search_of input.now).start ≤ (search_of input.now).end }
    ensures count { let x = search_of input.now in
        start_count dfa.now.nfa x ≡ (if result then ((x.end - x.start) + 1) else 1) }
    ensures begins { result ≡ true
        → start_state dfa.now.nfa (search_of input.now).anchored ≡ Some dfa.now.nfa.anchored }
{
    !input.get_anchored().is_anchored() && !dfa.nfa.is_always_start_anchored()
}

/// A match of the pattern that ends at the position, if there is a pattern.
pub fn half_at(pattern: Option<PatternID>, at: usize) -> Option<HalfMatch>
    ensures { option_map half_found_of result ≡ option_map (half_at at) (option_map number_of pattern) }
{
    Some(HalfMatch::new(pattern?, at))
}

/// Counts a scan. Returns where it begins, or `None` if no match may start.
#[inline(always)]
pub fn begin(dfa: &DFA, cache: &mut Cache, input: &Input<'_>) -> Result<Option<First>, StopError>
    requires { IsFor cache.old dfa.now }
    ensures own { IsFor cache.new dfa.now }
    ensures at { let x = search_of input.now in
        IfOk result (λ first. IfSome first (IsFirstAt dfa.now cache.new x)) }
    ensures none { let x = search_of input.now in
        IfOk result (λ first. IfNone first (length (starts dfa.now.nfa x) ≡ 0)) }
    ensures scan { let x = search_of input.now in Scans cache.old cache.new 1 (x.end - x.start) }
    ensures same { steps_of cache.new ≡ steps_of cache.old }
    ensures stops { IfErr result (IsStop dfa.now.nfa (search_of input.now)) }
    ensures full { IfErr result (IsUsedUpAt cache.new dfa.now) }
    ensures small { dfa.now.capacity < first_row_memory → HasToScan dfa.now.nfa (search_of input.now)
        → StopsAtStart (search_of input.now) result }
{
    cache.count_scan(dfa);
    let Some(start) = start_state(&dfa.nfa, input) else {
        return Ok(None);
    };
    if input.is_done() {
        return Ok(None);
    }
    let at = input.start();
    let row = first_row(dfa, cache, input, start)?;
    let place = Place {
        at,
        row,
        found: None,
    };
    Ok(Some(First { place, start }))
}

/// The half match of one scan.
#[inline(always)]
pub fn scan_half(
    dfa: &DFA,
    cache: &mut Cache,
    input: &Input<'_>,
) -> Result<Option<HalfMatch>, StopError>
    requires { IsFor cache.old dfa.now }
    ensures own { IsFor cache.new dfa.now }
    ensures steps { let x = search_of input.now in IfOk result (λ half.
        option_map half_found_of half ≡ scan_half dfa.now.nfa x dfa.now.kind x.earliest) }
    ensures stops { IfErr result (IsStop dfa.now.nfa (search_of input.now)) }
    ensures scan { let x = search_of input.now in Scans cache.old cache.new 1 (x.end - x.start) }
    ensures reads { let x = search_of input.now in
        OnOk result (HasRead (IsOver dfa.now x) cache.old cache.new x.start) }
    ensures full { IfErr result (IsUsedUpAt cache.new dfa.now) }
    ensures small { dfa.now.capacity < first_row_memory → HasToScan dfa.now.nfa (search_of input.now)
        → StopsAtStart (search_of input.now) result }
{
    let Some(first) = begin(dfa, cache, input)? else {
        return Ok(None);
    };
    scan_from(dfa, cache, input, first.place)
}

/// The row of a scan at its first position.
#[inline(always)]
pub fn first_row(
    dfa: &DFA,
    cache: &mut Cache,
    input: &Input<'_>,
    start: StateID,
) -> Result<u32, StopError>
    requires own { IsFor cache.old dfa.now }
    requires start { start_state dfa.now.nfa (search_of input.now).anchored ≡ Some start }
    requires below { start < length dfa.now.nfa.states }
    requires order { (search_of input.now).start ≤ (search_of input.now).end }
    ensures own { IsFor cache.new dfa.now }
    ensures at { let x = search_of input.now in IfOk result (IsAt dfa.now cache.new x x.start) }
    ensures alone { IfOk result (λ row. (s : Stance) → IsRowOf cache.new row s → s.states ≡ start ∷ []) }
    ensures spends { Spends cache.old cache.new 0 1 }
    ensures stops { IfErr result (IsStop dfa.now.nfa (search_of input.now)) }
    ensures full { IfErr result (IsUsedUpAt cache.new dfa.now) }
    ensures small { dfa.now.capacity < first_row_memory → StopsAtStart (search_of input.now) result }
{
    let at = input.start();
    let seen = seen_before(dfa, input)?;
    match cache.start(dfa, start, seen, may_start_later(dfa, input)) {
        Ok(row) => Ok(row),
        Err(gave_up) => Err(gave_up.at(at)),
    }
}

/// The half match of a scan that is at this place.
#[inline(always)]
pub fn scan_from(
    dfa: &DFA,
    cache: &mut Cache,
    input: &Input<'_>,
    from: Place,
) -> Result<Option<HalfMatch>, StopError>
    requires own { IsFor cache.old dfa.now }
    requires at { IsFoundAt dfa.now cache.old (search_of input.now) from }
    ensures own { IsFor cache.new dfa.now }
    ensures steps { let x = search_of input.now in IfOk result (λ half.
        option_map half_found_of half ≡ scan_half dfa.now.nfa x dfa.now.kind x.earliest) }
    ensures stops { IfErr result (IsStop dfa.now.nfa (search_of input.now)) }
    ensures spends { Spends cache.old cache.new (((search_of input.now).end - from.at) + 1) 0 }
    ensures reads { OnOk result (HasRead (IsOver dfa.now (search_of input.now)) cache.old cache.new from.at) }
    ensures full { IfErr result (IsUsedUpAt cache.new dfa.now) }
{
    let (place, over) = over_known(dfa, cache, input, from);
    cache.count_steps(dfa, from.at, place.at);
    if over {
        return Ok(place.found);
    }
    scan_rest(dfa, cache, input, place)
}

/// The half match of a scan that is at this place, and that does not end over known cells.
#[inline(never)]
fn scan_rest(
    dfa: &DFA,
    cache: &mut Cache,
    input: &Input<'_>,
    from: Place,
) -> Result<Option<HalfMatch>, StopError>
    requires own { IsFor cache.old dfa.now }
    requires at { IsFoundAt dfa.now cache.old (search_of input.now) from }
    ensures own { IsFor cache.new dfa.now }
    ensures steps { let x = search_of input.now in IfOk result (λ half.
        option_map half_found_of half ≡ scan_half dfa.now.nfa x dfa.now.kind x.earliest) }
    ensures stops { IfErr result (IsStop dfa.now.nfa (search_of input.now)) }
    ensures spends { Spends cache.old cache.new (((search_of input.now).end - from.at) + 1) 0 }
    ensures reads { OnOk result (HasRead (IsOver dfa.now (search_of input.now)) cache.old cache.new from.at) }
    ensures full { IfErr result (IsUsedUpAt cache.new dfa.now) }
{
    let place = walk(dfa, cache, input, from);
    if let Some(last) = found_last(dfa, cache, input, place) {
        let to = input.haystack().len().min(place.at + 1);
        cache.count_steps(dfa, place.at, to);
        return Ok(last);
    }
    if place.at < input.end() {
        if let Some(found) = settled(dfa, cache, input, place) {
            cache.count_steps(dfa, place.at, place.at + 1);
            return Ok(found);
        }
    }
    scan_on(dfa, cache, input, place)
}

/// What the scan found, if the cell of the next byte is known and ends the scan: it leads to a dead row, or to a match
/// that is enough.
#[inline(always)]
fn settled(dfa: &DFA, cache: &Cache, input: &Input<'_>, place: Place) -> Option<Option<HalfMatch>>
    requires own { IsFor cache.now dfa.now }
    requires inside { place.at < (search_of input.now).end }
    requires at { IsFoundAt dfa.now cache.now (search_of input.now) place }
    ensures steps { let x = search_of input.now in IfSome result (λ half.
        option_map half_found_of half ≡ scan_half dfa.now.nfa x dfa.now.kind x.earliest) }
    ensures over { IfSome result (λ half. IsOver dfa.now (search_of input.now) (place.at + 1)) }
{
    let earliest = input.get_earliest();
    let first = place.row * ROW_CELLS as u32;
    let cell = cell_at(dfa, cache, input, place.at, first, place.found);
    if cell == UNKNOWN {
        return None;
    }
    let stand = &cache.stands[row_of(cell) as usize];
    let found = half_at(stand.hit, place.at).or(place.found);
    if stand.is_dead() || (earliest && found.is_some()) {
        return Some(found);
    }
    None
}

/// The half match of a scan that is at this place, before a cell that is unknown.
#[inline(never)]
fn scan_on(
    dfa: &DFA,
    cache: &mut Cache,
    input: &Input<'_>,
    mut place: Place,
) -> Result<Option<HalfMatch>, StopError>
    requires own { IsFor cache.old dfa.now }
    requires at { IsFoundAt dfa.now cache.old (search_of input.now) place }
    ensures own { IsFor cache.new dfa.now }
    ensures steps { let x = search_of input.now in IfOk result (λ half.
        option_map half_found_of half ≡ scan_half dfa.now.nfa x dfa.now.kind x.earliest) }
    ensures stops { IfErr result (IsStop dfa.now.nfa (search_of input.now)) }
    ensures spends { Spends cache.old cache.new (((search_of input.now).end - place.at) + 1) 0 }
    ensures reads { OnOk result (HasRead (IsOver dfa.now (search_of input.now)) cache.old cache.new place.at) }
    ensures full { IfErr result (IsUsedUpAt cache.new dfa.now) }
{
    while place.at < input.end() {
        let next = next_row(dfa, cache, input, place)?;
        let (after, over) = place_after(dfa, cache, input, place, next);
        if over {
            return Ok(after.found);
        }
        place = walk(dfa, cache, input, after);
    }
    let hit = last(dfa, cache, input, place)?;
    Ok(half_at(hit, place.at).or(place.found))
}

/// The place after the byte, if it leads to this row, and whether a scan is over there.
pub fn place_after(
    dfa: &DFA,
    cache: &Cache,
    input: &Input<'_>,
    place: Place,
    next: u32,
) -> (Place, bool)
    requires row { next < vec_len cache.now.stands }
    requires inside { place.at < (search_of input.now).end }
    ensures at { result.0.at ≡ place.at + 1 }
    ensures leads { let x = search_of input.now in (old : Cache) → IsFoundAt dfa.now old x place
        → LeadsTo dfa.now old cache.now place.row (slice_index x.haystack place.at) next
        → IsNextPlace dfa.now cache.now x result.0 result.1 }
{
    let stand = &cache.stands[next as usize];
    let found = half_at(stand.hit, place.at).or(place.found);
    let over = ends_scan(stand, input.get_earliest(), found);
    let after = Place {
        at: place.at + 1,
        row: next,
        found,
    };
    (after, over)
}

/// Whether a scan that found this is over in the row of the stand: the row is dead, or the match is enough.
fn ends_scan(stand: &Stand, earliest: bool, found: Option<HalfMatch>) -> bool
    ensures over { result ≡ true → ((stance_of stand.now).states ≡ [])
        ⊎ ((earliest ≡ true) × (is_some found ≡ true)) }
    ensures goes_on { result ≡ false → earliest ≡ true → is_some found ≡ false }
{
    stand.is_dead() || (earliest && found.is_some())
}

/// The row after the byte at the place, which is in the span or just after it.
pub fn next_row(
    dfa: &DFA,
    cache: &mut Cache,
    input: &Input<'_>,
    place: Place,
) -> Result<u32, StopError>
    requires own { IsFor cache.old dfa.now }
    requires at { IsAt dfa.now cache.old (search_of input.now) place.at place.row }
    requires inside { place.at < length (search_of input.now).haystack }
    ensures own { IsFor cache.new dfa.now }
    ensures row { IfOk result (λ row. row < vec_len cache.new.stands) }
    ensures leads { IfOk result (LeadsTo dfa.now cache.old cache.new place.row
        (slice_index (search_of input.now).haystack place.at)) }
    ensures stops { IfErr result (IsStop dfa.now.nfa (search_of input.now)) }
    ensures spends { Spends cache.old cache.new 1 0 }
    ensures counts { OnOk result (steps_of cache.new ≡ steps_of cache.old + 1) }
    ensures full { IfErr result (IsUsedUpAt cache.new dfa.now) }
{
    let at = place.at;
    let byte = input.haystack()[at];
    if dfa.is_quit(byte) {
        return Err(StopError::Quit { byte, offset: at });
    }
    match cache.next(dfa, place.row, byte) {
        Ok(row) => Ok(row),
        Err(gave_up) => Err(gave_up.at(at)),
    }
}

/// The pattern that matches at the end of the span.
fn last(
    dfa: &DFA,
    cache: &mut Cache,
    input: &Input<'_>,
    place: Place,
) -> Result<Option<PatternID>, StopError>
    requires own { IsFor cache.old dfa.now }
    requires at { IsAt dfa.now cache.old (search_of input.now) place.at place.row }
    ensures own { IsFor cache.new dfa.now }
    ensures hit { IfOk result (λ hit. (s : _) → IsRowOf cache.old place.row s
        → option_map number_of hit ≡ hit_here dfa.now.nfa dfa.now.kind s
        (slice_get (search_of input.now).haystack place.at)) }
    ensures read { IfOk result (λ _. IsRead dfa.now.nfa (slice_get (search_of input.now).haystack place.at)) }
    ensures stops { IfErr result (IsStop dfa.now.nfa (search_of input.now)) }
    ensures spends { Spends cache.old cache.new 1 0 }
    ensures full { IfErr result (IsUsedUpAt cache.new dfa.now) }
{
    let at = place.at;
    if at < input.haystack().len() {
        let next = next_row(dfa, cache, input, place)?;
        return Ok(cache.stands[next as usize].hit);
    }
    match cache.end(dfa, place.row) {
        Ok(hit) => Ok(hit),
        Err(gave_up) => Err(gave_up.at(at)),
    }
}

/// What an assertion of the NFA may read of the byte just before the span. A search that may not read it stops.
#[inline(always)]
pub fn seen_before(dfa: &DFA, input: &Input<'_>) -> Result<Option<u8>, StopError>
    requires { (search_of input.now).start ≤ (search_of input.now).end }
    ensures like { let x = search_of input.now in IfOk result (λ seen. (after : Option ℕ) → IsRead dfa.now.nfa after
        → SameLooks dfa.now.nfa (sees seen after) (sees (byte_before x.haystack x.start) after)) }
    ensures read { let x = search_of input.now in IfOk result (λ _.
        IsRead dfa.now.nfa (byte_before x.haystack x.start)) }
    ensures stops { IfErr result (IsStop dfa.now.nfa (search_of input.now)) }
    ensures quits { OnErr result (StopsAtStart (search_of input.now) result) }
    ensures full { (c : Cache) → IfErr result (IsUsedUpAt c dfa.now) }
{
    if !dfa.looks {
        return Ok(None);
    }
    let byte = byte_before(dfa, input)?;
    Ok(before(dfa, byte))
}

/// The byte just before the span, if there is one. A search that may not read it stops.
fn byte_before(dfa: &DFA, input: &Input<'_>) -> Result<Option<u8>, StopError>
    requires { (search_of input.now).start ≤ (search_of input.now).end }
    ensures byte { let x = search_of input.now in IfOk result (λ byte. byte ≡ byte_before x.haystack x.start) }
    ensures read { IfOk result (λ byte. IsRead dfa.now.nfa byte) }
    ensures stops { IfErr result (IsStop dfa.now.nfa (search_of input.now)) }
    ensures quits { OnErr result (StopsAtStart (search_of input.now) result) }
    ensures full { (c : Cache) → IfErr result (IsUsedUpAt c dfa.now) }
{
    let at = input.start();
    if at == 0 {
        return Ok(None);
    }
    let byte = input.haystack()[at - 1];
    if dfa.is_quit(byte) {
        return Err(StopError::Quit {
            byte,
            offset: at - 1,
        });
    }
    Ok(Some(byte))
}
