//! Lists of the slots that steps write, one after another.
ghost use Rattle.std.specs.Prelude.{◌≡◌, ◌<◌, ◌++◌, ◌∷◌, [], IfOk, IfSome, length, true};
ghost use Rattle.nfa_onepass.specs.Lists.{HasEmptyList, IsCounted, Keeps, list_at};

use std::alloc::{AllocError, Global};

/// The number of the list without slots.
pub const NO_SLOTS: u32 = 0;

/// The maximum number of lists of slots. It bounds how long a search for one takes.
const MAX_LISTS: usize = 4096;

/// The bytes that a slot of a list takes.
const SLOT_BYTES: usize = 8;

/// Lists of slots, and the bytes that their slots take, which are no more than they may.
#[derive(Drop)]
pub struct Lists {
    items: Vec<Vec<usize>>,
    taken: usize,
    most: usize,
    ghost counted: { IsCounted items.items taken most },
}

/// Whether the first list is the second one with the slot after it.
fn is_extended(longer: &[usize], shorter: &[usize], slot: usize) -> bool
    ensures { result ≡ true → longer.now ≡ shorter.now ++ slot ∷ [] }
{
    match longer.split_last() {
        Some((last, rest)) => *last == slot && rest == shorter,
        None => false,
    }
}

/// The number of a list with the slot after the list of this number, if there is one.
fn find_extended(lists: &[Vec<usize>], list: u32, slot: usize) -> Option<u32>
    requires { list < length lists.now }
    ensures { IfSome result (λ longer. (longer < length lists.now)
        × (list_at lists.now longer ≡ list_at lists.now list ++ slot ∷ [])) }
{
    for index in 0..lists.len().min(MAX_LISTS) {
        if is_extended(&lists[index], &lists[list as usize], slot) {
            return Some(index as u32);
        }
    }
    None
}

impl Lists {
    /// Makes the list without slots. The slots of lists may take this many bytes.
    pub fn new(alloc: Global, most: usize) -> Result<Lists, AllocError>
        ensures first { IfOk result (λ made. HasEmptyList made.items.items) }
        ensures none { IfOk result (λ made. made.taken ≡ 0) }
        ensures most { IfOk result (λ made. made.most ≡ most) }
    {
        let mut items = Vec::new(alloc);
        items.push(Vec::new(alloc))?;
        Ok(Lists {
            items,
            taken: 0,
            most,
        })
    }

    /// Returns the list of this number.
    #[inline(always)]
    pub fn get(&self, list: u32) -> Option<&[usize]>
        ensures { IfSome result (λ found. found.now ≡ list_at self.now.items.items list) }
    {
        let found = self.items.get(list as usize)?;
        Some(found.as_slice())
    }

    /// Returns the bytes that the slots of the lists take.
    pub fn memory_usage(&self) -> usize
        ensures { result ≡ self.now.taken }
    {
        self.taken
    }

    /// Adds a list with the slot after the list of this number, if there is room.
    fn add_extended(&mut self, list: u32, slot: usize) -> Option<u32>
        requires { list < length self.old.items.items }
        ensures keeps { Keeps self.old.items.items self.new.items.items }
        ensures most { self.new.most ≡ self.old.most }
        ensures longer { IfSome result (λ longer. (longer < length self.new.items.items)
            × (list_at self.new.items.items longer ≡ list_at self.old.items.items list ++ slot ∷ [])) }
    {
        let index = self.items.len();
        if index >= MAX_LISTS {
            return None;
        }
        let bytes = (self.items[list as usize].len() + 1).saturating_mul(SLOT_BYTES);
        if bytes > self.most - self.taken {
            return None;
        }
        let Ok(mut longer) = self.items[list as usize].clone() else {
            return None;
        };
        if longer.push(slot).is_err() {
            return None;
        }
        if self.items.push(longer).is_err() {
            return None;
        }
        self.taken += bytes;
        Some(index as u32)
    }

    /// The number of a list with the slot after the list of this number, which is added if it is new.
    pub fn extended(&mut self, list: u32, slot: usize) -> Option<u32>
        requires { list < length self.old.items.items }
        ensures keeps { Keeps self.old.items.items self.new.items.items }
        ensures most { self.new.most ≡ self.old.most }
        ensures longer { IfSome result (λ longer. (longer < length self.new.items.items)
            × (list_at self.new.items.items longer ≡ list_at self.old.items.items list ++ slot ∷ [])) }
    {
        if let Some(longer) = find_extended(&self.items, list, slot) {
            return Some(longer);
        }
        self.add_extended(list, slot)
    }
}
