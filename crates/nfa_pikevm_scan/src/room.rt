//! Room in the vectors of a cache.
ghost use Rattle.std.specs.Prelude.{◌≡◌, ◌≤◌, IsOk, OnOk, replicate, vec_capacity};

use regex_search_core::Refused;

/// Makes room for `count` elements, and changes none. Fails only if it has to allocate.
pub fn reserve<T: Drop>(items: &mut Vec<T>, count: usize) -> Result<(), Refused>
    ensures granted { count ≤ vec_capacity items.old → IsOk result }
    ensures items { items.new.items ≡ items.old.items }
    ensures room { OnOk result (count ≤ vec_capacity items.new) }
{
    if items.len() < count {
        items.reserve(count - items.len())?;
    }
    Ok(())
}

/// Replaces the elements by `count` copies of the value. Requires room for them.
pub fn refill<T: Copy + Drop>(items: &mut Vec<T>, count: usize, value: T)
    requires { count ≤ vec_capacity items.old }
    ensures { items.new.items ≡ replicate count value }
{
    items.clear();
    let _ = items.resize(count, value);
}
