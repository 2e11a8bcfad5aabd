//! Zeros behind the last entries of a row that has room for them.

ghost use Rattle.std.specs.Prelude.{◌≡◌, ◌-◌, ◌≤◌, ◌++◌, replicate, vec_len, vec_capacity};

/// Adds zeros up to so many words.
#[inline(always)]
pub(crate) fn add_words(words: &mut Vec<u64>, count: usize)
    requires count { vec_len words.old ≤ count }
    requires room { count ≤ vec_capacity words.old }
    ensures items { words.new.items ≡ words.old.items ++ replicate (count - vec_len words.old) 0 }
    ensures capacity { vec_capacity words.old ≤ vec_capacity words.new }
{
    if words.len() < count {
        // There is room, so this cannot fail.
        words.resize(count, 0).unwrap();
    }
}

/// Adds zeros up to so many addresses.
#[inline(always)]
pub(crate) fn add_addresses(addresses: &mut Vec<u32>, count: usize)
    requires count { vec_len addresses.old ≤ count }
    requires room { count ≤ vec_capacity addresses.old }
    ensures items { addresses.new.items ≡ addresses.old.items ++ replicate (count - vec_len addresses.old) 0 }
    ensures capacity { vec_capacity addresses.old ≤ vec_capacity addresses.new }
{
    if addresses.len() < count {
        // There is room, so this cannot fail.
        addresses.resize(count, 0).unwrap();
    }
}

/// Writes to all memory of a row once, so that no later write meets a page for the first time.
pub(crate) fn touch_words(words: &mut Vec<u64>)
    ensures items { words.new.items ≡ words.old.items }
    ensures capacity { vec_capacity words.old ≤ vec_capacity words.new }
{
    let len = words.len();
    // There is room, so this cannot fail.
    words.resize(words.capacity(), 0).unwrap();
    words.truncate(len);
}

/// The same for a row of addresses.
pub(crate) fn touch_addresses(addresses: &mut Vec<u32>)
    ensures items { addresses.new.items ≡ addresses.old.items }
    ensures capacity { vec_capacity addresses.old ≤ vec_capacity addresses.new }
{
    let len = addresses.len();
    // There is room, so this cannot fail.
    addresses.resize(addresses.capacity(), 0).unwrap();
    addresses.truncate(len);
}
