//! Zeros behind the last words of a row that has room for them.

ghost use Rattle.std.specs.Prelude.{◌≡◌, ◌+◌, ◌<◌, ◌≤◌, ◌++◌, replicate, vec_len, vec_capacity};

/// Up to so many zeros are written in line: a call takes as many instructions as the rest of a command.
const FEW: usize = 10;

/// Adds so many zeros, for which there is room.
#[inline(always)]
pub(crate) fn add_zeros(words: &mut Vec<u64>, count: usize)
    requires { vec_len words.old + count ≤ vec_capacity words.old }
    ensures items { words.new.items ≡ words.old.items ++ replicate count 0 }
    ensures capacity { vec_capacity words.old ≤ vec_capacity words.new }
{
    if count > FEW {
        add_many(words, count);
    } else {
        add_few(words, count);
    }
}

// Adds any number of zeros, by a call.
#[inline(never)]
fn add_many(words: &mut Vec<u64>, count: usize)
    requires { vec_len words.old + count ≤ vec_capacity words.old }
    ensures items { words.new.items ≡ words.old.items ++ replicate count 0 }
    ensures capacity { vec_capacity words.old ≤ vec_capacity words.new }
{
    let end = words.len() + count;
    // There is room, so this cannot fail.
    words.resize(end, 0).unwrap();
}

// Adds the zeros by four, and then the rest.
#[inline(always)]
fn add_few(words: &mut Vec<u64>, count: usize)
    requires { vec_len words.old + count ≤ vec_capacity words.old }
    ensures items { words.new.items ≡ words.old.items ++ replicate count 0 }
    ensures capacity { vec_capacity words.old ≤ vec_capacity words.new }
{
    for _ in 0..count / 4 {
        add_four(words);
    }
    add_rest(words, count % 4);
}

// Adds four zeros.
#[inline(always)]
fn add_four(words: &mut Vec<u64>)
    requires { vec_len words.old + 4 ≤ vec_capacity words.old }
    ensures items { words.new.items ≡ words.old.items ++ replicate 4 0 }
    ensures capacity { vec_capacity words.old ≤ vec_capacity words.new }
{
    words.push_reserved(0);
    words.push_reserved(0);
    words.push_reserved(0);
    words.push_reserved(0);
}

// Adds up to three zeros.
#[inline(always)]
fn add_rest(words: &mut Vec<u64>, count: usize)
    requires few { count < 4 }
    requires room { vec_len words.old + count ≤ vec_capacity words.old }
    ensures items { words.new.items ≡ words.old.items ++ replicate count 0 }
    ensures capacity { vec_capacity words.old ≤ vec_capacity words.new }
{
    if count == 0 {
        return;
    }
    words.push_reserved(0);
    if count == 1 {
        return;
    }
    words.push_reserved(0);
    if count == 2 {
        return;
    }
    words.push_reserved(0);
}
