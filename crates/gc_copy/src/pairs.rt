//! The certificate, read off the links of the replicas.

ghost use Rattle.std.specs.Prelude.{◌≡◌, ◌<◌, ◌^◌, IfOk, length, map};
ghost use Rattle.gc_words.specs.Space.{IsSpace};
ghost use Rattle.gc_words.specs.Views.{addresses};
ghost use Rattle.gc_model.specs.State.{Replica};
ghost use Rattle.gc_model.specs.Members.{In};
ghost use Rattle.gc_copy.specs.Words.{replicas_in};

use gc_graph::NoMemory;
use gc_words::{NewAddr, OldAddr, Pair, next_in};
use std::alloc::Global;

/// Returns a pair for each object of a space with these words, its link and its own address, in the order of addresses. Allocates once, if there are `count`
/// objects at most.
pub fn linked_pairs(alloc: Global, words: &[u64], count: u32) -> Result<Vec<Pair>, NoMemory>
    requires shaped { IsSpace (record { size = length words.now; words = words.now }) }
    requires links { (r : Replica) → In r (replicas_in words.now) → r.original < 2 ^ 32 }
    ensures few { IfOk result (λ pairs. length pairs.items < 2 ^ 32) }
    ensures pairs { IfOk result (λ pairs. map addresses pairs.items
        ≡ map (λ r. (r.original, r.place)) (replicas_in words.now)) }
{
    let mut pairs = Vec::with_capacity(alloc, count as usize)?;
    let mut at = 1;
    while at < words.len() {
        let pair = Pair {
            old: OldAddr(words[at + 1] as u32),
            new: NewAddr(at as u32),
        };
        pairs.push(pair)?;
        let Some(next) = next_in(words, at, true) else {
            unreachable!()
        };
        at = next;
    }
    Ok(pairs)
}
