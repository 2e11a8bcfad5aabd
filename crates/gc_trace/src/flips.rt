ghost use Rattle.std.specs.Prelude.{◌≡◌, ◌≤◌, ◌-◌, None, IfOk, OnOk, IfSome};
ghost use Rattle.std.specs.Option.{option_map};
ghost use Rattle.gc_graph.specs.Limits.{most_words, most_mutators};
ghost use Rattle.gc_cert.specs.Counts.{HasCounts};
ghost use Rattle.gc_cert.specs.Views.{pair_in};
ghost use Rattle.gc_model.specs.Belonging.{IsState};
ghost use Rattle.gc_model.specs.Runs.{IsEventWithin, HasSizesWithin, after};
ghost use Rattle.gc_collected.specs.Performing.{flip_at};
ghost use Rattle.gc_trace.specs.Flips.{nth_flip};
ghost use Rattle.gc_trace.specs.Grammar.{IsRecording};
ghost use Rattle.gc_trace.specs.Views.{recording};

use crate::trace::Trace;
use gc_cert::PairFile;
use gc_check::Sequential;
use gc_collected::{CollectedHeap, Keep};
use gc_graph::NoMemory;
use gc_model::{Event, scans_and_pairs_are_bounded, states_stay};
use std::alloc::Global;

/// Performs the event. If it flips, returns the pair of the flip.
#[tactic(auto, using(crate::proofs::Sizes::heap_event))]
fn flip_in(heap: &mut CollectedHeap, event: &Event) -> Result<Option<PairFile>, NoMemory>
    requires event { IsEventWithin most_words heap.old.core.mutators event.now }
    requires few { heap.old.core.mutators ≤ most_mutators }
    requires sound { IsState heap.old.core }
    requires small { HasSizesWithin most_words heap.old.core }
    requires taken { heap.old.beside.pair ≡ None }
    ensures flip { IfOk result (λ kept. option_map pair_in kept ≡ flip_at heap.old.core event.now) }
    ensures counts { IfOk result (λ kept. IfSome kept (λ file. HasCounts (pair_in file))) }
    ensures happened { OnOk result (heap.new.core ≡ after heap.old.core event.now) }
    ensures sound { OnOk result (IsState heap.new.core) }
    ensures small { OnOk result (HasSizesWithin most_words heap.new.core) }
    ensures taken { OnOk result (heap.new.beside.pair ≡ None) }
    ensures mutators { heap.new.core.mutators ≡ heap.old.core.mutators }
{
    states_stay();
    scans_and_pairs_are_bounded();
    let Ok(_) = heap.perform(&Sequential, event, Keep::Pair) else {
        return Err(NoMemory);
    };
    Ok(heap.take_pair())
}

/// Returns the pair of the trace's n-th flip, counted from 1, or `None` if the trace has fewer flips.
pub fn nth_flip(alloc: Global, trace: &Trace, n: u32) -> Result<Option<PairFile>, NoMemory>
    requires trace { IsRecording (recording trace.now) }
    requires some { 1 ≤ n }
    ensures flip { IfOk result (λ found. option_map pair_in found ≡ nth_flip n (recording trace.now)) }
    ensures counts { IfOk result (λ found. IfSome found (λ file. HasCounts (pair_in file))) }
{
    states_stay();
    let mut heap = CollectedHeap::open(alloc, trace.size, trace.mutators)?;
    let mut before = n - 1;
    for event in &trace.events {
        let kept = flip_in(&mut heap, event)?;
        if let Some(file) = kept {
            if before == 0 {
                return Ok(Some(file));
            }
            before -= 1;
        }
    }
    Ok(None)
}
