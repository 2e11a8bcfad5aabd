ghost use Rattle.std.specs.Prelude.{◌≡◌, ◌≤◌, ◌∷◌, ◌++◌, ◌↔◌, [], List, ℕ, true, false, IfSome, IfOk, IfErr, OnOk, Err};
ghost use Rattle.gc_graph.specs.Limits.{most_words, most_mutators};
ghost use Rattle.gc_graph.specs.Streams.{bytes_left, source_failed};
ghost use Rattle.gc_model.specs.State.{State, opening_state};
ghost use Rattle.gc_model.specs.Belonging.{IsState};
ghost use Rattle.gc_model.specs.Runs.{IsEventWithin, after, answer, answers, state_after};
ghost use Rattle.gc_model.specs.declared.event.Event.{Event};
ghost use Rattle.gc_trace.specs.Faults.{ReadingMayFail};
ghost use Rattle.gc_trace.specs.Internal.Playing.{HasPlayed, HasPlayedRest, HasResults};
ghost use Rattle.gc_trace.specs.Internal.Reading.{IsReadingTrace, HasRead, read_so_far};
ghost use Rattle.gc_trace.specs.Internal.Report.{FitsU64, with_answer};
ghost use Rattle.gc_trace.specs.Plays.{trace_opening};
ghost use Rattle.gc_trace.specs.Replies.{reply_text};
ghost use Rattle.gc_trace.specs.Report.{report_of};

use crate::event_reader::EventReader;
use crate::fault::TraceFault;
use crate::replies::{LINE, print_answer};
use crate::report::Report;
use gc_check::Sequential;
use gc_collected::{CollectedHeap, Keep};
use gc_copy::heaps_have_addresses_as_names;
use gc_graph::{NoMemory, Source};
use gc_model::{Event, states_stay};
use gc_text::Printer;
use std::alloc::Global;
use std::io::Read;
use std::mem::replace;

/// Whether a player gathers the reply lines.
#[derive(Clone, Copy, Debug, PartialEq, Eq)]
pub enum Gather {
    Nothing,
    Replies,
}

/// The results of a play.
#[derive(Debug, Drop)]
pub struct Played {
    /// The reply lines, if they were gathered.
    pub replies: Vec<u8>,
    pub report: Report,
}

/// Plays events in order in its own heap. Keeps no history, only counts of the answers and, if asked to, the reply lines.
#[derive(Drop)]
pub struct Player {
    heap: CollectedHeap,
    // The counts so far, with the end and the free words of the empty heap.
    report: Report,
    gather: Gather,
    // The reply lines so far: this text, followed by the printer's buffer.
    text: Vec<u8>,
    printer: Printer,
}

impl Player {
    ghost use Rattle.gc_trace.specs.declared.playing.Gather.{Gather};

    /// Returns a player with an empty heap of `size` words.
    fn open(alloc: Global, size: u32, mutators: u8, gather: Gather) -> Result<Player, NoMemory>
        requires low { 1 ≤ size }
        requires high { size ≤ most_words }
        requires some { 1 ≤ mutators }
        requires few { mutators ≤ most_mutators }
        ensures played { IfOk result (HasPlayed (opening_state size mutators) []) }
        ensures sound { IfOk result (λ player. IsState player.heap.core) }
        ensures mutators { IfOk result (λ player. player.heap.core.mutators ≡ mutators) }
        ensures gather { IfOk result (λ player. player.gather ≡ gather) }
    {
        states_stay();
        heaps_have_addresses_as_names();
        let heap = CollectedHeap::open(alloc, size, mutators)?;
        let report = Report::of_space(heap.heap().space());
        Ok(Player {
            heap,
            report,
            gather,
            text: Vec::new(alloc),
            printer: Printer::new(),
        })
    }

    /// Plays one more event.
    #[tactic(auto, using(crate::proofs::Sizes::heap_event))]
    fn take(&mut self, event: &Event) -> Result<(), NoMemory>
        requires event { IsEventWithin most_words self.old.heap.core.mutators event.now }
        requires sound { IsState self.old.heap.core }
        requires fits { FitsU64 (with_answer self.old.report (answer self.old.heap.core event.now)) }
        ensures played { OnOk result ((s : State) (events : List Event) → HasPlayed s events self.old
            → HasPlayed s (events ++ event.now ∷ []) self.new) }
        ensures sound { OnOk result (IsState self.new.heap.core) }
        ensures mutators { self.new.heap.core.mutators ≡ self.old.heap.core.mutators }
        ensures gather { self.new.gather ≡ self.old.gather }
    {
        states_stay();
        let Ok(answer) = self.heap.perform(&Sequential, event, Keep::Room) else {
            return Err(NoMemory);
        };
        self.report.count(&answer);
        let Gather::Replies = self.gather else {
            return Ok(());
        };
        self.printer.gather(&mut self.text, LINE)?;
        print_answer(&mut self.printer, &answer);
        Ok(())
    }

    /// Plays the events that are left in the reader, in order.
    fn take_all<R: Read>(
        &mut self,
        lines: &mut EventReader,
        reader: &mut Source<R>,
    ) -> Result<(), TraceFault>
        requires reading { IsReadingTrace lines.old }
        requires number { lines.old.lines.taken ≡ 2 }
        requires unfailed { source_failed reader.old ≡ false }
        requires opened { HasPlayed (trace_opening (read_so_far lines.old [])) [] self.old }
        requires sound { IsState self.old.heap.core }
        requires mutators { self.old.heap.core.mutators ≡ lines.old.mutators }
        ensures played { OnOk result (HasPlayedRest lines.old (bytes_left R.remaining reader.old) self.new) }
        ensures fault { IfErr result (λ fault. (text : List ℕ)
            → HasRead text [] lines.old (bytes_left R.remaining reader.old) → ReadingMayFail fault text) }
        ensures sound { OnOk result (IsState self.new.heap.core) }
        ensures gather { self.new.gather ≡ self.old.gather }
        ensures read { (result ≡ Err TraceFault.Read) ↔ (source_failed reader.new ≡ true) }
    {
        while let Some(event) = lines.next(reader)? {
            self.take(&event)?;
        }
        Ok(())
    }

    /// Takes the results after the last event. The player stays where it is: a copy would take 16 KiB of stack.
    fn finish(&mut self, alloc: Global) -> Result<Played, NoMemory>
        requires sound { IsState self.old.heap.core }
        ensures report { (s : State) (events : List Event) → HasPlayed s events self.old
            → IfOk result (λ played. played.report ≡ report_of (answers s events) (state_after s events)) }
        ensures replies { (s : State) (events : List Event) → HasPlayed s events self.old → self.old.gather ≡ Gather.Replies
            → IfOk result (λ played. played.replies.items ≡ reply_text (answers s events)) }
    {
        heaps_have_addresses_as_names();
        self.printer.gather_all(&mut self.text)?;
        let replies = replace(&mut self.text, Vec::new(alloc));
        Ok(Played {
            replies,
            report: self.report.with_space(self.heap.heap().space()),
        })
    }
}

ghost use Rattle.gc_trace.specs.declared.playing.Gather.{Gather};

/// Reads a trace and plays it in a new heap, event by event as its lines arrive.
pub fn play_all<R: Read>(
    alloc: Global,
    reader: &mut Source<R>,
    gather: Gather,
) -> Result<Played, TraceFault>
    ensures played { IfOk result (HasResults (bytes_left R.remaining reader.old) gather) }
    ensures fault { IfErr result (λ fault. IfSome (bytes_left R.remaining reader.old) (λ text. ReadingMayFail fault text)) }
    ensures read { (result ≡ Err TraceFault.Read) ↔ (source_failed reader.new ≡ true) }
{
    let mut lines = EventReader::open(alloc, reader)?;
    let mut player = Player::open(alloc, lines.size, lines.mutators, gather)?;
    player.take_all(&mut lines, reader)?;
    match player.finish(alloc) {
        Ok(played) => Ok(played),
        Err(NoMemory) => Err(TraceFault::NoMemory),
    }
}
