ghost use Rattle.std.specs.Prelude.{◌≡◌, true, false};
ghost use Rattle.gc_trace.specs.Grammar.{HasLine, IsOf, newest};

use crate::fault::TraceFault;
use crate::line_kinds::{EventLine, FirstLine, SecondLine};
use gc_graph::{MOST_WORDS, Source};
use gc_model::Event;
use gc_text::Lines;
use std::alloc::Global;
use std::io::Read;

/// The maximum length of a trace text in bytes.
const LIMIT: usize = 16777216;

/// Returns whether the event's mutator, or the mutator of its log, is below `mutators`.
#[inline(always)]
fn is_of(mutators: u8, event: &Event) -> bool
    requires { HasLine newest event.now }
    ensures yes { result ≡ true → IsOf mutators event.now }
    ensures no { result ≡ false → ¬ IsOf mutators event.now }
{
    match event {
        Event::Mutate { m, .. } => *m < mutators,
        Event::Collect(step) => step.is_within(MOST_WORDS, mutators),
    }
}

/// A trace text that is read event by event.
#[derive(Drop)]
pub struct EventReader {
    pub version: u8,
    pub size: u32,
    pub mutators: u8,
    lines: Lines,
}

impl EventReader {
    ghost use Rattle.std.specs.Prelude.{◌≡◌, ◌≤◌, ◌+◌, ◌∷◌, ◌++◌, ◌↔◌, ℕ, List, [], true, false, drop, IfOk, IfSome, MatchOption, MatchResult, Err, Some};
    ghost use Rattle.gc_graph.specs.Streams.{bytes_left, source_failed};
    ghost use Rattle.gc_model.specs.declared.event.Event.{Event};
    ghost use Rattle.gc_trace.specs.Grammar.{HasLine, IsOf};
    ghost use Rattle.gc_trace.specs.Faults.{trace_limit, IsReadAsTrace, ReadingMayFail};
    ghost use Rattle.gc_trace.specs.Internal.Reading.{IsReadingTrace, HasRead, read_so_far};

    /// Reads the heading of a trace text.
    pub fn open<R: Read>(alloc: Global, reader: &mut Source<R>) -> Result<EventReader, TraceFault>
        ensures exact { (text : List ℕ) → bytes_left R.remaining reader.old ≡ Some text → MatchResult result
            (λ read. HasRead text [] read (bytes_left R.remaining reader.new))
            (λ fault. ReadingMayFail fault text) }
        ensures reading { IfOk result IsReadingTrace }
        ensures number { IfOk result (λ read. read.lines.taken ≡ 2) }
        ensures stops { (text : List ℕ) → bytes_left R.remaining reader.old ≡ Some text → result ≡ Err TraceFault.TooLarge
            → bytes_left R.remaining reader.new ≡ Some (drop (trace_limit + 1) text) }
        ensures read { (result ≡ Err TraceFault.Read) ↔ (source_failed reader.new ≡ true) }
    {
        let mut lines = Lines::open(alloc, LIMIT, reader)?;
        let Some(version) = lines.take(&FirstLine, reader)? else {
            return Err(TraceFault::BadHeader);
        };
        let Some((size, mutators)) = lines.take(&SecondLine, reader)? else {
            return Err(TraceFault::BadHeader);
        };
        Ok(EventReader {
            version,
            size,
            mutators,
            lines,
        })
    }

    /// Reads the next event. Returns `None` at the end of the text.
    #[inline(always)]
    pub fn next<R: Read>(&mut self, reader: &mut Source<R>) -> Result<Option<Event>, TraceFault>
        requires reading { IsReadingTrace self.old }
        requires unfailed { source_failed reader.old ≡ false }
        ensures exact { (text : List ℕ) (events : List Event) → HasRead text events self.old (bytes_left R.remaining reader.old)
            → MatchResult result
            (λ found. MatchOption found (IsReadAsTrace (read_so_far self.old events) text)
            (λ event. HasRead text (events ++ event ∷ []) self.new (bytes_left R.remaining reader.new)))
            (λ fault. ReadingMayFail fault text) }
        ensures event { IfOk result (λ found. IfSome found (λ event. HasLine self.old.version event × IsOf self.old.mutators event)) }
        ensures number { IfOk result (λ found. MatchOption found (self.new.lines.taken ≡ self.old.lines.taken) (λ _. self.new.lines.taken ≡ self.old.lines.taken + 1)) }
        ensures heading { read_so_far self.new [] ≡ read_so_far self.old [] }
        ensures reading { IfOk result (λ _. IsReadingTrace self.new) }
        ensures stops { (text : List ℕ) (events : List Event) → HasRead text events self.old (bytes_left R.remaining reader.old)
            → result ≡ Err TraceFault.TooLarge
            → bytes_left R.remaining reader.new ≡ Some (drop (trace_limit + 1) text) }
        ensures read { (result ≡ Err TraceFault.Read) ↔ (source_failed reader.new ≡ true) }
    {
        let kind = EventLine {
            version: self.version,
        };
        let Some(event) = self.lines.take(&kind, reader)? else {
            if self.lines.waiting().is_empty() {
                return Ok(None);
            }
            return Err(TraceFault::BadLine(self.lines.taken() + 1));
        };
        if !is_of(self.mutators, &event) {
            self.lines.read_to_end(reader)?;
            return Err(TraceFault::NoSuchMutator(self.lines.taken()));
        }
        Ok(Some(event))
    }
}
