ghost use Rattle.std.specs.Prelude.{◌≤◌};
ghost use Rattle.gc_text.specs.Lines.{joined};
ghost use Rattle.gc_trace.specs.Grammar.{event_tokens, HasLine};
ghost use Rattle.gc_trace.specs.Internal.Headings.{first_line, second_line, IsVersion, AreWorldSizes};

use crate::front::{line, sizes_line, version_line};
use gc_model::Event;
use gc_text::{Front, LineKind};

/// The first line, with the version of the text.
#[derive(Drop)]
pub struct FirstLine;

impl LineKind for FirstLine {
    type Value = u8;

    ghost fits = { λ _ version. IsVersion version };

    ghost line = { λ _ version. first_line version };

    fn take(&self, front: &mut Front<'_>) -> Option<u8> {
        version_line(front)
    }
}

/// The second line, with the size of the space and the number of mutators.
#[derive(Drop)]
pub struct SecondLine;

impl LineKind for SecondLine {
    type Value = (u32, u8);

    ghost fits = { λ _ sizes. AreWorldSizes sizes };

    ghost line = { λ _ sizes. second_line sizes };

    fn take(&self, front: &mut Front<'_>) -> Option<(u32, u8)> {
        sizes_line(front)
    }
}

/// The line of an event, in a text of this version.
#[derive(Drop)]
pub struct EventLine {
    pub version: u8,
}

impl LineKind for EventLine {
    type Value = Event;

    ghost is_sound = { λ kind. 1 ≤ kind.version };

    ghost fits = { λ kind event. HasLine kind.version event };

    ghost line = { λ _ event. joined (event_tokens event) };

    #[inline(always)]
    fn take(&self, front: &mut Front<'_>) -> Option<Event> {
        line(self.version, front)
    }
}
