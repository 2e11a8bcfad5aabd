//! What the libraries for C share: the numbers of answers and replies, what calls write to C's variables, a test of places, and boxes taken apart for handles.
#![tactic(auto)]

mod answer;
mod parts;
mod reply;
mod telling;

pub use answer::{
    CLOSED, DONE, FLIPPED, NIL, NO_FIELD, NO_MEMORY, NO_OBJECT, NO_ROOM, NUMBER, OBJECT, OPEN,
    OUT_OF_RANGE,
};
pub use parts::Parts;
pub use reply::{GcflipView, of_fetched, of_got, of_look, of_reply, of_result};
pub use telling::{are_places, tell_number};
