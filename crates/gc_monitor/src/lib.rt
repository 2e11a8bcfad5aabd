//! A standing checker: it goes along with a collection, compares each field as it is brought up to date, and knows at the flip which
//! fields it has yet to see. It believes nobody.
#![tactic(auto)]

mod code_row;
mod laws;
mod monitor;
mod old_row;
mod origin_row;
mod outline;
mod reader;
mod telling;
mod walking;
mod watcher;
mod zeros;

pub use laws::origins_tell_pairs;
pub use monitor::Monitor;
pub use outline::Outline;
pub use reader::Reader;
pub use telling::{a_yes_is_sound, events_keep_telling, writes_keep_telling};
pub use watcher::Watcher;
