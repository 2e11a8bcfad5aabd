//! When a collection begins and how many steps are due, many useful steps in one call, and stacks of extra roots.
#![tactic(auto)]

mod counts;
mod frame;
mod laws;
mod pace;
mod paced;
mod work;

pub use counts::Counts;
pub use frame::Frame;
pub use laws::{
    bounded_calls_find_room, paced_work_bounds_logs, paced_work_keeps_up, waits_are_short,
};
pub use pace::Pace;
pub use paced::work_at_pace;
pub use work::{Looks, Work, work_on, work_within};
