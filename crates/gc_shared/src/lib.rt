//! One world shared by several threads: a lock, and seats whose receipts record the reply to each call.
#![tactic(auto)]

mod closing;
mod fault;
mod gate;
mod laws;
mod script;
mod seat;
mod shared;
mod threads;

pub use fault::{CallFault, CloseFault, CloseKind, ThreadsFault};
pub use gate::Gate;
pub use laws::worked_rows;
pub use seat::{Receipt, Seat};
pub use shared::Shared;
pub use threads::run_threads;
