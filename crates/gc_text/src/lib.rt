//! Texts as bytes: reading them line by line, printing them, and the texts of faults.
#![tactic(auto)]

mod cutting;
mod decimals;
mod front;
mod line_kind;
mod lines;
mod message;
mod printer;
mod read_fault;

pub use cutting::cut;
pub use front::Front;
pub use line_kind::LineKind;
pub use lines::Lines;
pub use message::Message;
pub use printer::Printer;
pub use read_fault::ReadFault;
