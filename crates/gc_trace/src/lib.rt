//! Traces: recorded events of mutators and the collector, as text. A trace can be read, written and played. Playing
//! gives the reply lines, a report, or the pair of one flip.
#![tactic(auto)]

mod event_reader;
mod fault;
mod flips;
mod front;
mod laws;
mod line_kinds;
mod player;
mod playing;
mod reader;
mod replies;
mod report;
mod run;
mod scripts;
mod trace;
mod writer;

pub use fault::{PlayFault, TraceFault};
pub use laws::{
    pairs_are_placed_by_steps, scripts_are_commands, texts_have_one_reading, worked_report,
    worked_rows, written_is_read,
};
pub use player::{play, play_pair, play_report};
pub use reader::read_trace;
pub use report::{Report, report_of, write_report};
pub use run::run_trace;
pub use scripts::scripts_of;
pub use trace::Trace;
pub use writer::write_trace;
