//! The pair text: two images and the pairs of a certificate, read and written line by line.
#![tactic(auto)]

mod fault;
mod image;
mod laws;
mod limits;
mod line_kinds;
mod pair_lines;
mod reader;
mod writer;

pub use fault::{PairFault, WriteFault};
pub use image::{Image, PairFile};
pub use laws::{texts_have_one_reading, worked_rows, written_is_read};
pub use limits::pair_fits;
pub use reader::read_pair;
pub use writer::write_pair;
