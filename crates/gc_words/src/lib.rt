//! A heap of words: values and headers as words, spaces of objects back to back, images of spaces with
//! their roots, and what a certificate says of two images.
#![tactic(auto)]

mod header;
mod image;
mod laws;
mod layout;
mod marks;
mod refusal;
mod shape;
mod space;
mod value;
mod zeros;

pub use gc_graph::MOST_WORDS;
pub use header::Header;
pub use image::{ImageRef, MOST_PAIRS, MOST_ROOTS, Pair};
pub use laws::{
    certified_graphs_correspond, first_difference_is_first, first_fault_is_first,
    no_fault_where_certified, no_fault_where_shaped, objects_have_their_fields,
    raws_change_no_objects, shape_fault_is_first, words_are_read_back, worked_rows,
};
pub use layout::{field_index, lower_links};
pub use marks::{is_marked, mark};
pub use refusal::Refusal;
pub use shape::{ShapeFault, next_in, walk, walk_image};
pub use space::Space;
pub use value::{
    Addr, NewAddr, OldAddr, Value, decode, decode_wide, encode, half_of, target_of, value_in,
};
