//! The collected heap for C: mutators' commands and collector steps on a handle, as a static library.
#![tactic(auto)]

mod answer;
mod bytes;
mod checking;
mod commands;
mod copying;
mod frame;
mod guards;
mod handle;
mod mixed;
mod moved;
mod opening;
mod pace;
mod places;
mod rare;
mod raws;
mod reading;
mod referring;
mod reply;
mod room;
mod rows;
pub mod seen;
mod slots;
mod stepping;
mod words;
mod work;

// `seen` is public as a whole: if its names stood here too, the formatter would give each name a line of its own.
pub use bytes::{
    gcflip_bytes_compare, gcflip_bytes_join, gcflip_bytes_length, gcflip_bytes_part,
    gcflip_bytes_read, gcflip_bytes_same, gcflip_bytes_write, gcflip_new_bytes,
};
pub use checking::{GcflipFlipChecks, gcflip_heap_check, gcflip_heap_flip_checks};
pub use commands::{
    gcflip_heap_get, gcflip_heap_look, gcflip_heap_move, gcflip_heap_new_from,
    gcflip_heap_new_object, gcflip_heap_new_pair, gcflip_heap_new_raw, gcflip_heap_put,
    gcflip_heap_put_nil, gcflip_heap_put_number, gcflip_heap_same, gcflip_heap_set_nil,
    gcflip_heap_set_number,
};
pub use copying::{gcflip_copy_fields, gcflip_fill, gcflip_heap_copy_fields};
pub use frame::{
    gcflip_heap_frame_pop, gcflip_heap_frame_push, gcflip_heap_frame_trim, gcflip_heap_root_clear,
    gcflip_heap_root_load, gcflip_heap_root_store,
};
pub use gc_in_c::GcflipView;
pub use handle::GcflipHeap;
pub use mixed::{GcflipField, gcflip_heap_new_with, gcflip_new_with};
pub use moved::{gcflip_heap_moved, gcflip_moved};
pub use opening::{GcflipOptions, gcflip_heap_close, gcflip_heap_open};
pub use pace::{gcflip_heap_pace, gcflip_heap_work_paced, gcflip_pace_due};
pub use places::{
    gcflip_copy, gcflip_get, gcflip_look, gcflip_new, gcflip_new_raw, gcflip_peek, gcflip_put,
    gcflip_put_nil, gcflip_put_number, gcflip_put_sure, gcflip_same, gcflip_set_nil,
    gcflip_set_number,
};
pub use raws::{
    gcflip_address, gcflip_heap_address, gcflip_heap_raw_read, gcflip_heap_raw_write,
    gcflip_raw_read, gcflip_raw_write,
};
pub use reading::{
    GcflipLogEntry, gcflip_heap_counts, gcflip_heap_image, gcflip_heap_log_entry,
    gcflip_heap_log_length, gcflip_heap_new_words,
};
pub use referring::{gcflip_field_at, gcflip_heap_refer, gcflip_object_at, gcflip_refer};
pub use room::{gcflip_collect, gcflip_release, gcflip_reserve, gcflip_room};
pub use rows::{gcflip_clear, gcflip_gather, gcflip_new_from, gcflip_new_pair, gcflip_spread};
pub use stepping::{
    GcflipStep, gcflip_heap_step_apply, gcflip_heap_step_begin, gcflip_heap_step_begin_sized,
    gcflip_heap_step_flip, gcflip_heap_step_give_up, gcflip_heap_step_roots, gcflip_heap_step_scan,
    gcflip_heap_useful,
};
pub use words::{gcflip_words_read, gcflip_words_write};
pub use work::{GcflipWork, gcflip_heap_work, gcflip_heap_work_sized};
