//! A heap with its collector in another thread, for C: the mutator's end and the collector's end as two handles, in a static library.
#![tactic(auto)]

mod addresses;
mod answer;
mod bulk;
mod collecting;
mod commands;
mod end;
mod frame;
mod guards;
mod handle;
mod laws;
mod opening;
mod stops;

pub use addresses::{
    gcflip_beside_address, gcflip_beside_field_at, gcflip_beside_flips, gcflip_beside_moved,
    gcflip_beside_object_at, gcflip_beside_refer,
};
pub use bulk::{
    gcflip_beside_clear, gcflip_beside_copy_fields, gcflip_beside_fill, gcflip_beside_gather,
    gcflip_beside_new_from, gcflip_beside_peek, gcflip_beside_raw_read, gcflip_beside_raw_write,
    gcflip_beside_spread,
};
pub use collecting::{
    gcflip_beside_ask, gcflip_beside_finish, gcflip_beside_flip, gcflip_beside_go,
    gcflip_beside_place_roots, gcflip_beside_prepare, gcflip_beside_take, gcflip_beside_work,
};
pub use commands::{
    gcflip_beside_copy, gcflip_beside_get, gcflip_beside_look, gcflip_beside_new,
    gcflip_beside_new_pair, gcflip_beside_new_raw, gcflip_beside_put, gcflip_beside_put_nil,
    gcflip_beside_put_number, gcflip_beside_room, gcflip_beside_roots, gcflip_beside_same,
    gcflip_beside_set_nil, gcflip_beside_set_number,
};
pub use frame::{
    GcflipFrame, gcflip_beside_frame_pop, gcflip_beside_frame_push, gcflip_beside_frame_trim,
};
pub use handle::GcflipEnd;
pub use laws::{calls_reply_alike, handles_still_show};
pub use opening::{
    GcflipBesideOptions, GcflipFlipChecks, gcflip_beside_close_collector,
    gcflip_beside_close_mutator, gcflip_beside_flip_checks, gcflip_beside_open,
    gcflip_beside_open_with,
};
pub use stops::{gcflip_beside_resume, gcflip_beside_safepoint};
