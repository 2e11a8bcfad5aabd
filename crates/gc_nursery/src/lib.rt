//! Minor collections of a heap with two generations: what a certificate of the young objects alone says of the whole heap.
#![tactic(auto)]

mod laws;

pub use laws::{
    base_one_is_the_present_certificate, commands_keep_heaps_standing,
    encoded_certificates_are_enough, encoded_certificates_certify_whole_heaps,
    major_collections_go_on, minor_certificates_certify_whole_heaps,
    minor_certificates_lose_nothing, worked_rows, young_objects_may_grow_old_in_place,
};
