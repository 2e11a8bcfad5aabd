//! The checker for C: decides whether a certificate holds of two heap images, as a static library.
#![tactic(auto)]

mod answer;
mod check;
mod inference;
mod path;
mod text;
mod version;

pub use check::gcflip_check;
pub use inference::gcflip_infer;
pub use path::gcflip_path;
pub use text::gcflip_check_text;
pub use version::gcflip_version;
