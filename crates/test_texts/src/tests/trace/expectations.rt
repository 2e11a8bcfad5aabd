//! Asserts of bytes and of messages. A test that calls them is shorter for the prover than one that asserts itself.

use std::alloc::Global;
use std::fmt::Display;
use std::process::Abort;
use std::test::Fail;

/// Asserts that these bytes were found, in the case of this name.
pub fn expect_bytes(rt: &impl Abort, found: &[u8], want: &[u8], case: &str) {
    assert_eq!(rt; found, want, "of {case}");
}

/// Asserts that the fault is shown by this text.
pub fn expect_text(
    rt: &impl Abort,
    alloc: Global,
    fault: &impl Display,
    text: &str,
) -> Result<(), Fail> {
    assert_eq!(rt; fault.to_string(alloc)?.as_str(), text);
    Ok(())
}
