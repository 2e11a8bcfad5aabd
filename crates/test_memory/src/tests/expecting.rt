//! What a test wants. The prover takes long for the text of an assertion, so it stands here once.

use std::process::Abort;

/// Fails the test unless this holds.
pub fn expect(rt: &impl Abort, holds: bool, what: &str) {
    if !holds {
        panic!(rt; "not as expected: {what}");
    }
}
