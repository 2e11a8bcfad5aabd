//! Requests for memory of special sizes, which tell the refusing allocator how far the test has come.

use std::alloc::Global;

/// A request of this size starts or ends the counting of requests. It is never refused.
const FENCE: usize = 1_000_003;

/// A request of this size says that the call returned `NoMemory` and is about to be retried.
const RETRY: usize = 1_000_033;

/// Starts the counting before the tested call, and ends it after the call.
pub fn fence(alloc: Global) {
    request(alloc, FENCE);
}

/// Says that the call returned `NoMemory`.
pub fn retried(alloc: Global) {
    request(alloc, RETRY);
}

/// The allocator has seen the request, whatever comes of it.
fn request(alloc: Global, size: usize) {
    let room: Result<Vec<u8>, _> = Vec::with_capacity(alloc, size);
    drop(room);
}
