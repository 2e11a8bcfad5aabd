/// A hook before and after each call of a thread, with no lock held. Tests use it to make threads wait for each other:
/// without it, no test could show that two scripts run concurrently. Calls are counted from 0.
pub trait Gate {
    /// Returns whether the seat's thread may make its call `n`. False ends the thread.
    fn before(&self, seat: u32, n: u64) -> bool;

    /// Runs after the seat's call `n` has returned.
    fn after(&self, seat: u32, n: u64);
}
