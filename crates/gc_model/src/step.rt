/// A step of the collector.
#[derive(Clone, Copy, Debug, PartialEq, Eq)]
pub enum Step {
    /// Opens a collection whose new space is as large as the mutators' space.
    Begin,
    /// Opens a collection whose new space has this many words.
    BeginSized(u32),
    /// Replicates the target of the first root whose target has no replica.
    Roots,
    /// Brings the field at the scan pointer up to date, or moves on to the next replica.
    Scan,
    /// Removes the oldest entry of this mutator's log, and brings its field up to date if its object has a replica.
    Apply(u8),
    /// Switches the mutators to the new space, if the collection is ready and the checker accepts its certificate.
    Flip,
    /// Ends the collection without a flip, and frees the new space.
    Drop,
}

impl Step {
    ghost use Rattle.std.specs.Prelude.{◌↔◌, IsTrue};
    ghost use Rattle.gc_model.specs.Runs.{IsStepWithin};

    /// Returns whether the step's argument is in range: the size of a space of at most `most` words, or the number of one of
    /// `mutators` logs.
    #[inline(always)]
    pub fn is_within(self, most: u32, mutators: u8) -> bool
        ensures { IsTrue result ↔ IsStepWithin most mutators self }
    {
        match self {
            Step::BeginSized(size) => 1 <= size && size <= most,
            Step::Apply(m) => m < mutators,
            _ => true,
        }
    }
}

/// The reply to a step. Only steps with the replies `Begun`, `Copied`, `Passed`, `Scanned`, `Applied`, `Flipped` and `Dropped`
/// change anything.
#[derive(Clone, Copy, Debug, PartialEq, Eq)]
pub enum StepReply {
    /// A collection is already open.
    Busy,
    /// A collection is open now.
    Begun,
    /// No collection is open.
    Idle,
    /// Nothing is left to do for this step.
    Clean,
    /// The new space has no room for a replica that the step needs.
    NoRoom,
    /// A root's target has a replica now.
    Copied,
    /// A replica is scanned, and the scan pointer has moved past it.
    Passed,
    /// One field was scanned.
    Scanned,
    /// One log entry was applied.
    Applied,
    /// A log has an entry, a field is not yet scanned, or a root's target has no replica.
    NotReady,
    /// The checker refused the certificate.
    Refused,
    /// The new space has replaced the old one, with this many pairs in the certificate.
    Flipped { pairs: u32 },
    /// The new space and all logs are freed.
    Dropped,
}
