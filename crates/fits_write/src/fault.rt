//! The one answer beside `Ok`.

/// A sink failed: what it was given is a front of what was to be written.
#[derive(Clone, Copy, Debug, PartialEq, Eq)]
pub struct WriteFault;
