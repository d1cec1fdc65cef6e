//! What decides which nodes are sources.

/// Which nodes are sources.
#[derive(Clone, Copy, PartialEq, Eq, Debug)]
pub struct Choice {
    /// The level from which on the components of threshold sets are looked at.
    pub threshold: i64,
    /// The least number of pixels.
    pub min_area: u32,
    /// The least flux.
    pub min_flux: i64,
    /// In thousandths: the least part of the flux of the whole component at the threshold that a part of it must have to
    /// count as a source of its own.
    pub contrast: u32,
}
