//! Gates: what a worker passes before it floods a strip, and what is passed before strips are joined at a row.

/// Is told of each strip that a worker has claimed, in the worker's own thread and before the strip is flooded; as the
/// gate of `join_group`, of each row before the strips above and below it are joined there. It gives no answer, so it
/// has no say in what is done; a caller can watch by it what is flooded, or joined, at one time.
pub trait Gate: Sync {
    /// A worker has claimed the strip of this number and floods it next, or strips are joined next at the row of this
    /// number.
    fn enter(&self, strip: u32);
}

/// The gate that does nothing.
#[derive(Clone, Copy, Drop)]
pub struct OpenGate;

impl Gate for OpenGate {
    fn enter(&self, _strip: u32) {}
}
