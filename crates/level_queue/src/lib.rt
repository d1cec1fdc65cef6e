//! A hierarchical queue: one first-in-first-out list of items for each rank, and the highest rank in use at hand.
//! It is what a max-tree is flooded with (Salembier, Oliveras and Garrido 1998): the items are the pixels of an image, and
//! the ranks its distinct values in rising order. Flooding asks for the highest rank at every step, so the queue is kept in
//! raw arrays and takes no memory once it is made.
#![tactic(auto)]

mod block;
mod queue;
mod rank_set;
mod raw_array;
mod words;

// A crate can name a queue in a contract only if the types of its fields are exported.
#[doc(hidden)]
pub use block::Places;
#[doc(hidden)]
pub use queue::Ends;
pub use queue::LevelQueue;
#[doc(hidden)]
pub use rank_set::RankSet;
#[doc(hidden)]
pub use raw_array::RawArray;
#[doc(hidden)]
pub use words::Words;

#[cfg(test)]
mod tests;
