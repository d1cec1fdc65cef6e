//! Laws of joining. Each is the contract of a function that does nothing, and speaks of the definitions alone.

ghost use Rattle.tree_join.specs.Groups.{GroupsStand};

/// Neighbouring groups of rows stand side by side: their links, one list after the other, are a forest that stands for what
/// both stand for together. So the strips of a plane can be flooded apart, each with no pixel of the others at hand.
pub fn groups_stand()
    ensures { GroupsStand }
{}
