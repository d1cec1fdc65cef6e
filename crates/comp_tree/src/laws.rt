//! Laws of the component tree (Salembier, Oliveras and Garrido 1998). Each is the contract of a function that does nothing,
//! and speaks of the definitions alone: no code of this crate stands in it.

ghost use Rattle.comp_tree.specs.Laws.{
  ReachIsByPaths,
  EachComponentIsANode,
  EachNodeIsAComponent,
  NodesAreDistinct,
  NodesAreNestedOrDisjoint,
  LiesWithinIsInclusion,
  AncestorsAreTheLargerNodes,
  ParentIsTheSmallestLargerNode,
  RootsHaveNoLargerNode,
  CandidatesOfOneLevelHaveOneNode,
  PixelsBelongToTheirAncestors,
  EachWalkHasOneLast,
  LastAtOwnLevelIsRepresentative,
};
ghost use Rattle.comp_tree.specs.TreeFacts.{EachPlaneHasOneTree};
ghost use Rattle.comp_tree.specs.Windows.{WindowShowsItsPixels, SureComponentsAreSeen, SureComponentsAreTheSame, DeepComponentsLieSure};

/// The test whether a pixel is reached from another passes exactly where a path leads there.
#[tactic(auto, using(crate::proofs::Components::reach_is_by_paths))]
pub fn reach_is_by_paths()
    ensures { ReachIsByPaths }
{}

/// The component tree of a plane has the properties that define one, and no other tree has them.
pub fn each_plane_has_one_tree()
    ensures { EachPlaneHasOneTree }
{}

/// The nodes are exactly the distinct connected components of all threshold sets: each such component is that of a node,
/// each node's is one at its own level, and no two nodes have the same.
pub fn nodes_are_components()
    ensures each_component { EachComponentIsANode }
    ensures each_node { EachNodeIsAComponent }
    ensures distinct { NodesAreDistinct }
{}

/// Two components of nodes are nested or disjoint.
pub fn nodes_are_nested_or_disjoint()
    ensures { NodesAreNestedOrDisjoint }
{}

/// The test whether a node lies within another passes exactly where its component does.
pub fn lies_within_is_inclusion()
    ensures { LiesWithinIsInclusion }
{}

/// The component of a node lies strictly within those of the nodes on its way upwards, and of no others.
pub fn ancestors_are_larger()
    ensures { AncestorsAreTheLargerNodes }
{}

/// The parent of a node is the node with the smallest strictly larger component, and a root has none.
pub fn parent_is_smallest_larger()
    ensures parent { ParentIsTheSmallestLargerNode }
    ensures root { RootsHaveNoLargerNode }
{}

/// The pixels of the greatest lower value from which a pixel is reached all belong to one node: its parent.
#[tactic(auto, using(crate::proofs::Ancestors::candidates_of_one_level_have_one_node))]
pub fn greatest_candidates_have_one_node()
    ensures { CandidatesOfOneLevelHaveOneNode }
{}

/// A pixel belongs to the components of its node and of the nodes on the way upwards from it, and of no others.
pub fn pixels_belong_to_ancestors()
    ensures { PixelsBelongToTheirAncestors }
{}

/// In a forest of links each walk has exactly one last ancestor at each level that its first pixel has at least.
#[tactic(auto, using(crate::proofs::Canonical::each_walk_has_one_last))]
pub fn walks_have_one_last()
    ensures { EachWalkHasOneLast }
{}

/// Where a forest stands for all adjacencies of a plane, the last ancestor of a pixel at its own level is its representative.
pub fn last_is_representative()
    ensures { LastAtOwnLevelIsRepresentative }
{}

/// A component that lies with its neighbours among the pixels that a window shows is the same in the window and in the whole
/// plane, and whether one lies so can be told from either. The plane that is seen through a window shows all its pixels, and
/// a component deep in a box of such pixels lies so.
pub fn sure_components_are_the_same()
    ensures window { WindowShowsItsPixels }
    ensures seen { SureComponentsAreSeen }
    ensures same { SureComponentsAreTheSame }
    ensures deep { DeepComponentsLieSure }
{}
