//! The law of the flux. Each part is the contract of a function that does nothing, and speaks of the definitions alone.

ghost use Rattle.node_sums.specs.Laws.{FluxGrowsWithTheComponent, FluxIsNeverNegative, FluxIsZeroAtFlatRootsAlone};

/// A node within another has at most its flux.
#[tactic(auto, using(crate::proofs::Fluxes::flux_grows))]
pub fn flux_grows_with_the_component()
    ensures { FluxGrowsWithTheComponent }
{}

/// The flux of a node is never negative, and 0 exactly at a root whose pixels all have one value.
#[tactic(auto, using(crate::proofs::Fluxes::never_negative, crate::proofs::Fluxes::zero_at_flat_roots))]
pub fn flux_is_never_negative()
    ensures never_negative { FluxIsNeverNegative }
    ensures zero { FluxIsZeroAtFlatRootsAlone }
{}
