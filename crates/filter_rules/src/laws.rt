//! Laws of the filter rules. Each is the contract of a function that does nothing, and speaks of the definitions alone.

ghost use Rattle.filter_rules.specs.Laws.{RulesAgreeOnGrowingMeasures, EachPixelHasASmallestHolder};

/// Where the criterion sets no greatest area and no fill, `Min`, `Max` and `Direct` keep the same nodes: area and flux
/// grow from a node to one around it.
pub fn rules_agree_on_growing_measures()
    ensures { RulesAgreeOnGrowingMeasures }
{}

/// Of the kept nodes that hold a defined pixel one lies within all others, and its level is what the pixel gets under all
/// rules but `Subtractive`.
#[tactic(auto, using(crate::proofs::Valued::each_pixel_has_a_smallest_holder))]
pub fn each_pixel_has_a_smallest_holder()
    ensures { EachPixelHasASmallestHolder }
{}
