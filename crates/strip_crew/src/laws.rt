//! Laws of the claims. Each is the contract of a function that does nothing, and speaks of the definitions alone.

ghost use Rattle.strip_crew.specs.Core.{CoreLaw, CoreEnds};
ghost use Rattle.strip_crew.specs.Claims.{ListedLaw, SettleLaw};

/// In any schedule: after any list of events that the machine of claims allows from its start, its rule holds, each
/// strip was claimed at most once and given back at most once, and no number past the last strip was claimed or given
/// back.
pub fn each_schedule_keeps_the_rule()
    ensures { CoreLaw }
{}

/// Where one seat has then made all claims past the end and has no strip in hand, the list has exactly one claim and
/// exactly one give-back of each strip.
pub fn each_strip_is_flooded_once()
    ensures { CoreEnds }
{}

/// While the rule of the table holds, each strip that a seat lists is home and flooded, unless that seat has it in hand: so
/// all strips that a worker lists when it ends.
pub fn each_listed_strip_is_flooded()
    ensures { ListedLaw }
{}

/// Where the rule of the table holds and one seat has made all claims past the end and has no strip in hand, the other
/// seats have claimed nothing, the words count all claims and all give-backs, the seat's list has each strip once, and
/// all jobs are home and flooded.
pub fn closed_table_is_flooded()
    ensures { SettleLaw }
{}
