//! The laws of the tables. The parts of each are the contract of a function that does nothing, and speak of the definitions alone.
ghost use Rattle.survey_core.specs.Additions.{EachAddTakesItsCatalogue, CommandsBehindFindTheCatalogues};
ghost use Rattle.survey_core.specs.Laws.{UnnamedFieldsStay, LastAddIsKept, LastDropIsKept, TablesBeforeAStopAreKept};
ghost use Rattle.survey_core.specs.Parts.{BestOfPartsAreBest};

/// After a session each field has the cells of the last catalogue that was added to it, isn't there where it was dropped since, and has what it had
/// where no command names it. A session that stops has the tables of the commands before the one that fails.
pub fn last_command_counts()
    ensures unnamed { UnnamedFieldsStay }
    ensures added { LastAddIsKept }
    ensures dropped { LastDropIsKept }
    ensures stopped { TablesBeforeAStopAreKept }
{}

/// Where catalogues stand one behind the other, as many `add` take one each, and any commands behind them find just these.
pub fn each_add_takes_its_catalogue()
    ensures taken { EachAddTakesItsCatalogue }
    ensures found { CommandsBehindFindTheCatalogues }
{}

/// The brightest rows of a survey whose fields are split over several are the brightest of what `brightest` prints of each.
pub fn brightest_of_parts()
    ensures { BestOfPartsAreBest }
{}
