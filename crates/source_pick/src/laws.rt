//! The law of the sources. Each part is the contract of a function that does nothing, and speaks of the definitions alone.

ghost use Rattle.source_pick.specs.Laws.{
  EntriesAreDisjoint,
  SourcesAreDisjoint,
  EachEntryHoldsASource,
  SourcesAreListed,
  SourcesAreInOrder,
};
ghost use Rattle.source_pick.specs.Windows.{
  SureSourcesAreSeen,
  SeenSourcesAreSure,
  EachSourceIsATiles,
  OwnSourcesAreTheWholes,
  OwnSourcesAreDistinct,
  TilesGiveTheCatalogue,
};
ghost use Rattle.source_pick.specs.Sheets.{
  CopiesAreParts,
  HeldPixelsHoldSources,
  SourcesAreLarge,
  SourcesStandInTheSheet,
  SourcesComeFromThePlane,
  SheetGivesTheCatalogue,
  SheetGivesTheMap,
  SheetGivesTheTops,
};
ghost use Rattle.source_pick.specs.Locality.{SourcesAreLocal, KeptIsAPlane, KeptHasTheSameSources};

/// No two entries share a pixel.
pub fn entries_are_disjoint()
    ensures { EntriesAreDisjoint }
{}

/// No two sources share a pixel, and each entry holds at least one.
pub fn sources_are_disjoint()
    ensures disjoint { SourcesAreDisjoint }
    ensures one_in_each { EachEntryHoldsASource }
{}

/// The list of the sources has each source, nothing else, and the least pixels of the sources rise in it.
pub fn sources_are_listed()
    ensures listed { SourcesAreListed }
    ensures in_order { SourcesAreInOrder }
{}

/// Two planes that have the same values at and beside the pixels of at least the threshold have the same sources: the
/// same least pixels in the same order, the same map and the same catalogue.
pub fn sources_are_local()
    ensures { SourcesAreLocal }
{}

/// So has the plane in which only the pixels of at least the threshold and their neighbours are kept.
pub fn kept_has_the_same_sources()
    ensures plane { KeptIsAPlane }
    ensures same { KeptHasTheSameSources }
{}

/// A source whose threshold component lies with its neighbours among pixels that a window shows is a source of the
/// window, and each such source of the window is one of the whole, with the same pixels and the same row, but for the
/// places.
pub fn sources_of_windows()
    ensures seen { SureSourcesAreSeen }
    ensures sure { SeenSourcesAreSure }
{}

/// So the sources of an image are those of its tiles: each is an own source of a tile, each own source of a tile is
/// one, and where the cores share no pixel it is so of one tile alone.
pub fn sources_of_tiles()
    ensures each { EachSourceIsATiles }
    ensures own { OwnSourcesAreTheWholes }
    ensures distinct { OwnSourcesAreDistinct }
    ensures catalogue { TilesGiveTheCatalogue }
{}

/// Where the pixels of at least the threshold lie in parts that stand in a sheet as they do in the plane, with all that is
/// beside them, the sources of the plane are those of the sheet, and its catalogue is the sheet's: the rows are taken back
/// to the places of the plane, in the order of the least pixels there, and numbered. The pixels that represent the sources are
/// taken back the same way.
pub fn sources_of_sheets()
    ensures parts { CopiesAreParts }
    ensures held { HeldPixelsHoldSources }
    ensures large { SourcesAreLarge }
    ensures stand { SourcesStandInTheSheet }
    ensures come { SourcesComeFromThePlane }
    ensures catalogue { SheetGivesTheCatalogue }
    ensures tops { SheetGivesTheTops }
    ensures map { SheetGivesTheMap }
{}
