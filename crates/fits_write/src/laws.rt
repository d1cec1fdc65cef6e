//! What a catalogue's columns add up to, and that written rows are read back. Each law is the contract of a function that does nothing, and
//! speaks of the definitions alone.

ghost use Rattle.fits_write.specs.Laws.{
  SizesAreThoseOfColumns,
  PlacesAreThoseOfColumns,
  WrittenRowIsReadBack,
  WrittenTableIsReadBack,
  TableHasItsRowsBytes,
};

/// The numbers of cells and bytes of a row are those of the columns, and the columns that are looked up stand at their places.
#[tactic(auto, unfolding(crate::specs::CatalogueColumns::catalogue_columns, crate::specs::CatalogueColumns::measured_columns))]
pub fn numbers_are_those_of_columns()
    ensures sizes { SizesAreThoseOfColumns }
    ensures places { PlacesAreThoseOfColumns }
{}

/// The bytes of cells that fit their columns say these cells: those of one row, and those of all rows of a table.
pub fn written_cells_are_read_back()
    ensures row { WrittenRowIsReadBack }
    ensures table { WrittenTableIsReadBack }
    ensures size { TableHasItsRowsBytes }
{}
