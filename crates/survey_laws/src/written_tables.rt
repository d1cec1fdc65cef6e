//! Written HDUs are found again. The law is the contract of a function that does nothing but name the laws from which it follows, and speaks
//! of the definitions alone.

ghost use Rattle.survey_laws.specs.WrittenTables.{WrittenTableIsFound};

use fits_card::laws::{integer_is_read_back, logical_is_read_back, text_is_read_back};

/// The table that stands behind an empty primary HDU and a map is found as HDU 2, with its row size, its number of rows and nothing else in
/// its data, and the place where its data begin.
pub fn written_table_is_found()
    ensures { WrittenTableIsFound }
{
    logical_is_read_back();
    integer_is_read_back();
    text_is_read_back();
}
