//! Bytes say which HDU they are. Each law is the contract of a function that does nothing but name the laws from which it follows, and
//! speaks of the definitions alone.

ghost use Rattle.fits_back.specs.Laws.{TablesAreToldApart, MapsAreToldApart};

use fits_card::laws::integer_is_read_back;
use fits_write::laws::written_cells_are_read_back;

/// Tables of one name and the same columns that have the same bytes have the same cells, and the same stands behind them.
pub fn tables_are_told_apart()
    ensures { TablesAreToldApart }
{
    integer_is_read_back();
    written_cells_are_read_back();
}

/// Maps of one shape that have the same bytes have the same numbers, and the same stands behind them.
pub fn maps_are_told_apart()
    ensures { MapsAreToldApart }
{}
