//! The numbers of a catalogue row with those of a second image.

ghost use Rattle.std.specs.Prelude.{◌≡◌};
ghost use Rattle.dual_measure.specs.Measures.{IsSumOf};
ghost use Rattle.dual_measure.specs.Columns.{measured_cells_of};

use crate::around::mean;
use crate::values::Measure;
use fits_write::{CELLS_IN_ROW, MEASURED_CELLS_IN_ROW};
use source_pick::{CatRow, cells};

/// The numbers of a row of the catalogue, and after them SEEN, MISSING, VSUM, VLOW, VPEAK, VMEAN and VBACK. VMEAN is the
/// mean of the values seen and VBACK, which is `back`, that of the values around the node, both in thousandths and rounded
/// towards minus infinity. SEEN and MISSING of a measure from [`measures`](crate::measures) are at most 2^31 - 1.
pub fn measured_cells(row: &CatRow, measure: &Measure, back: i64) -> [i64; MEASURED_CELLS_IN_ROW]
    requires { IsSumOf measure.now.seen measure.now.v }
    ensures { result ≡ measured_cells_of row.now measure.now back }
{
    let mut all = [0; MEASURED_CELLS_IN_ROW];
    all[..CELLS_IN_ROW].copy_from_slice(&cells(row));
    all[CELLS_IN_ROW..].copy_from_slice(&[
        measure.seen as i64,
        measure.missing as i64,
        measure.v,
        measure.low,
        measure.peak,
        mean(measure.v, measure.seen),
        back,
    ]);
    all
}
