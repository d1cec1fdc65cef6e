//! The catalogue row of a source.

ghost use Rattle.std.specs.Prelude.{◌≡◌, ◌^◌, ◌<◌, ◌≤◌, pos, ◌-ℤ◌, ◌*ℤ◌, length};
ghost use Rattle.comp_tree.specs.declared.shape.Connect.{Connect};
ghost use Rattle.comp_tree.specs.Raster.{Raster};
ghost use Rattle.comp_tree.specs.Components.{tree_of};
ghost use Rattle.node_sums.specs.Sums.{sums_of, AreSumsOfNode};
ghost use Rattle.source_pick.specs.Catalogue.{catalogue_row, measured_row, cells_of, centre_of, spread_of, FitsColumns, IsCentred};
ghost use Rattle.source_pick.specs.Numbers.{IsMoment, IsMean, IsSpread, IsMeasured};

use comp_tree::Tree;
use fits_write::CELLS_IN_ROW;
use node_sums::{Sums, base, flux};

/// A row of the catalogue. Its fields are the columns, in their order; x and y count from 1, as FITS counts pixels.
#[derive(Clone, Copy, PartialEq, Eq, Debug)]
pub struct CatRow {
    /// The number of the source, from 1.
    pub number: i64,
    pub level: i64,
    pub base: i64,
    pub area: i64,
    pub flux: i64,
    /// The greatest value.
    pub peak: i64,
    pub xmin: i64,
    pub xmax: i64,
    pub ymin: i64,
    pub ymax: i64,
    /// The least pixel.
    pub xfirst: i64,
    pub yfirst: i64,
    /// The centre, weighted by value less base, in thousandths of a pixel.
    pub xcen: i64,
    pub ycen: i64,
    /// Variances and covariance of the positions, without weights, in thousandths of a square pixel.
    pub xvar: i64,
    pub yvar: i64,
    pub xycov: i64,
}

/// The catalogue row of node `n`, by its sums, as source with this number.
pub fn row(tree: &Tree, sums: &Sums, number: u32, n: u32) -> CatRow
    requires sums { AreSumsOfNode tree.now n sums.now }
    requires node { n < length tree.now.rows }
    requires from_one { 1 ≤ number }
    requires few { number ≤ 2147483647 }
    ensures exact { (plane : Raster) (connect : Connect) → tree.now ≡ tree_of plane connect
        → sums.now ≡ sums_of plane connect n → result ≡ catalogue_row plane connect number n }
    ensures columns { FitsColumns result }
    ensures centred { IsCentred result }
{
    let width = tree.shape().width;
    let level = tree.rows()[n as usize].level;
    let base = base(tree, n);
    let flux = flux(tree, sums, n);
    row_from(number, level, base, flux, width, sums)
}

// The row from a node's numbers.
fn row_from(number: u32, level: i64, base: i64, flux: i64, width: u32, s: &Sums) -> CatRow
    requires { IsMeasured number base flux width s.now }
    ensures { result ≡ measured_row number level base flux width s.now }
{
    CatRow {
        number: number as i64,
        level,
        base,
        area: s.area as i64,
        flux,
        peak: s.peak,
        xmin: s.xmin as i64,
        xmax: s.xmax as i64,
        ymin: s.ymin as i64,
        ymax: s.ymax as i64,
        xfirst: (s.first % width + 1) as i64,
        yfirst: (s.first / width + 1) as i64,
        xcen: centre(weighted(s.rx, base, s.x), s.x, flux, s.area),
        ycen: centre(weighted(s.ry, base, s.y), s.y, flux, s.area),
        xvar: spread(s.area, s.xx, s.x, s.x),
        yvar: spread(s.area, s.yy, s.y, s.y),
        xycov: spread(s.area, s.xy, s.x, s.y),
    }
}

// The sum of value less base times coordinate.
fn weighted(moment: i128, base: i64, sum: u64) -> i128
    requires { IsMoment moment base sum }
    ensures { result ≡ moment -ℤ base *ℤ pos sum }
{
    moment - base as i128 * sum as i128
}

// A coordinate of the centre, in thousandths.
fn centre(moment: i128, sum: u64, flux: i64, area: u32) -> i64
    requires { IsMean moment sum flux area 0 65535 }
    ensures { result ≡ centre_of moment sum flux area }
{
    if flux == 0 {
        return (1000 * sum / area as u64) as i64;
    }
    (1000 * moment).div_euclid(flux as i128) as i64
}

// A variance or a covariance, in thousandths.
fn spread(area: u32, products: u64, first: u64, second: u64) -> i64
    requires { IsSpread area products first second }
    ensures { result ≡ spread_of area products first second }
{
    let whole = area as u128 * products as u128;
    let apart = first as u128 * second as u128;
    let above = whole as i128 - apart as i128;
    let squared = area as u64 * area as u64;
    (1000 * above).div_euclid(squared as i128) as i64
}

/// The numbers of a row, in the order of the columns.
pub fn cells(row: &CatRow) -> [i64; CELLS_IN_ROW]
    ensures { result ≡ cells_of row.now }
{
    [
        row.number, row.level, row.base, row.area, row.flux, row.peak, row.xmin, row.xmax,
        row.ymin, row.ymax, row.xfirst, row.yfirst, row.xcen, row.ycen, row.xvar, row.yvar,
        row.xycov,
    ]
}
