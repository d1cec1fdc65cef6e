//! The level of the background at a pixel, between the numbers of the four cells whose centres lie around it.

ghost use Rattle.std.specs.Prelude.{◌≡◌, ◌+◌, ◌*◌, ◌^◌, ◌<◌, ◌≤◌, pos, ◌-ℤ◌, ◌*ℤ◌, length, All};
ghost use Rattle.comp_tree.specs.Limits.{IsInHalfRange};
ghost use Rattle.mesh_background.specs.Interpolation.{past_centre, cell_before, cell_after, part_way, interpolated};
ghost use Rattle.mesh_background.specs.Smoothing.{number_in_grid};
ghost use Rattle.mesh_background.specs.Lessened.{IsHalfRangeTimes};
ghost use Rattle.mesh_background.specs.Slopes.{in_parts, IsSmallStep};

use crate::slope::Mixed;

/// The level at the pixel in column `x` of row `y`, between the numbers of the four cells whose centres lie around it:
/// bilinear, in whole numbers, rounded towards minus infinity. `values` has one number for each cell, row by row; the
/// centre of a cell is that of a full one of `mesh` by `mesh` pixels. Where there is no cell on one side, the last one
/// is taken in its place.
pub fn level_at(values: &[i64], columns: u32, rows: u32, mesh: u32, x: u32, y: u32) -> i64
    requires some_columns { 0 < columns }
    requires some_rows { 0 < rows }
    requires one_each { length values.now ≡ columns * rows }
    requires in_range { All IsInHalfRange values.now }
    requires some { 0 < mesh }
    requires few { mesh ≤ 65535 }
    requires column { x < columns * mesh }
    requires row { y < rows * mesh }
    ensures { result ≡ interpolated values.now columns rows mesh x y }
{
    let across = Between::cells(columns, mesh, x);
    let down = Between::cells(rows, mesh, y);
    let before = down_column(values, columns, mesh, &down, across.before);
    let after = down_column(values, columns, mesh, &down, across.after);
    level_between(mesh, across.past, before, after).floor
}

// Where the centre of a pixel lies along a side: between those of two cells, `past` half pixels behind the first one's.
#[derive(Clone, Copy)]
pub(crate) struct Between {
    pub(crate) before: u32,
    pub(crate) after: u32,
    pub(crate) past: u32,
}

impl Between {
    // A side of so many cells.
    #[tactic(auto, unfolding(crate::specs::Interpolation::next_cell, crate::specs::Interpolation::past_centre))]
    pub(crate) fn cells(count: u32, mesh: u32, pixel: u32) -> Between
        requires some_cells { 0 < count }
        requires some { 0 < mesh }
        requires few { mesh ≤ 65535 }
        ensures before { result.before ≡ cell_before count mesh pixel }
        ensures after { result.after ≡ cell_after count mesh pixel }
        ensures past { result.past ≡ past_centre mesh pixel }
        ensures below { result.past < 2 * mesh }
    {
        let whole = 2 * u64::from(mesh);
        let centre = 2 * u64::from(pixel) + 1 + u64::from(mesh);
        let next = centre / whole;
        let last = u64::from(count) - 1;
        Between {
            before: (next.max(1) - 1).min(last) as u32,
            after: next.min(last) as u32,
            past: (centre % whole) as u32,
        }
    }
}

// In one column of cells the number at a pixel between two rows of cells, times twice the mesh.
pub(crate) fn down_column(
    values: &[i64],
    columns: u32,
    mesh: u32,
    down: &Between,
    column: u32,
) -> i64
    requires mesh { mesh ≤ 65535 }
    requires past { down.now.past ≤ 2 * mesh }
    requires before { down.now.before * columns + column < length values.now }
    requires after { down.now.after * columns + column < length values.now }
    requires in_range { All IsInHalfRange values.now }
    ensures value { result ≡ part_way (2 * mesh) down.now.past
        (number_in_grid values.now columns column down.now.before) (number_in_grid values.now columns column down.now.after) }
    ensures in_range { IsHalfRangeTimes (2 * mesh) result }
{
    let before = values[down.before as usize * columns as usize + column as usize];
    let after = values[down.after as usize * columns as usize + column as usize];
    on_the_way(2 * mesh, down.past, before, after)
}

// The number that lies `part` of `whole` parts of the way from `p` to `q`, times `whole`.
fn on_the_way(whole: u32, part: u32, p: i64, q: i64) -> i64
    requires whole { whole ≤ 131070 }
    requires part { part ≤ whole }
    requires first { IsInHalfRange p }
    requires second { IsInHalfRange q }
    ensures value { result ≡ part_way whole part p q }
    ensures in_range { IsHalfRangeTimes whole result }
{
    i64::from(whole - part) * p + i64::from(part) * q
}

// The level that lies `part` of twice the mesh on the way from `p` to `q`, which are such numbers of two columns of
// cells: a mixed number of `parts_of(mesh)` parts.
pub(crate) fn level_between(mesh: u32, part: u32, p: i64, q: i64) -> Mixed
    requires some { 0 < mesh }
    requires few { mesh ≤ 65535 }
    requires part { part ≤ 2 * mesh }
    requires first { IsHalfRangeTimes (2 * mesh) p }
    requires second { IsHalfRangeTimes (2 * mesh) q }
    ensures value { in_parts (2 * mesh * (2 * mesh)) result ≡ part_way (2 * mesh) part p q }
    ensures rest { result.rest < 2 * mesh * (2 * mesh) }
{
    let scaled = i128::from(2 * mesh - part) * i128::from(p) + i128::from(part) * i128::from(q);
    Mixed::of(scaled, parts_of(mesh))
}

// How much such a level rises from one pixel of a row to the next.
pub(crate) fn step_between(mesh: u32, p: i64, q: i64) -> Mixed
    requires some { 0 < mesh }
    requires few { mesh ≤ 65535 }
    requires first { IsHalfRangeTimes (2 * mesh) p }
    requires second { IsHalfRangeTimes (2 * mesh) q }
    ensures value { in_parts (2 * mesh * (2 * mesh)) result ≡ pos 2 *ℤ (q -ℤ p) }
    ensures rest { result.rest < 2 * mesh * (2 * mesh) }
    ensures small { IsSmallStep result.floor }
{
    Mixed::of(2 * (i128::from(q) - i128::from(p)), parts_of(mesh))
}

// How many parts a unit of these levels has.
pub(crate) fn parts_of(mesh: u32) -> u64
    requires some { 0 < mesh }
    requires few { mesh ≤ 65535 }
    ensures parts { result ≡ 2 * mesh * (2 * mesh) }
    ensures some { 0 < result }
    ensures few { result ≤ 2 ^ 60 }
{
    let whole = u64::from(2 * mesh);
    whole * whole
}
