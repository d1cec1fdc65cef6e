//! The grid of an image: which pixels are neighbours.

ghost use Rattle.std.specs.Prelude.{◌≡◌, ◌+◌, ◌*◌, ◌/◌, ◌%◌, ◌^◌, ◌<◌, ◌≤◌, filter, length};
ghost use Rattle.std.specs.List.{range_with_len};
ghost use Rattle.comp_tree.specs.Grid.{distance as distance_of, are_neighbours, are_linked as are_linked_at};

use crate::shape::{Connect, Shape};
use arrayvec::ArrayVec;

/// The pixels that the grid makes neighbours of `p`, in rising order: at most four, or eight with `Connect::Eight`.
/// Whether they are defined is not asked.
pub fn neighbours(shape: Shape, connect: Connect, p: u32) -> ArrayVec<u32, 8>
    requires { p < shape.width * shape.height }
    ensures { result.items ≡ filter
        (are_neighbours connect shape.width p)
        (range_with_len 0 (shape.width * shape.height)) }
{
    let y = p / shape.width;
    let first = y.saturating_sub(1);
    let end = if y + 2 < shape.height {
        y + 2
    } else {
        shape.height
    };
    let mut found = ArrayVec::new();
    for row in first..end {
        push_row(&mut found, shape, connect, p, row);
    }
    found
}

// Adds the neighbours of `p` that stand in this row. Those in the rows before it have been added.
fn push_row(found: &mut ArrayVec<u32, 8>, shape: Shape, connect: Connect, p: u32, row: u32)
    requires pixel { p < shape.width * shape.height }
    requires row_in { row < shape.height }
    requires room { length found.old.items ≤ 5 }
    requires before { found.old.items
        ≡ filter (are_neighbours connect shape.width p) (range_with_len 0 (row * shape.width)) }
    ensures after { found.new.items
        ≡ filter (are_neighbours connect shape.width p) (range_with_len 0 ((row + 1) * shape.width)) }
    ensures few { length found.new.items ≤ length found.old.items + 3 }
    ensures own_row { row ≡ p / shape.width → length found.new.items ≤ length found.old.items + 2 }
{
    let x = p % shape.width;
    let y = p / shape.width;
    let first = x.saturating_sub(1);
    let end = if x + 2 < shape.width {
        x + 2
    } else {
        shape.width
    };
    for column in first..end {
        if are_linked(connect, distance(x, column), distance(y, row)) {
            found.push(row * shape.width + column);
        }
    }
}

// How far two columns, or two rows, lie apart.
#[tactic(auto, unfolding(crate::specs::Grid::distance))]
fn distance(a: u32, b: u32) -> u32
    ensures exact { result ≡ distance_of a b }
    ensures near { result ≤ a + b }
{
    if a < b { b - a } else { a - b }
}

// Whether pixels that lie so many columns and rows apart are neighbours.
#[tactic(auto, unfolding(crate::specs::Grid::are_linked))]
fn are_linked(connect: Connect, columns: u32, rows: u32) -> bool
    requires few_columns { columns < 2 ^ 31 }
    requires few_rows { rows < 2 ^ 31 }
    ensures { result ≡ are_linked_at connect columns rows }
{
    match connect {
        Connect::Four => columns + rows == 1,
        Connect::Eight => columns.max(rows) == 1,
    }
}
