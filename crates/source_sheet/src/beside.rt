//! Which columns and rows the neighbours of a pixel are in, told without a division.

ghost use Rattle.std.specs.Prelude.{ℕ, ◌+◌, ◌<◌, ◌≤◌, IsTrue};
ghost use Rattle.comp_tree.specs.Grid.{distance, are_linked};

use comp_tree::Connect;

/// How many columns the neighbours of a pixel are away from it at most, where it stands in row `own` and they stand in row `row`.
#[inline]
pub(crate) fn reach_in(connect: Connect, own: u32, row: u32) -> u32
    ensures few { result ≤ 1 }
    ensures near { (a b : ℕ) → IsTrue (are_linked connect (distance a b) (distance own row)) → (a ≤ b + result) × (b ≤ a + result) }
{
    match connect {
        Connect::Four => { if own == row { 1 } else { 0 } }
        Connect::Eight => 1,
    }
}

/// Where the columns, or rows, end that are at most so far from x, where there are `count`.
#[inline]
pub(crate) fn end_beside(x: u32, reach: u32, count: u32) -> u32
    requires { x < count }
    ensures inside { result ≤ count }
    ensures own { x < result }
    ensures all { (y : ℕ) → y < count → y ≤ x + reach → y < result }
{
    if reach < count - x {
        x + reach + 1
    } else {
        count
    }
}
