//! The map of the whole from the maps of the tiles.

ghost use Rattle.std.specs.Prelude.{◌≡◌, ◌+◌, ◌*◌, ◌<◌, ◌≤◌, ℕ, IfOk, OnOk, length, slice_index};
ghost use Rattle.comp_tree.specs.Windows.{IsInside};
ghost use Rattle.tile_join.specs.Tiles.{window_of};
ghost use Rattle.tile_join.specs.Joins.{rows_in_order};
ghost use Rattle.tile_join.specs.Marks.{AreFitting};
ghost use Rattle.tile_join.specs.Places.{HasFirstIn, HaveFirstsIn, HaveNumbersUpTo, ArePlacedInOrder, rows_of_placed, number_among, number_named, HasTable, number_or, number_given, AreJoinedNumbers};

use crate::marking::in_whole;
use crate::placing::{PlacedRow, first_pixel};
use crate::tiles::TileCatalogue;
use comp_tree::Shape;
use costs::OutOfMemory;
use source_pick::CatRow;
use std::alloc::Global;

// Writes the numbers of all tiles into the map, in which each pixel has 0.
pub(crate) fn write_tiles(
    alloc: Global,
    whole: Shape,
    tiles: &[TileCatalogue],
    placed: &[PlacedRow],
    map: &mut [u32],
) -> Result<(), OutOfMemory>
    requires fit { AreFitting whole tiles.now (length tiles.now) }
    requires order { ArePlacedInOrder whole placed.now }
    requires rows { rows_of_placed placed.now ≡ rows_in_order whole tiles.now }
    requires one_each { length map.old ≡ whole.width * whole.height }
    requires blank { (p : ℕ) → slice_index map.old p ≡ 0 }
    ensures { OnOk result (AreJoinedNumbers whole tiles.now tiles.now map.new) }
{
    for tile in tiles {
        let table = numbers_of(alloc, whole, tile, placed)?;
        write_numbers(whole, tile, &table, map);
    }
    Ok(())
}

// For each number of the tile's own map the number of its row among all rows, and 0 where the tile has no such row.
fn numbers_of(
    alloc: Global,
    whole: Shape,
    tile: &TileCatalogue,
    placed: &[PlacedRow],
) -> Result<Vec<u32>, OutOfMemory>
    requires firsts { HaveFirstsIn whole tile.now.rows.items }
    requires numbers { HaveNumbersUpTo 2147483647 tile.now.rows.items }
    requires order { ArePlacedInOrder whole placed.now }
    ensures { IfOk result (λ table. HasTable whole.width (rows_of_placed placed.now) tile.now table.items) }
{
    let greatest = greatest_number(&tile.rows);
    let mut table = vec![in alloc; 0u32; greatest + 1]?;
    fill_table(whole, &tile.rows, placed, &mut table);
    Ok(table)
}

// The greatest number of a row.
fn greatest_number(rows: &[CatRow]) -> usize
    requires { HaveNumbersUpTo 2147483647 rows.now }
    ensures all { HaveNumbersUpTo result rows.now }
    ensures few { result ≤ 2147483647 }
{
    let mut greatest = 0;
    for row in rows {
        greatest = larger(greatest, row.number as usize);
    }
    greatest
}

// The larger one of two numbers.
fn larger(one: usize, other: usize) -> usize
    ensures first { one ≤ result }
    ensures second { other ≤ result }
    ensures few { (most : ℕ) → one ≤ most → other ≤ most → result ≤ most }
{
    if one < other { other } else { one }
}

// Writes the numbers of the rows into the table, in which each has 0. Of rows with one number the first is written last.
fn fill_table(whole: Shape, rows: &[CatRow], placed: &[PlacedRow], table: &mut [u32])
    requires firsts { HaveFirstsIn whole rows.now }
    requires numbers { (greatest : ℕ) × (greatest < length table.old) × (greatest ≤ 2147483647) × HaveNumbersUpTo greatest rows.now }
    requires order { ArePlacedInOrder whole placed.now }
    requires blank { (n : ℕ) → slice_index table.old n ≡ 0 }
    ensures { (n : ℕ) → slice_index table.new n ≡ number_named whole.width (rows_of_placed placed.now) rows.now n }
{
    for k in (0..rows.len()).rev() {
        let row = &rows[k];
        let number = number_among(whole, row, placed);
        table[row.number as usize] = number;
    }
}

// The number of a row: its place, from 1, among the rows in the order of their first pixels.
fn number_among(whole: Shape, row: &CatRow, placed: &[PlacedRow]) -> u32
    requires first { HasFirstIn whole row.now }
    requires order { ArePlacedInOrder whole placed.now }
    ensures { result ≡ number_among whole.width (rows_of_placed placed.now) row.now }
{
    match placed.binary_search_by_key(&first_pixel(whole, row), |one| one.first) {
        Ok(place) => place as u32 + 1,
        Err(_) => 0,
    }
}

// Writes what the tile's map gives, where no tile before gave a number.
fn write_numbers(whole: Shape, tile: &TileCatalogue, table: &[u32], map: &mut [u32])
    requires inside { IsInside whole (window_of tile.now.window) }
    requires window { length tile.now.map.items ≡ tile.now.window.shape.width * tile.now.window.shape.height }
    requires one_each { length map.old ≡ whole.width * whole.height }
    ensures { (p : ℕ) → slice_index map.new p ≡ number_or (slice_index map.old p) (number_given whole.width tile.now table.now p) }
{
    for q in 0..tile.window.shape.pixels() {
        let number = number_at(tile, table, q);
        let p = in_whole(whole, &tile.window, q) as usize;
        map[p] = number_or(map[p], number);
    }
}

// A number that isn't 0, or else the other one.
fn number_or(number: u32, other: u32) -> u32
    ensures { result ≡ number_or number other }
{
    if number == 0 { other } else { number }
}

// The number of the row that the tile's map names at pixel `q` of its window, and 0 where there is none.
fn number_at(tile: &TileCatalogue, table: &[u32], q: u32) -> u32
    requires { q < length tile.now.map.items }
    ensures { result ≡ slice_index table.now (slice_index tile.now.map.items q) }
{
    let own = tile.map[q as usize] as usize;
    if own < table.len() { table[own] } else { 0 }
}
