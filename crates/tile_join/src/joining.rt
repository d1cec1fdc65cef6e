//! The catalogue and the map of an image from those of its tiles.

ghost use Rattle.std.specs.Prelude.{◌≡◌, ◌*◌, ℕ, IfOk, IfErr, MatchOption, length, slice_index};
ghost use Rattle.comp_tree.specs.Raster.{Raster, IsPlane};
ghost use Rattle.tile_laws.specs.Pieces.{DetectionChoice, detected, mapped};
ghost use Rattle.tile_join.specs.Tiles.{rows_of_tiles, AreJoinable, HasJoinFault, IsStopOf};
ghost use Rattle.tile_join.specs.Joins.{joined_rows, joined_map};
ghost use Rattle.tile_join.specs.Made.{AreTilesMade};
ghost use Rattle.tile_join.specs.Marks.{AreFitting, AreKnown, AreCoresApart, AreCoresCovering};
ghost use Rattle.tile_join.specs.Places.{AreFirstsDistinct};

use crate::fault::{JoinFault, JoinStop};
use crate::laws::joined_tiles_are_the_whole;
use crate::marking::{first_gap, first_open, first_overlap, first_unfit};
use crate::placing::{first_clash, numbered, sorted_rows};
use crate::tiles::TileCatalogue;
use crate::writing::write_tiles;
use comp_tree::Shape;
use costs::OutOfMemory;
use source_pick::CatRow;
use std::alloc::Global;

/// The rows, in the order of their first pixels and numbered from 1, and for each pixel of the image the number of its source, or 0.
#[derive(Drop)]
pub struct Joined {
    pub rows: Vec<CatRow>,
    pub map: Vec<u32>,
}

/// Joins the tiles of an image of shape `whole`, in whatever order they are given. Where they were all made of one image, in windows that
/// know their cores, the answer is the catalogue and the map that detection makes of the whole image. A fault that is told is there; of
/// several the first is told, in the order of [`JoinFault`].
pub fn join(alloc: Global, whole: Shape, tiles: &[TileCatalogue]) -> Result<Joined, JoinStop>
    ensures rows { IfOk result (λ joined. joined.rows.items ≡ joined_rows whole tiles.now) }
    ensures map { IfOk result (λ joined. joined.map.items ≡ joined_map whole tiles.now) }
    ensures joinable { IfOk result (λ joined. AreJoinable whole tiles.now) }
    ensures image { IfOk result (λ joined. (d : DetectionChoice) (r : Raster) → IsPlane r → r.shape ≡ whole → AreTilesMade d r tiles.now
        → (joined.rows.items ≡ detected d r) × (joined.map.items ≡ mapped d r)) }
    ensures stop { IfErr result (IsStopOf whole tiles.now) }
{
    joined_tiles_are_the_whole();
    if let Some(fault) = first_fault(whole, tiles) {
        return Err(JoinStop::Refused(fault));
    }
    match join_fitting(alloc, whole, tiles) {
        Ok(Ok(joined)) => Ok(joined),
        Ok(Err(fault)) => Err(JoinStop::Refused(fault)),
        Err(_) => Err(JoinStop::NoMemory),
    }
}

// What is amiss with tiles one by one: the first that is no tile of the image, or else the first that has something open.
fn first_fault(whole: Shape, tiles: &[TileCatalogue]) -> Option<JoinFault>
    ensures { MatchOption result (AreFitting whole tiles.now (length tiles.now) × AreKnown tiles.now (length tiles.now)) (HasJoinFault whole tiles.now) }
{
    if let Some(tile) = first_unfit(whole, tiles) {
        return Some(JoinFault::NotOfImage { tile });
    }
    match first_open(tiles) {
        Some(tile) => Some(JoinFault::OpenComponent { tile }),
        None => None,
    }
}

// What is amiss with the cores: the first that has a pixel of an earlier one, or else the first pixel that none has.
fn core_fault(
    alloc: Global,
    whole: Shape,
    tiles: &[TileCatalogue],
) -> Result<Option<JoinFault>, OutOfMemory>
    requires fit { AreFitting whole tiles.now (length tiles.now) }
    ensures { IfOk result (λ found. MatchOption found (AreCoresApart whole tiles.now × AreCoresCovering whole tiles.now) (HasJoinFault whole tiles.now)) }
{
    let mut marks = zeros(alloc, whole)?;
    Ok(marked_fault(whole, tiles, &mut marks))
}

// The same by marks, of which none is made at first.
fn marked_fault(whole: Shape, tiles: &[TileCatalogue], marks: &mut [u32]) -> Option<JoinFault>
    requires fit { AreFitting whole tiles.now (length tiles.now) }
    requires one_each { length marks.old ≡ whole.width * whole.height }
    requires blank { (p : ℕ) → slice_index marks.old p ≡ 0 }
    ensures { MatchOption result (AreCoresApart whole tiles.now × AreCoresCovering whole tiles.now) (HasJoinFault whole tiles.now) }
{
    if let Some(tile) = first_overlap(whole, tiles, marks) {
        return Some(JoinFault::CoresOverlap { tile });
    }
    match first_gap(marks) {
        Some(pixel) => Some(JoinFault::CoreGap { pixel }),
        None => None,
    }
}

// Of tiles that fit the image and have nothing open.
fn join_fitting(
    alloc: Global,
    whole: Shape,
    tiles: &[TileCatalogue],
) -> Result<Result<Joined, JoinFault>, OutOfMemory>
    requires fit { AreFitting whole tiles.now (length tiles.now) }
    requires known { AreKnown tiles.now (length tiles.now) }
    ensures rows { IfOk result (λ answer. IfOk answer (λ joined. joined.rows.items ≡ joined_rows whole tiles.now)) }
    ensures map { IfOk result (λ answer. IfOk answer (λ joined. joined.map.items ≡ joined_map whole tiles.now)) }
    ensures joinable { IfOk result (λ answer. IfOk answer (λ joined. AreJoinable whole tiles.now)) }
    ensures fault { IfOk result (λ answer. IfErr answer (HasJoinFault whole tiles.now)) }
{
    match core_fault(alloc, whole, tiles)? {
        Some(fault) => Ok(Err(fault)),
        None => join_covering(alloc, whole, tiles, zeros(alloc, whole)?),
    }
}

// A map in which each pixel has 0.
fn zeros(alloc: Global, whole: Shape) -> Result<Vec<u32>, OutOfMemory>
    ensures one_each { IfOk result (λ map. length map.items ≡ whole.width * whole.height) }
    ensures blank { IfOk result (λ map. (p : ℕ) → slice_index map.items p ≡ 0) }
{
    Ok(vec![in alloc; 0u32; whole.pixels() as usize]?)
}

// Of tiles whose cores cover the image, besides, and a map in which each pixel has 0.
fn join_covering(
    alloc: Global,
    whole: Shape,
    tiles: &[TileCatalogue],
    mut map: Vec<u32>,
) -> Result<Result<Joined, JoinFault>, OutOfMemory>
    requires fit { AreFitting whole tiles.now (length tiles.now) }
    requires one_each { length map.items ≡ whole.width * whole.height }
    requires blank { (p : ℕ) → slice_index map.items p ≡ 0 }
    ensures rows { IfOk result (λ answer. IfOk answer (λ joined. joined.rows.items ≡ joined_rows whole tiles.now)) }
    ensures map { IfOk result (λ answer. IfOk answer (λ joined. joined.map.items ≡ joined_map whole tiles.now)) }
    ensures distinct { IfOk result (λ answer. IfOk answer (λ joined. AreFirstsDistinct whole.width (rows_of_tiles tiles.now))) }
    ensures fault { IfOk result (λ answer. IfErr answer (HasJoinFault whole tiles.now)) }
{
    let placed = sorted_rows(alloc, whole, tiles)?;
    if let Some(pixel) = first_clash(&placed) {
        return Ok(Err(JoinFault::SamePixel { pixel }));
    }
    let rows = numbered(alloc, &placed)?;
    write_tiles(alloc, whole, tiles, &placed, &mut map)?;
    Ok(Ok(Joined { rows, map }))
}
