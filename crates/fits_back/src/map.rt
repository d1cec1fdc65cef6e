//! A map of numbers at the front of bytes.
ghost use Rattle.std.specs.Prelude.{◌≡◌, ◌*◌, ◌^◌, ◌<◌, ◌++◌, ℕ, List, length, IfOk, IfSome, IfNone};
ghost use Rattle.std.specs.List.{All};
ghost use Rattle.fits_write.specs.Hdus.{map_bytes, map_hdu};

use crate::data::split_data;
use crate::front::strip_header;
use byteorder::{BigEndian, ByteOrder};
use comp_tree::Shape;
use costs::OutOfMemory;
use fits_write::map_cards;
use std::alloc::Global;

/// The numbers of a map, row by row, and what stands behind it.
#[derive(Drop)]
pub struct SplitMap<'a> {
    pub numbers: Vec<u32>,
    pub rest: &'a [u8],
}

/// Takes apart the map of this shape at the front of the bytes, if there is one.
pub fn split_map<'a>(
    alloc: Global,
    bytes: &'a [u8],
    shape: Shape,
) -> Result<Option<SplitMap<'a>>, OutOfMemory>
    ensures some { IfOk result (λ found. IfSome found (λ split.
        (bytes.now ≡ map_hdu shape split.numbers.items ++ split.rest.now) × (length split.numbers.items ≡ shape.width * shape.height))) }
    ensures none { IfOk result (λ found. IfNone found ((numbers rest : List ℕ) → length numbers ≡ shape.width * shape.height
        → All (λ n. n < 2 ^ 32) numbers → bytes.now ≡ map_hdu shape numbers ++ rest → ⊥)) }
{
    let Some(behind) = strip_header(bytes, &map_cards(shape)) else {
        return Ok(None)
    };
    let pixels = shape.pixels() as usize;
    let Some(split) = split_data(behind, 4 * pixels) else {
        return Ok(None)
    };
    match read_numbers(alloc, split.bytes, pixels) {
        Ok(numbers) => Ok(Some(SplitMap {
            numbers,
            rest: split.rest,
        })),
        Err(fault) => Err(fault),
    }
}

// The numbers whose bytes these are.
fn read_numbers(alloc: Global, bytes: &[u8], count: usize) -> Result<Vec<u32>, OutOfMemory>
    requires { length bytes.now ≡ 4 * count }
    ensures bytes { IfOk result (λ numbers. map_bytes numbers.items ≡ bytes.now) }
    ensures count { IfOk result (λ numbers. length numbers.items ≡ count) }
{
    let mut numbers = Vec::with_capacity(alloc, count)?;
    let mut rest = bytes;
    for _ in 0..count {
        let (number, behind) = rest.split_at(4);
        numbers.push(BigEndian::read_u32(number))?;
        rest = behind;
    }
    Ok(numbers)
}
