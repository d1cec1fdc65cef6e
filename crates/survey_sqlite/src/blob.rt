//! Cells as bytes: 64 bits each, the most significant byte first.
ghost use Rattle.std.specs.Prelude.{◌≡◌, ◌≢◌, ◌%◌, length, IfOk, MatchOption};
ghost use Rattle.survey_sqlite.specs.Blobs.{blob_of, blob_cells, IsBlob};

use costs::OutOfMemory;
use std::alloc::Global;
use survey_core::are_numbered;

/// The bytes of the cells.
pub fn blob_of(alloc: Global, cells: &[i64]) -> Result<Vec<u8>, OutOfMemory>
    ensures bytes { IfOk result (λ blob. blob.items ≡ blob_of cells.now) }
    ensures back { IfOk result (λ blob. blob_cells blob.items ≡ cells.now) }
{
    let mut blob = Vec::new(alloc);
    for cell in cells {
        blob.extend_from_slice(&cell.to_be_bytes())?;
    }
    Ok(blob)
}

// The cells of the bytes, where these are whole cells.
fn whole_cells(alloc: Global, blob: &[u8]) -> Result<Option<Vec<i64>>, OutOfMemory>
    ensures { IfOk result (λ some. MatchOption some (length blob.now % 8 ≢ 0) (λ cells. (length blob.now % 8 ≡ 0) × (cells.items ≡ blob_cells blob.now))) }
{
    let mut cells = Vec::new(alloc);
    let mut rest = blob;
    while let Some((first, more)) = rest.split_first_chunk::<8>() {
        cells.push(i64::from_be_bytes(*first))?;
        rest = more;
    }
    if rest.is_empty() {
        Ok(Some(cells))
    } else {
        Ok(None)
    }
}

/// The cells of the bytes, where these are whole rows, each with the number of its place. Only another program writes others.
pub fn cells_in_blob(alloc: Global, blob: &[u8]) -> Result<Option<Vec<i64>>, OutOfMemory>
    ensures { IfOk result (λ some. MatchOption some (IsBlob blob.now → ⊥)
        (λ cells. IsBlob blob.now × (cells.items ≡ blob_cells blob.now))) }
{
    let Some(cells) = whole_cells(alloc, blob)? else {
        return Ok(None);
    };
    if are_numbered(&cells) {
        Ok(Some(cells))
    } else {
        Ok(None)
    }
}
