//! Finding the canonical pixels, shared out to threads in bands of pixels.

ghost use Rattle.std.specs.Prelude.{◌≡◌, ◌*◌, ◌<◌, ◌≤◌, length, filter, IfOk};
ghost use Rattle.comp_tree.specs.Raster.{pixels as all_pixels};
ghost use Rattle.comp_tree.specs.Forest.{IsForest};
ghost use Rattle.tree_canon.specs.Canonical.{is_canonical as is_canonical_in, canonical_between, canonical_in_band};

use crate::rows::is_canonical;
use comp_tree::Plane;
use costs::OutOfMemory;
use std::alloc::Global;
use std::thread;
use std::thread::Threads;

// The least number of pixels in a band but the last: fewer aren't worth a thread.
const LEAST_BAND: usize = 65_536;

// The canonical pixels, in the order of pixel numbers. They are looked for in at most `parts` bands; 0 counts as 1.
pub(crate) fn find_canonical<R: Threads + Sync>(
    rt: &R,
    alloc: Global,
    plane: &Plane,
    links: &[u32],
    parts: u32,
) -> Result<Vec<u32>, OutOfMemory>
    requires one_each { length links.now ≡ length plane.now.values }
    requires forest { IsForest plane.now.values 0 links.now }
    ensures { IfOk result (λ found. found.items ≡ filter (is_canonical_in plane.now links.now) (all_pixels plane.now)) }
{
    let count = plane.shape().pixels() as usize;
    let size = count.div_ceil(parts.max(1) as usize).max(LEAST_BAND);
    find_in_bands(rt, alloc, plane, links, size)
}

// The same, by bands of `size` pixels, or fewer in the last: each lists its own, in a thread where there are several, and the lists are
// then put one behind the other.
pub(crate) fn find_in_bands<R: Threads + Sync>(
    rt: &R,
    alloc: Global,
    plane: &Plane,
    links: &[u32],
    size: usize,
) -> Result<Vec<u32>, OutOfMemory>
    requires one_each { length links.now ≡ length plane.now.values }
    requires forest { IsForest plane.now.values 0 links.now }
    requires some { 0 < size }
    ensures { IfOk result (λ found. found.items ≡ filter (is_canonical_in plane.now links.now) (all_pixels plane.now)) }
{
    let count = plane.shape().pixels() as usize;
    let bands = thread::map_indices(
        rt,
        alloc,
        count.div_ceil(size),
        &|band: usize| -> Result<Vec<u32>, OutOfMemory>
            requires { (length links.now ≡ length plane.now.values)
                × IsForest plane.now.values 0 links.now
                × (0 < size)
                × (band * size < length plane.now.values) }
            ensures { IfOk result (λ found. found.items ≡ canonical_in_band plane.entry.now links.entry.now size band) }
        { find_in_band(alloc, plane, links, size, band) },
    )?;
    let mut found = Vec::new(alloc);
    for band in bands {
        let mut band = band?;
        found.append(&mut band)?;
    }
    Ok(found)
}

// The canonical pixels of a band, where each band has `size` pixels, or fewer at the end.
fn find_in_band(
    alloc: Global,
    plane: &Plane,
    links: &[u32],
    size: usize,
    band: usize,
) -> Result<Vec<u32>, OutOfMemory>
    requires one_each { length links.now ≡ length plane.now.values }
    requires forest { IsForest plane.now.values 0 links.now }
    requires some { 0 < size }
    requires inside { band * size < length plane.now.values }
    ensures { IfOk result (λ found. found.items ≡ canonical_in_band plane.now links.now size band) }
{
    let count = plane.shape().pixels() as usize;
    let first = band * size;
    let end = first + size.min(count - first);
    find_between(alloc, plane, links, first as u32, end as u32)
}

// The canonical pixels from `first` up to `end`. Each is defined, so it is enough to go from one defined pixel to the next.
fn find_between(
    alloc: Global,
    plane: &Plane,
    links: &[u32],
    first: u32,
    end: u32,
) -> Result<Vec<u32>, OutOfMemory>
    requires one_each { length links.now ≡ length plane.now.values }
    requires forest { IsForest plane.now.values 0 links.now }
    requires order { first ≤ end }
    requires inside { end ≤ length plane.now.values }
    ensures { IfOk result (λ found. found.items ≡ canonical_between plane.now links.now first end) }
{
    let mut found = Vec::new(alloc);
    let mut p = plane.next_defined(first, end);
    while p < end {
        if is_canonical(plane, links, p) {
            found.push(p)?;
        }
        p = plane.next_defined(p + 1, end);
    }
    Ok(found)
}
