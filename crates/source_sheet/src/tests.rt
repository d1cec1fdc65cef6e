//! Sheets of small planes, and what they tell of them.
use crate::marks::PixelMarks;
use crate::{lay_out, sources_of_sheet, sources_with_tops};
use comp_tree::{Connect, Plane, Shape, plain_tree};
use source_pick::Choice;
use std::alloc::Global;
use std::test::Fail;

const CHOICE: Choice = Choice {
    threshold: 5,
    min_area: 2,
    min_flux: 0,
    contrast: 0,
};

// A plane of eight columns and rows, 0 but for these pixels.
fn plane_with(alloc: Global, high: &[(usize, i64)]) -> Result<Plane, Fail> {
    let shape = Shape::of(8, 8).ok_or("a shape")?;
    let mut values = vec![in alloc; Some(0i64); 64]?;
    for (p, value) in high {
        if let Some(pixel) = values.get_mut(*p) {
            *pixel = Some(*value);
        }
    }
    Ok(Plane::of(alloc, shape, &values)?.ok_or("a plane")?)
}

// Marks at both sides of a word's end and at the end of all.
#[test]
fn a_mark_stands_alone(rt: HostRuntime) -> Result<(), Fail> {
    let mut marks = PixelMarks::none(rt.alloc(), 130)?;
    marks.set(63);
    marks.set(64);
    marks.set(129);
    assert!(rt; marks.has(63) && marks.has(64) && marks.has(129));
    assert!(rt; !marks.has(0) && !marks.has(62) && !marks.has(65) && !marks.has(128));
    Ok(())
}

// The pair in the third row stands in a window of four columns and three rows, and the pixel in the first row has too few around it.
#[test]
fn a_group_stands_on_the_sheet(rt: HostRuntime) -> Result<(), Fail> {
    let alloc = rt.alloc();
    let plane = plane_with(alloc, &[(0, 6), (19, 7), (20, 9)])?;
    let sheet = lay_out(&rt, alloc, &plane, Connect::Four, &CHOICE)?.ok_or("a sheet")?;
    assert_eq!(rt; sheet.plane.shape().pixels(), 12);
    assert!(rt; sheet.whole == plane.shape() && sheet.places.len() == 1);
    Ok(())
}

// With `Connect::Eight` it does so too: the pixels at the corners are copied with it.
#[test]
fn a_group_stands_with_its_corners(rt: HostRuntime) -> Result<(), Fail> {
    let alloc = rt.alloc();
    let plane = plane_with(alloc, &[(0, 6), (19, 7), (20, 9)])?;
    let sheet = lay_out(&rt, alloc, &plane, Connect::Eight, &CHOICE)?.ok_or("a sheet")?;
    assert_eq!(rt; sheet.plane.shape().pixels(), 12);
    Ok(())
}

// The windows of two pairs touch each other on the sheet, since each has the low pixels around its pair.
#[test]
fn windows_touch_on_the_sheet(rt: HostRuntime) -> Result<(), Fail> {
    let alloc = rt.alloc();
    let plane = plane_with(alloc, &[(19, 7), (20, 9), (43, 6), (44, 6)])?;
    let sheet = lay_out(&rt, alloc, &plane, Connect::Eight, &CHOICE)?.ok_or("a sheet")?;
    assert_eq!(rt; sheet.places.len(), 2);
    assert_eq!(rt; sheet.plane.shape().pixels(), 24);
    Ok(())
}

// Two pairs that share a corner are two groups, and with `Connect::Eight` one.
#[test]
fn groups_share_a_corner(rt: HostRuntime) -> Result<(), Fail> {
    let alloc = rt.alloc();
    let plane = plane_with(alloc, &[(18, 7), (19, 9), (28, 6), (29, 6)])?;
    let apart = lay_out(&rt, alloc, &plane, Connect::Four, &CHOICE)?.ok_or("a sheet")?;
    assert_eq!(rt; apart.places.len(), 2);
    let joined = lay_out(&rt, alloc, &plane, Connect::Eight, &CHOICE)?.ok_or("a sheet")?;
    assert_eq!(rt; joined.places.len(), 1);
    Ok(())
}

// A pair in the last row has no low pixels below, so that a frame goes around its window of four columns and two rows.
#[test]
fn a_window_at_an_edge_has_a_frame(rt: HostRuntime) -> Result<(), Fail> {
    let alloc = rt.alloc();
    let plane = plane_with(alloc, &[(61, 7), (62, 9)])?;
    let sheet = lay_out(&rt, alloc, &plane, Connect::Eight, &CHOICE)?.ok_or("a sheet")?;
    assert_eq!(rt; sheet.plane.shape().pixels(), 24);
    Ok(())
}

// Where most pixels are high the plane is worked on whole.
#[test]
fn a_plane_of_high_pixels_has_no_sheet(rt: HostRuntime) -> Result<(), Fail> {
    let alloc = rt.alloc();
    let shape = Shape::of(3, 1).ok_or("a shape")?;
    let plane = Plane::of(alloc, shape, &[Some(5), Some(5), None])?.ok_or("a plane")?;
    assert!(rt; lay_out(&rt, alloc, &plane, Connect::Four, &CHOICE)?.is_none());
    Ok(())
}

// The pair's row and its numbers in the map are those of the plane.
#[test]
fn a_source_is_taken_back(rt: HostRuntime) -> Result<(), Fail> {
    let alloc = rt.alloc();
    let plane = plane_with(alloc, &[(0, 6), (61, 7), (62, 9)])?;
    let Some(sheet) = lay_out(&rt, alloc, &plane, Connect::Four, &CHOICE)? else {
        return Err(Fail::from("a sheet"));
    };
    let tree = plain_tree(alloc, &sheet.plane, Connect::Four)?;
    let found = sources_of_sheet(&rt, alloc, &sheet, tree, &CHOICE, 2)?;
    let row = [1, 7, 0, 2, 16, 9, 6, 7, 8, 8, 6, 8, 6562, 8000, 250, 0, 0];
    assert!(rt; found.cells.as_slice() == row.as_slice());
    let mut map = [0; 64];
    map[61] = 1;
    map[62] = 1;
    assert!(rt; found.map.as_slice() == map.as_slice());
    Ok(())
}

// So are the rows of two pairs and the pixels that represent them, in the order of the plane. On the sheet the higher one stands first.
#[test]
fn sources_are_taken_back_with_their_tops(rt: HostRuntime) -> Result<(), Fail> {
    let alloc = rt.alloc();
    let plane = plane_with(alloc, &[(20, 7), (19, 9), (35, 6), (43, 8)])?;
    let Some(sheet) = lay_out(&rt, alloc, &plane, Connect::Four, &CHOICE)? else {
        return Err(Fail::from("a sheet"));
    };
    let tree = plain_tree(alloc, &sheet.plane, Connect::Four)?;
    let found = sources_with_tops(&rt, alloc, &sheet, tree, &CHOICE, 2)?;
    let [first, second] = found.sources.as_slice() else {
        return Err(Fail::from("two sources"));
    };
    assert!(rt; first.rep == 20 && first.row.number == 1 && first.row.flux == 16);
    assert!(rt; second.rep == 35 && second.row.number == 2 && second.row.flux == 14);
    let mut map = [0; 64];
    map[19] = 1;
    map[20] = 1;
    map[35] = 2;
    map[43] = 2;
    assert!(rt; found.map.as_slice() == map.as_slice());
    Ok(())
}
