ghost use Rattle.std.specs.Prelude.{◌≤◌};

use super::*;
use crate::tests::{blank_row, compacted, is_plane_of};
use std::alloc::Global;

// Puts 5, none and -6 into a row of twelve pixels, from the second one on.
fn paint(canvas: &mut Canvas)
    requires { 9 ≤ canvas.old.most }
{
    if canvas.shape().pixels() == 12 {
        let run = [Pixel::of(Some(5)), Pixel::of(None), Pixel::of(Some(-6))];
        canvas.put_pixels(1, &run);
    }
}

// The plane that was painted so, of eight bytes a pixel, or of four where it is short.
fn painted(alloc: Global, short: bool) -> Option<Plane> {
    let mut canvas = blank_row(alloc, 12, short)?;
    paint(&mut canvas);
    Some(canvas.into_plane())
}

// The same in blocks.
fn in_blocks(alloc: Global) -> Option<Plane> {
    let plane = painted(alloc, false)?;
    compacted(alloc, &plane)
}

// Whether it has the pixels that were put into it.
fn is_painted(plane: Option<Plane>) -> bool {
    let n = None;
    is_plane_of(plane, &[n, Some(5), n, Some(-6), n, n, n, n, n, n, n, n])
}

// Whether the four pixels from the first one on are copied.
fn is_copied(plane: Option<Plane>) -> bool {
    let Some(plane) = plane else {
        return false;
    };
    if plane.shape().pixels() != 12 {
        return false;
    }
    let mut run = [Pixel::of(Some(1)); 4];
    plane.copy_pixels(0, &mut run);
    run[0].value().is_none()
        && run[1].value() == Some(5)
        && run[2].value().is_none()
        && run[3].value() == Some(-6)
}

// Whether some pixels have the levels that they are painted with, and none has more.
fn is_compared(plane: Option<Plane>) -> bool {
    let Some(plane) = plane else {
        return false;
    };
    if plane.shape().pixels() != 12 {
        return false;
    }
    plane.any_at_least(5, 0, 2)
        && !plane.any_at_least(6, 0, 12)
        && plane.any_at_least(-6, 2, 12)
        && !plane.any_at_least(-5, 2, 12)
}

// How far from 0 its values lie at the most.
fn farthest_of(plane: Option<Plane>) -> Option<u64> {
    Some(plane?.farthest())
}

#[test]
fn runs_are_put(rt: HostRuntime) {
    assert!(rt; is_painted(painted(rt.alloc(), false)));
    assert!(rt; is_painted(painted(rt.alloc(), true)));
}

#[test]
fn runs_are_copied(rt: HostRuntime) {
    assert!(rt; is_copied(painted(rt.alloc(), false)));
    assert!(rt; is_copied(painted(rt.alloc(), true)));
    assert!(rt; is_copied(in_blocks(rt.alloc())));
}

#[test]
fn runs_are_compared(rt: HostRuntime) {
    assert!(rt; is_compared(painted(rt.alloc(), false)));
    assert!(rt; is_compared(painted(rt.alloc(), true)));
    assert!(rt; is_compared(in_blocks(rt.alloc())));
}

#[test]
fn the_farthest_value_is_found(rt: HostRuntime) {
    assert_eq!(rt; farthest_of(painted(rt.alloc(), false)), Some(6));
    assert_eq!(rt; farthest_of(painted(rt.alloc(), true)), Some(6));
    assert_eq!(rt; farthest_of(in_blocks(rt.alloc())), Some(6));
}
