//! Where the groups of a plane stand on its sheet: each in a window of its own, the windows on shelves, the highest ones
//! first. A window brings the low pixels beside its group with it, so that the next one may touch it; where the plane ends
//! none are beside, and pixels that stay undefined part it from others. What is laid out is checked afterwards, so that
//! nothing is said here about where it stands.

ghost use Rattle.std.specs.Prelude.{◌*◌, ◌≤◌, IfOk, IfSome};

use crate::groups::Groups;
use crate::sheet::Place;
use comp_tree::Shape;
use costs::OutOfMemory;
use std::alloc::Global;

// The longest side of an image.
const LONGEST_SIDE: u32 = 65535;

/// A sheet that is still blank: its shape, and the places of the groups, in their order.
#[derive(Drop)]
pub(crate) struct Layout {
    pub shape: Shape,
    pub places: Vec<Place>,
}

// The columns and rows that some pixels are in.
#[derive(Clone, Copy)]
struct Extent {
    left: u32,
    right: u32,
    top: u32,
    bottom: u32,
}

// A group that waits for its seat on a shelf.
#[derive(Clone, Copy)]
struct Waiting {
    height: u32,
    group: usize,
}

// The seat of a window on a shelf: its columns and rows, with those of a frame around the window that stays undefined, if it
// needs one.
#[derive(Clone, Copy)]
struct Seat {
    width: u32,
    height: u32,
    frame: u32,
}

// The shelf that is being filled: where the next seat stands on it, and how high the highest one is.
#[derive(Clone, Copy)]
struct Shelf {
    left: u32,
    top: u32,
    height: u32,
}

impl Shelf {
    // This shelf, or the next one where a seat of this width has no room on this one.
    fn with_room(self, width: u32, columns: u32) -> Shelf {
        if self.left == 0 || self.left.saturating_add(columns) <= width {
            return self;
        }
        Shelf {
            left: 0,
            top: self.top.saturating_add(self.height),
            height: 0,
        }
    }

    // The shelf behind a seat that was put on it.
    fn behind(self, seat: Seat) -> Shelf {
        Shelf {
            left: self.left.saturating_add(seat.width),
            top: self.top,
            height: self.height.max(seat.height),
        }
    }
}

// The seat of a window: with a frame where the window reaches an edge of the plane, whose shape is `whole`.
fn seat_of(whole: Shape, place: &Place) -> Seat {
    let right = place.left.saturating_add(place.shape.width);
    let bottom = place.top.saturating_add(place.shape.height);
    let is_at_edge = place.left == 0
        || place.top == 0
        || right >= whole.width
        || bottom >= whole.height;
    let frame = u32::from(is_at_edge);
    Seat {
        width: place.shape.width.saturating_add(2 * frame),
        height: place.shape.height.saturating_add(2 * frame),
        frame,
    }
}

/// Gives each group a place on a sheet. `None` where the sheet would have more than half of the pixels of the plane, whose
/// shape is `whole`.
pub(crate) fn lay_groups(
    alloc: Global,
    whole: Shape,
    groups: &Groups,
) -> Result<Option<Layout>, OutOfMemory>
    ensures { IfOk result (λ found. IfSome found
        (λ layout. layout.shape.width * layout.shape.height ≤ whole.width * whole.height)) }
{
    let Some(mut places) = windows_of(alloc, whole, groups)? else {
        return Ok(None);
    };
    let width = sheet_width(whole, &places);
    let order = by_height(alloc, whole, &places)?;
    let height = put_on_shelves(whole, width, &order, &mut places);
    match sheet_shape(whole, width, height) {
        Some(shape) => Ok(Some(Layout { shape, places })),
        None => Ok(None),
    }
}

// The windows of the groups, still at the sheet's first pixel.
fn windows_of(
    alloc: Global,
    whole: Shape,
    groups: &Groups,
) -> Result<Option<Vec<Place>>, OutOfMemory> {
    let mut places = Vec::with_capacity(alloc, groups.ends.len())?;
    let mut start = 0;
    for end in &groups.ends {
        let extent = extent_of(whole, &groups.pixels, start, *end as usize);
        let Some(place) = window_around(whole, extent) else {
            return Ok(None);
        };
        places.push(place)?;
        start = *end as usize;
    }
    Ok(Some(places))
}

// The columns and rows of the pixels in the list from `start` up to `end`.
fn extent_of(whole: Shape, pixels: &[u32], start: usize, end: usize) -> Extent {
    let mut extent = Extent {
        left: LONGEST_SIDE,
        right: 0,
        top: LONGEST_SIDE,
        bottom: 0,
    };
    for k in start..end.min(pixels.len()) {
        let column = pixels[k] % whole.width;
        let row = pixels[k] / whole.width;
        extent = Extent {
            left: extent.left.min(column),
            right: extent.right.max(column),
            top: extent.top.min(row),
            bottom: extent.bottom.max(row),
        };
    }
    extent
}

// The window of these columns and rows, with one more on each side where the plane has one. `None` for no pixel.
fn window_around(whole: Shape, extent: Extent) -> Option<Place> {
    let left = extent.left.saturating_sub(1);
    let top = extent.top.saturating_sub(1);
    let right = extent.right.saturating_add(2).min(whole.width);
    let bottom = extent.bottom.saturating_add(2).min(whole.height);
    let shape = Shape::wide(right.saturating_sub(left), bottom.saturating_sub(top))?;
    Some(Place {
        left,
        top,
        to_left: 0,
        to_top: 0,
        shape,
    })
}

// The width of the sheet: about that of a square with the area of all seats, and no less than that of the widest.
fn sheet_width(whole: Shape, places: &[Place]) -> u32 {
    let mut widest = 1;
    let mut area: u64 = 0;
    for place in places {
        let seat = seat_of(whole, place);
        widest = seat.width.max(widest);
        area = area.saturating_add(seat.width as u64 * seat.height as u64);
    }
    let side = area.isqrt().min(LONGEST_SIDE as u64) as u32;
    side.max(widest)
}

// The groups by the heights of their seats, the highest ones first.
fn by_height(alloc: Global, whole: Shape, places: &[Place]) -> Result<Vec<Waiting>, OutOfMemory> {
    let mut order = Vec::with_capacity(alloc, places.len())?;
    for (group, place) in places.iter().enumerate() {
        let height = seat_of(whole, place).height;
        order.push(Waiting { height, group })?;
    }
    order.sort_unstable_by_key(|waiting| (
        LONGEST_SIDE.saturating_sub(waiting.height),
        waiting.group,
    ));
    Ok(order)
}

// Gives each window its place on a shelf. The result is the height of all shelves.
fn put_on_shelves(whole: Shape, width: u32, order: &[Waiting], places: &mut [Place]) -> u32 {
    let mut shelf = Shelf {
        left: 0,
        top: 0,
        height: 1,
    };
    for waiting in order {
        if let Some(place) = places.get_mut(waiting.group) {
            let seat = seat_of(whole, place);
            shelf = shelf.with_room(width, seat.width);
            place.to_left = shelf.left.saturating_add(seat.frame);
            place.to_top = shelf.top.saturating_add(seat.frame);
            shelf = shelf.behind(seat);
        }
    }
    shelf.top.saturating_add(shelf.height)
}

// The shape of a sheet with these sides, unless it has more than half of the pixels of the plane.
fn sheet_shape(whole: Shape, width: u32, height: u32) -> Option<Shape>
    ensures { IfSome result (λ shape. shape.width * shape.height ≤ whole.width * whole.height) }
{
    let shape = Shape::wide(width, height)?;
    if shape.pixels() > whole.pixels() / 2 {
        return None;
    }
    Some(shape)
}
