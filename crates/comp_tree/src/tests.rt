ghost use Rattle.std.specs.Prelude.{◌≡◌, ◌^◌, ◌<◌, ◌≤◌, IfSome};
ghost use Rattle.comp_tree.specs.Limits.{IsWithin};
ghost use Rattle.comp_tree.specs.Raster.{HasValuesWithin};
ghost use Rattle.comp_tree.specs.Windows.{Window, in_whole};

use super::*;
use costs::OutOfMemory;
use std::alloc::Global;
use std::thread::Threads;

// The values that digits stand for. Any other sign is an undefined pixel.
fn values_of(alloc: Global, signs: &[u8]) -> Result<Vec<Option<i64>>, OutOfMemory> {
    let mut values = Vec::with_capacity(alloc, signs.len())?;
    for sign in signs {
        values.push(value_of(*sign))?;
    }
    Ok(values)
}

fn value_of(sign: u8) -> Option<i64> {
    match sign {
        b'0'..=b'9' => Some((sign - b'0') as i64),
        _ => None,
    }
}

// The plane of these digits, row by row.
fn plane_of(alloc: Global, width: u32, height: u32, signs: &[u8]) -> Option<Plane> {
    let values = values_of(alloc, signs).ok()?;
    plane_of_values(alloc, width, height, &values)
}

// The plane of these values, row by row.
fn plane_of_values(
    alloc: Global,
    width: u32,
    height: u32,
    values: &[Option<i64>],
) -> Option<Plane> {
    let shape = Shape::of(width, height)?;
    Plane::of(alloc, shape, values).ok()?
}

// Whether a plane has these values, row by row.
fn has_values(plane: &Plane, wanted: &[Option<i64>]) -> bool {
    let count = plane.shape().pixels();
    if count as usize != wanted.len() {
        return false;
    }
    for p in 0..count {
        if plane.get(p) != wanted[p as usize] {
            return false;
        }
    }
    true
}

// Whether the plane of these values, of two pixels in a row, has just them. None where there is no such plane.
fn keeps(alloc: Global, values: &[Option<i64>]) -> Result<Option<bool>, OutOfMemory> {
    let Some(shape) = Shape::of(2, 1) else {
        return Ok(None);
    };
    match Plane::of(alloc, shape, values)? {
        Some(plane) => Ok(Some(has_values(&plane, values))),
        None => Ok(None),
    }
}

// Whether the plane of these values has just them.
fn are_kept(alloc: Global, values: &[Option<i64>]) -> bool {
    matches!(keeps(alloc, values), Ok(Some(true)))
}

// Whether there is no plane of these values.
fn are_refused(alloc: Global, values: &[Option<i64>]) -> bool {
    matches!(keeps(alloc, values), Ok(None))
}

// The largest value.
const MOST: i64 = 1 << 37;

#[test]
fn planes_of_values(rt: HostRuntime) {
    assert!(rt; are_kept(rt.alloc(), &[Some(-7), None]));
    assert!(rt; are_kept(rt.alloc(), &[Some(MOST), Some(-MOST)]));
}

// What makes no plane: too few values, and one behind each bound of the range.
#[test]
fn values_of_no_plane(rt: HostRuntime) {
    assert!(rt; are_refused(rt.alloc(), &[Some(0)]));
    assert!(rt; are_refused(rt.alloc(), &[Some(0), Some(MOST + 1)]));
    assert!(rt; are_refused(rt.alloc(), &[Some(-MOST - 1), Some(0)]));
}

// A blank row for all values, or, where it is short, for those from -9 to 9.
pub(crate) fn blank_row(alloc: Global, width: u32, short: bool) -> Option<Canvas>
    ensures { IfSome result (λ canvas. 9 ≤ canvas.most) }
{
    let shape = Shape::of(width, 1)?;
    if !short {
        return match Canvas::blank(alloc, shape) {
            Ok(canvas) => Some(canvas),
            Err(_) => None,
        };
    }
    match Canvas::blank_within(alloc, shape, 9) {
        Ok(canvas) => Some(canvas),
        Err(_) => None,
    }
}

// Paints two of three pixels, and one of these once more.
fn paint_two(canvas: &mut Canvas)
    requires { 9 ≤ canvas.old.most }
{
    if canvas.shape().pixels() == 3 {
        canvas.set(0, Some(5));
        canvas.set(2, Some(-6));
        canvas.set(0, None);
    }
}

// A plane of three pixels that were painted so.
fn painted(alloc: Global, short: bool) -> Option<Plane> {
    let mut canvas = blank_row(alloc, 3, short)?;
    paint_two(&mut canvas);
    Some(canvas.into_plane())
}

// Whether there is a plane, and it has these values, row by row.
pub(crate) fn is_plane_of(plane: Option<Plane>, wanted: &[Option<i64>]) -> bool {
    match plane {
        Some(plane) => has_values(&plane, wanted),
        None => false,
    }
}

// A canvas becomes the plane that was painted on it.
#[test]
fn a_canvas_is_painted(rt: HostRuntime) {
    assert!(rt; is_plane_of(painted(rt.alloc(), false), &[None, None, Some(-6)]));
    assert!(rt; is_plane_of(painted(rt.alloc(), true), &[None, None, Some(-6)]));
}

// Paints some of 70 pixels: two in a block of their own, and the last.
fn paint_few(canvas: &mut Canvas)
    requires { 9 ≤ canvas.old.most }
{
    if canvas.shape().pixels() == 70 {
        canvas.set(32, Some(7));
        canvas.set(37, Some(8));
        canvas.set(69, Some(-9));
    }
}

// A plane of 70 pixels, of which these are defined.
fn plane_of_few(alloc: Global, short: bool) -> Option<Plane> {
    let mut canvas = blank_row(alloc, 70, short)?;
    paint_few(&mut canvas);
    Some(canvas.into_plane())
}

// A copy of a plane, kept in less memory where few pixels are defined.
pub(crate) fn compacted(alloc: Global, plane: &Plane) -> Option<Plane> {
    let mut copy = plane.copied(alloc).ok()?;
    match copy.compact(alloc) {
        Ok(()) => Some(copy),
        Err(_) => None,
    }
}

// The plane of few pixels, kept in less memory.
fn compact_plane_of_few(alloc: Global, short: bool) -> Option<Plane> {
    let plane = plane_of_few(alloc, short)?;
    compacted(alloc, &plane)
}

// Whether both planes have the same pixels.
fn are_alike(plane: &Plane, other: &Plane) -> bool {
    let shape = plane.shape();
    if other.shape() != shape {
        return false;
    }
    for p in 0..shape.pixels() {
        if plane.get(p) != other.get(p) {
            return false;
        }
    }
    true
}

// The sum of the defined pixels' numbers, and of their places.
fn sums_of_defined(plane: &Plane) -> (u32, i64) {
    let end = plane.shape().pixels();
    let mut sums = (0u32, 0i64);
    let mut p = plane.next_defined(0, end);
    while p < end {
        sums = (sums.0.wrapping_add(p), sums.1.wrapping_add(plane.level(p)));
        p = plane.next_defined(p + 1, end);
    }
    sums
}

// Whether a plane that is kept in less memory has the same pixels as the first one.
fn is_compact_alike(alloc: Global, plane: &Plane, first: &Plane) -> bool {
    match compacted(alloc, plane) {
        Some(copy) => are_alike(&copy, first),
        None => false,
    }
}

// Whether the plane keeps its pixels in less memory, also once more and in a copy.
fn stays_alike(alloc: Global, first: &Plane) -> bool {
    match compacted(alloc, first) {
        Some(plane) => are_alike(&plane, first) && is_compact_alike(alloc, &plane, first),
        None => false,
    }
}

// Whether there is a plane, and it does.
fn is_kept_alike(alloc: Global, first: Option<Plane>) -> bool {
    match first {
        Some(first) => stays_alike(alloc, &first),
        None => false,
    }
}

// Where few pixels are defined, a plane that is kept in less memory has the same ones.
#[test]
fn a_compact_plane_is_the_same(rt: HostRuntime) {
    assert!(rt; is_kept_alike(rt.alloc(), plane_of_few(rt.alloc(), false)));
    assert!(rt; is_kept_alike(rt.alloc(), plane_of_few(rt.alloc(), true)));
}

// Where many are defined, it stays as it is.
#[test]
fn a_full_plane_stays(rt: HostRuntime) {
    assert!(rt; is_kept_alike(rt.alloc(), plane_of(rt.alloc(), 2, 2, b"43.1")));
}

// Makes one of the few pixels undefined, and one that is so.
fn change_two(plane: &mut Plane) {
    if plane.shape().pixels() == 70 {
        plane.clear(38);
        plane.clear(69);
    }
}

// The compact plane of few pixels after that.
fn changed_plane(alloc: Global, short: bool) -> Option<Plane> {
    let mut plane = compact_plane_of_few(alloc, short)?;
    change_two(&mut plane);
    Some(plane)
}

// Whether there is a plane, and its sums are these.
fn has_sums(plane: Option<Plane>, numbers: u32, values: i64) -> bool {
    match plane {
        Some(plane) => sums_of_defined(&plane) == (numbers, values),
        None => false,
    }
}

// Its pixels can be made undefined.
#[test]
fn a_compact_plane_is_changed(rt: HostRuntime) {
    assert!(rt; has_sums(changed_plane(rt.alloc(), false), 69, 15));
    assert!(rt; has_sums(changed_plane(rt.alloc(), true), 69, 15));
}

// One finds the defined pixels one after the other, with each pixel kept as in blocks.
#[test]
fn defined_pixels_are_found(rt: HostRuntime) {
    assert!(rt; has_sums(plane_of_few(rt.alloc(), false), 138, 6));
    assert!(rt; has_sums(plane_of_few(rt.alloc(), true), 138, 6));
    assert!(rt; has_sums(compact_plane_of_few(rt.alloc(), false), 138, 6));
}

fn marked_plane(alloc: Global, plane: &Plane, marks: &[bool]) -> Option<Plane> {
    if plane.shape().pixels() as usize != marks.len() {
        return None;
    }
    plane.marked(alloc, marks).ok()
}

// Marks of 70 pixels, of which two are marked.
fn two_marks(alloc: Global) -> Option<Vec<bool>> {
    let mut marks = vec![in alloc; false; 70].ok()?;
    marks[36] = true;
    marks[37] = true;
    Some(marks)
}

// The plane of few pixels, with these marks.
fn marked_plane_of_few(alloc: Global, short: bool, marks: &[bool]) -> Option<Plane> {
    let plane = plane_of_few(alloc, short)?;
    marked_plane(alloc, &plane, marks)
}

// The same with the two marks.
fn part_of_few(alloc: Global, short: bool) -> Option<Plane> {
    let marks = two_marks(alloc)?;
    marked_plane_of_few(alloc, short, &marks)
}

// A plane of three pixels, with the first and the last marked.
fn part_of_full(alloc: Global) -> Option<Plane> {
    let full = plane_of(alloc, 3, 1, b"431")?;
    marked_plane(alloc, &full, &[true, false, true])
}

// Of the marked pixels a second plane is made, in blocks where they are few, and with each pixel kept where they are many.
#[test]
fn marked_pixels_stay(rt: HostRuntime) {
    assert!(rt; has_sums(part_of_few(rt.alloc(), false), 37, 8));
    assert!(rt; has_sums(part_of_few(rt.alloc(), true), 37, 8));
    assert!(rt; has_sums(part_of_full(rt.alloc()), 2, 5));
}

// A defined pixel with this number in place of its value, or an undefined one.
fn numbered(pixel: Pixel, number: usize) -> Pixel
    requires { number < 2 ^ 24 }
    ensures { IfSome result (λ v. IsWithin (2 ^ 24) v) }
{
    match pixel.value() {
        Some(_) => Pixel::of(Some(number as i64)),
        None => pixel,
    }
}

// Gives the defined pixels of a band the number of its first one. All values are from -most to most, before and afterwards.
fn number_band(start: usize, _most: u64, band: &mut [Pixel])
    requires few { start < 2 ^ 24 }
    requires room { 2 ^ 24 ≤ _most }
    requires within { HasValuesWithin _most band.old }
    ensures { HasValuesWithin _most band.new }
{
    for k in 0..band.len() {
        band[k] = numbered(band[k], start);
    }
}

// Does so with each band of this size, if the plane has no other values.
fn number_bands<R: Threads + Sync>(
    rt: &R,
    alloc: Global,
    plane: &mut Plane,
    size: u32,
    most: u64,
) -> Result<(), OutOfMemory>
    requires some { 0 < size }
    requires room { 2 ^ 24 ≤ most }
    requires bounded { most ≤ 2 ^ 37 }
{
    // so few that values may be up to 2^37, and that the first of each band is a value
    let count = plane.shape().pixels();
    if count > 1 << 24 || plane.most() > most {
        return Ok(());
    }
    plane.change_bands(
        rt,
        alloc,
        size,
        most,
        &|start: usize, band: &mut [Pixel]|
            requires { (start < 2 ^ 24) × HasValuesWithin most band.now × (2 ^ 24 ≤ most) }
            ensures { HasValuesWithin most band.exit.now }
        { number_band(start, most, band) },
    )
}

// A plane after that, if there is one.
fn in_bands<R: Threads + Sync>(
    rt: &R,
    alloc: Global,
    plane: Option<Plane>,
    size: u32,
    most: u64,
) -> Option<Plane>
    requires some { 0 < size }
    requires room { 2 ^ 24 ≤ most }
    requires bounded { most ≤ 2 ^ 37 }
{
    let mut plane = plane?;
    match number_bands(rt, alloc, &mut plane, size, most) {
        Ok(()) => Some(plane),
        Err(_) => None,
    }
}

// A plane of six pixels in bands of three.
fn in_threes<R: Threads + Sync>(rt: &R, alloc: Global) -> Option<Plane> {
    in_bands(rt, alloc, plane_of(alloc, 3, 2, b"5.6507"), 3, 1 << 37)
}

// Bands of three pixels are all, and of four the last is shorter.
#[test]
fn pixels_are_changed_in_bands(rt: HostRuntime) {
    assert!(rt; has_sums(in_threes(&rt, rt.alloc()), 14, 9));
    let fours = in_bands(&rt, rt.alloc(), in_threes(&rt, rt.alloc()), 4, 1 << 37);
    assert!(rt; has_sums(fours, 14, 8));
}

// A plane in blocks is changed as well.
#[test]
fn pixels_in_blocks_are_changed(rt: HostRuntime) {
    let plane = in_bands(
        &rt,
        rt.alloc(),
        compact_plane_of_few(rt.alloc(), false),
        32,
        1 << 37,
    );
    assert!(rt; has_sums(plane, 138, 128));
}

// So is a short one, which stays short where the values that are left are small, and else is made wide.
#[test]
fn short_pixels_are_changed(rt: HostRuntime) {
    let short = in_bands(&rt, rt.alloc(), plane_of_few(rt.alloc(), true), 32, 1 << 30);
    assert!(rt; has_sums(short, 138, 128));
    let wide = in_bands(&rt, rt.alloc(), plane_of_few(rt.alloc(), true), 32, 1 << 37);
    assert!(rt; has_sums(wide, 138, 128));
}

#[derive(Clone, Copy)]
struct Case<'a> {
    width: u32,
    height: u32,
    connect: Connect,
    values: &'a [u8],
    // level, representative and parent of each node
    rows: &'a [(i64, u32, u32)],
    node_of: &'a [u32],
}

// Whether these are the nodes.
fn has_rows(rows: &[NodeRow], wanted: &[(i64, u32, u32)]) -> bool {
    if rows.len() != wanted.len() {
        return false;
    }
    for k in 0..rows.len() {
        let row = rows[k];
        if (row.level, row.rep, row.parent) != wanted[k] {
            return false;
        }
    }
    true
}

// Whether the tree of a plane is the one that is wanted.
fn is_wanted(tree: &Tree, plane: &Plane, case: &Case) -> bool {
    tree.shape() == plane.shape()
        && has_rows(tree.rows(), case.rows)
        && tree.node_of() == case.node_of
        && tells_parents(tree)
}

// Whether the tree tells of each node what its table holds.
fn tells_parents(tree: &Tree) -> bool {
    let count = tree.node_count();
    if count as usize != tree.rows().len() {
        return false;
    }
    (0..count).all(|n| tree.parent(n) == tree.rows()[n as usize].parent)
}

// Whether the plane has the tree that is wanted.
fn has_tree(alloc: Global, plane: &Plane, case: &Case) -> bool {
    match plain_tree(alloc, plane, case.connect) {
        Ok(tree) => is_wanted(&tree, plane, case),
        Err(_) => false,
    }
}

// Whether there is the plane, and it has.
fn is_met(alloc: Global, case: &Case) -> bool {
    match plane_of(alloc, case.width, case.height, case.values) {
        Some(plane) => has_tree(alloc, &plane, case),
        None => false,
    }
}

fn are_met(alloc: Global, cases: &[Case]) -> bool {
    for case in cases {
        if !is_met(alloc, case) {
            return false;
        }
    }
    true
}

// Worked examples: a row, one pixel, and pixels that touch at a corner.
const SMALL: &[Case<'static>] = &[
    Case {
        width: 3,
        height: 1,
        connect: Connect::Four,
        values: b"121",
        rows: &[(1, 0, NONE), (2, 1, 0)],
        node_of: &[0, 1, 0],
    },
    Case {
        width: 1,
        height: 1,
        connect: Connect::Four,
        values: b"0",
        rows: &[(0, 0, NONE)],
        node_of: &[0],
    },
    Case {
        width: 2,
        height: 2,
        connect: Connect::Four,
        values: b"9009",
        rows: &[(0, 1, NONE), (9, 0, 0), (9, 3, 0)],
        node_of: &[1, 0, 0, 2],
    },
    Case {
        width: 2,
        height: 2,
        connect: Connect::Eight,
        values: b"9009",
        rows: &[(0, 1, NONE), (9, 0, 0)],
        node_of: &[1, 0, 0, 1],
    },
];

#[test]
fn trees_of_small_planes(rt: HostRuntime) {
    assert!(rt; are_met(rt.alloc(), SMALL));
}

// Undefined pixels belong to no node, and part the others.
const PARTED: &[Case<'static>] = &[
    Case {
        width: 2,
        height: 1,
        connect: Connect::Four,
        values: b"..",
        rows: &[],
        node_of: &[NONE, NONE],
    },
    Case {
        width: 3,
        height: 1,
        connect: Connect::Four,
        values: b"5.5",
        rows: &[(5, 0, NONE), (5, 2, NONE)],
        node_of: &[0, NONE, 1],
    },
];

#[test]
fn trees_around_undefined_pixels(rt: HostRuntime) {
    assert!(rt; are_met(rt.alloc(), PARTED));
}

// Plateaus, and pixels of other values that touch at a corner.
const FLAT: &[Case<'static>] = &[
    Case {
        width: 3,
        height: 2,
        connect: Connect::Four,
        values: b"151711",
        rows: &[(1, 0, NONE), (5, 1, 0), (7, 3, 0)],
        node_of: &[0, 1, 0, 2, 0, 0],
    },
    Case {
        width: 3,
        height: 2,
        connect: Connect::Eight,
        values: b"151711",
        rows: &[(1, 0, NONE), (5, 1, 0), (7, 3, 1)],
        node_of: &[0, 1, 0, 2, 0, 0],
    },
    Case {
        width: 3,
        height: 3,
        connect: Connect::Four,
        values: b"506526333",
        rows: &[(0, 1, NONE), (2, 4, 0), (3, 6, 1), (5, 0, 2), (6, 2, 2)],
        node_of: &[3, 0, 4, 3, 1, 4, 2, 2, 2],
    },
];

#[test]
fn trees_with_plateaus(rt: HostRuntime) {
    assert!(rt; are_met(rt.alloc(), FLAT));
}

#[test]
fn shapes_have_limits(rt: HostRuntime) {
    assert!(rt; Shape::of(0, 1).is_none());
    assert!(rt; Shape::of(1, 65536).is_none());
    assert!(rt; Shape::of(4097, 4096).is_none());
    assert!(rt; Shape::of(4096, 4096).is_some());
    assert!(rt; Shape::of(65535, 256).is_some());
}

// A large shape is one that isn't usual, up to 2^31 - 1 pixels.
#[test]
fn large_shapes_have_limits(rt: HostRuntime) {
    assert!(rt; Shape::wide(4097, 4096).is_some());
    // 2^31 - 1 is a prime number: the most pixels of any shape are one fewer, and these are three more
    assert!(rt; Shape::wide(65534, 32769).is_some());
    assert!(rt; Shape::wide(65026, 33025).is_none());
    assert!(rt; Shape::wide(1, 65536).is_none());
}

// Whether the pixels are defined that should be, and have their levels.
fn has_levels(plane: &Plane) -> bool {
    plane.shape().pixels() == 6
        && plane.is_defined(4)
        && !plane.is_defined(1)
        && plane.level(5) == 7
        && plane.is_at_least(0, 4)
        && !plane.is_at_least(0, 1)
}

// Whether a smaller value is earlier, and of equal values the smaller pixel.
fn has_order(plane: &Plane) -> bool {
    plane.shape().pixels() == 6
        && plane.is_earlier(4, 0)
        && plane.is_earlier(0, 3)
        && !plane.is_earlier(3, 0)
}

// The values of a plane of three columns and two rows.
const MIXED: [Option<i64>; 6] = [Some(5), None, Some(6), Some(5), Some(0), Some(7)];

// Whether there is a plane, and it has these values, their levels and their order.
fn is_mixed(plane: Option<Plane>) -> bool {
    match plane {
        Some(plane) => has_values(&plane, &MIXED) && has_levels(&plane) && has_order(&plane),
        None => false,
    }
}

#[test]
fn pixels_of_a_plane(rt: HostRuntime) {
    assert!(rt; is_mixed(plane_of(rt.alloc(), 3, 2, b"5.6507")));
}

// Whether these are the neighbours of pixel 1 of a shape of three columns and two rows.
fn are_near(connect: Connect, wanted: &[u32]) -> bool {
    let Some(shape) = Shape::of(3, 2) else {
        return false;
    };
    shape.pixels() == 6 && neighbours(shape, connect, 1).as_slice() == wanted
}

#[test]
fn neighbours_in_rising_order(rt: HostRuntime) {
    assert!(rt; are_near(Connect::Four, &[0, 2, 4]));
    assert!(rt; are_near(Connect::Eight, &[0, 2, 3, 4, 5]));
}

// Whether these links are a forest of the plane.
fn are_forest(alloc: Global, plane: &Plane, links: &[u32]) -> Option<bool> {
    if plane.shape().pixels() as usize != links.len() {
        return None;
    }
    let forest = Forest::of(links.to_vec(alloc).ok()?);
    Some(is_forest(plane, 0, forest.parents()))
}

// Whether it is known of a row of three pixels, of which the second has a larger value, that these links are its forest, or that they
// aren't.
fn is_answer(alloc: Global, links: &[u32], wanted: bool) -> bool {
    match plane_of(alloc, 3, 1, b"121") {
        Some(plane) => are_forest(alloc, &plane, links) == Some(wanted),
        None => false,
    }
}

#[test]
fn links_of_a_forest(rt: HostRuntime) {
    assert!(rt; is_answer(rt.alloc(), &[NONE, 2, 0], true));
    // pixel 1 is later than pixel 2
    assert!(rt; is_answer(rt.alloc(), &[NONE, NONE, 1], false));
}

// The pixel of a plane of four columns that stands at pixel q of its window of this shape, from column 1 of row 0 on.
#[tactic(auto, unfolding(crate::specs::Windows::in_whole))]
fn place_in_whole(shape: Shape, q: u32) -> u32
    requires { q < 9 }
    ensures { let w : Window = record { left = 1; top = 0; shape = shape } in result ≡ in_whole 4 w q }
{
    q / shape.width * 4 + (q % shape.width + 1)
}

// Whether the nodes are those of the window of this shape, each at its place, apart from the first of each list.
fn are_those_of_window(rows: &[NodeRow], part: Shape, seen: &[NodeRow]) -> bool {
    if rows.len() != 4 || seen.len() != 4 {
        return false;
    }
    for k in 1..4 {
        let row = rows[k];
        let there = seen[k];
        if there.rep >= 9
            || row.level != there.level
            || row.rep != place_in_whole(part, there.rep)
            || row.parent != there.parent
        {
            return false;
        }
    }
    true
}

fn tree_of(alloc: Global, width: u32, height: u32, signs: &[u8]) -> Option<Tree> {
    let plane = plane_of(alloc, width, height, signs)?;
    plain_tree(alloc, &plane, Connect::Eight).ok()
}

// Whether the nodes of the window's tree are those of this tree.
fn has_nodes_of_window(alloc: Global, tree: &Tree) -> bool {
    match tree_of(alloc, 3, 3, b"111179161") {
        Some(seen) => are_those_of_window(tree.rows(), seen.shape(), seen.rows()),
        None => false,
    }
}

// Whether they are those of the plane's tree.
fn are_found_in_window(alloc: Global) -> bool {
    match tree_of(alloc, 4, 3, b"111111791161") {
        Some(tree) => has_nodes_of_window(alloc, &tree),
        None => false,
    }
}

// The last three columns of a plane: the component of 6, 7 and 9 lies in them with its neighbours, so its nodes are the same, each at its place.
#[test]
fn nodes_of_a_window(rt: HostRuntime) {
    assert!(rt; are_found_in_window(rt.alloc()));
}
