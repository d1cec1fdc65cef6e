//! Planes that are being painted.

ghost use Rattle.std.specs.Prelude.{◌≡◌, ℕ, ◌+◌, ◌*◌, ◌<◌, ◌≤◌, None, replicate, slice_set, IfOk, IfSome, length};
ghost use Rattle.comp_tree.specs.Limits.{IsWithin, value_bound};
ghost use Rattle.comp_tree.specs.Raster.{HasValuesWithin, raster_painted, value_at};

use crate::kept::Kept;
use crate::pixel::Pixel;
use crate::plane::{Plane, bound_of};
use crate::shape::Shape;
use costs::OutOfMemory;
use std::alloc::Global;
use std::marker::Model;

/// A plane that is being painted: each pixel can still get any value from `-most` to `most`.
///
/// It keeps each pixel, where a plane may keep fewer, so it is here that an undefined pixel becomes a defined one.
#[derive(Drop)]
pub struct Canvas {
    shape: Shape,
    most: u64,
    pixels: Kept,
}

impl Model for Canvas {
    ghost use Rattle.std.specs.Prelude.{◌≡◌, ◌*◌, ◌≤◌, length};
    ghost use Rattle.comp_tree.specs.Limits.{value_bound};
    ghost use Rattle.comp_tree.specs.Kept.{kept_items, room_of};
    ghost use Rattle.comp_tree.specs.Raster.{Painting, HasValuesWithin};

    ghost Value = { Painting };

    ghost view = { λ canvas. record { shape = canvas.shape; values = kept_items canvas.pixels; most = canvas.most } };

    ghost invariant = { λ canvas. (length (kept_items canvas.pixels) ≡ canvas.shape.width * canvas.shape.height)
        × HasValuesWithin canvas.most (kept_items canvas.pixels)
        × (canvas.most ≤ value_bound (canvas.shape.width * canvas.shape.height)) × (canvas.most ≤ room_of canvas.pixels) };
}

impl Canvas {
    /// A canvas on which every pixel is undefined, for all values that a plane may have.
    pub fn blank(alloc: Global, shape: Shape) -> Result<Canvas, OutOfMemory>
        ensures shape { IfOk result (λ canvas. canvas.shape ≡ shape) }
        ensures undefined { IfOk result
            (λ canvas. canvas.values ≡ replicate (shape.width * shape.height) None) }
        ensures most { IfOk result (λ canvas. canvas.most ≡ value_bound (shape.width * shape.height)) }
    {
        Canvas::blank_within(alloc, shape, bound_of(shape.pixels() as usize))
    }

    /// A canvas on which every pixel is undefined, for values from `-most` to `most`. Where `most` is below 2^31 it takes four bytes a
    /// pixel, and else eight.
    pub fn blank_within(alloc: Global, shape: Shape, most: u64) -> Result<Canvas, OutOfMemory>
        requires { most ≤ value_bound (shape.width * shape.height) }
        ensures shape { IfOk result (λ canvas. canvas.shape ≡ shape) }
        ensures undefined { IfOk result
            (λ canvas. canvas.values ≡ replicate (shape.width * shape.height) None) }
        ensures most { IfOk result (λ canvas. canvas.most ≡ most) }
    {
        let count = shape.pixels() as usize;
        let pixels = Kept::blank(alloc, count, most)?;
        Ok(Canvas {
            shape,
            most,
            pixels,
        })
    }

    /// The width and the height. They never change.
    pub fn shape(&self) -> Shape
        ensures same { result ≡ self.now.shape }
        ensures pixels { length self.now.values ≡ result.width * result.height }
        ensures bounded { self.now.most ≤ value_bound (length self.now.values) }
    {
        self.shape
    }

    /// Gives a pixel a value, or makes it undefined.
    pub fn set(&mut self, p: u32, value: Option<i64>)
        requires pixel { p < length self.old.values }
        requires in_range { IfSome value (λ v. IsWithin self.old.most v) }
        ensures { self.new ≡ record self.old { values = slice_set self.old.values p value } }
    {
        self.pixels.set(p as usize, value);
    }

    /// Gives the pixels from `first` on the values of `run`, each of which may be none.
    pub fn put_pixels(&mut self, first: u32, run: &[Pixel])
        requires inside { first + length run.now ≤ length self.old.values }
        requires in_range { HasValuesWithin self.old.most run.now }
        ensures shape { self.new.shape ≡ self.old.shape }
        ensures most { self.new.most ≡ self.old.most }
        ensures one_each { length self.new.values ≡ length self.old.values }
        ensures inside { (k : ℕ) → k < length run.now → value_at self.new.values (first + k) ≡ value_at run.now k }
        ensures before { (p : ℕ) → p < first → value_at self.new.values p ≡ value_at self.old.values p }
        ensures behind { (p : ℕ) → first + length run.now ≤ p → value_at self.new.values p ≡ value_at self.old.values p }
    {
        self.pixels.put_run(first as usize, run);
    }

    /// The plane that was painted.
    pub fn into_plane(self) -> Plane
        ensures { result ≡ raster_painted self }
    {
        Plane::of_pixels(self.shape, self.most, self.pixels)
    }
}
