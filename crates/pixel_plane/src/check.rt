//! Whether an HDU is an image that can be read.
ghost use Rattle.std.specs.Prelude.{◌≡◌, ◌<◌, IfOk, IfSome, IsTrue, is_some};
ghost use Rattle.std.specs.Result.{result_err};
ghost use Rattle.pixel_plane.specs.Images.{checked, image_fault};
ghost use Rattle.pixel_plane.specs.ImageLimits.{fits_plane, fits_within, usual_limits};

use crate::{ImageFault, Limits};
use comp_tree::Shape;
use fits_card::number::Whole;
use fits_hdu::{Hdu, Kind};

// The greatest distance of BZERO from 0: 2^32.
const MOST_ZERO: i64 = 1 << 32;

/// The shape of the HDU's image, or its first fault. It takes no memory.
pub fn check_image(hdu: &Hdu) -> Result<Shape, ImageFault>
    ensures { result ≡ checked usual_limits hdu.now }
{
    check_within(hdu, &Limits::usual())
}

/// The same within these limits.
pub fn check_within(hdu: &Hdu, limits: &Limits) -> Result<Shape, ImageFault>
    ensures { result ≡ checked limits.now hdu.now }
{
    image_shape(hdu, limits)
}

#[tactic(auto, unfolding(crate::specs::Images::image_fault))]
fn image_shape(hdu: &Hdu, limits: &Limits) -> Result<Shape, ImageFault>
    ensures fault { result_err result ≡ image_fault limits.now hdu.now }
    ensures sides { IfOk result
        (λ shape. (shape.width ≡ hdu.now.width) × (shape.height ≡ hdu.now.height)) }
{
    if hdu.kind == Kind::Other {
        return Err(ImageFault::NotImage);
    }
    if hdu.naxis < 2 || hdu.width == 0 || hdu.height == 0 || !hdu.flat {
        return Err(ImageFault::NoImage);
    }
    let Some(shape) = shape_within(hdu.width, hdu.height, limits) else {
        return Err(ImageFault::ImageTooLarge);
    };
    if !matches!(hdu.bitpix, 8 | 16 | 32 | 64) {
        return Err(ImageFault::Bitpix);
    }
    if hdu.bscale != Whole::Is(1) {
        return Err(ImageFault::Bscale);
    }
    if !matches!(hdu.bzero, Whole::Is(zero) if -MOST_ZERO <= zero && zero <= MOST_ZERO) {
        return Err(ImageFault::Bzero);
    }
    if !matches!(hdu.blank, None | Some(Whole::Is(_))) {
        return Err(ImageFault::Blank);
    }
    Ok(shape)
}

// The shape of these sides, where a plane can have them, and has no more pixels than the limits allow.
#[tactic(auto, unfolding(crate::specs::ImageLimits::fits_within))]
fn shape_within(width: u64, height: u64, limits: &Limits) -> Option<Shape>
    ensures accepted { is_some result ≡ fits_within limits.now width height }
    ensures sides { IfSome result (λ shape. (shape.width ≡ width) × (shape.height ≡ height)) }
{
    let Some(shape) = plane_shape(width, height) else {
        return None;
    };
    if shape.pixels() > limits.pixels {
        return None;
    }
    Some(shape)
}

// The shape of these sides, where a plane can have them.
#[tactic(auto, unfolding(crate::specs::ImageLimits::fits_plane))]
fn plane_shape(width: u64, height: u64) -> Option<Shape>
    ensures accepted { is_some result ≡ fits_plane width height }
    ensures sides { IfSome result (λ shape. (shape.width ≡ width) × (shape.height ≡ height)) }
{
    if width > 65_535 || height > 65_535 {
        return None;
    }
    Shape::wide(width as u32, height as u32)
}
