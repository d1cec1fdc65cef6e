//! Why an input is refused.
ghost use Rattle.std.specs.Prelude.{◌≡◌, ◌≤◌, length};
ghost use Rattle.pixel_plane.specs.InputFaults.{fault_number, fault_name, place_of};

use crate::{ImageFault, PixelPlace, PlaneFault};
use fits_hdu::{CardPlace, HduFault};

/// The first fault of an input's bytes. Each has a number and a name, by which the notes call it.
#[derive(Clone, Copy, Debug, PartialEq, Eq)]
pub enum Fault {
    /// There is no HDU with the wanted number.
    Hdu(HduFault),
    /// The HDU isn't an image that can be read.
    Image(ImageFault),
    /// The bytes of the image aren't those of a plane.
    Plane(PlaneFault),
    /// The images of two HDUs differ in width or height. Only `measure` reads two.
    ShapeDiffers,
}

/// What a fault names besides itself.
#[derive(Clone, Copy)]
pub enum Place {
    Card(CardPlace),
    Pixel(PixelPlace),
}

impl Fault {
    /// Its number. There is no 9: a read fault has a status of its own.
    pub fn number(self) -> u8
        ensures { result ≡ fault_number self }
    {
        match self {
            Fault::Hdu(fault) => fault.number(),
            Fault::Image(fault) => fault.number(),
            Fault::Plane(fault) => fault.number(),
            Fault::ShapeDiffers => 19,
        }
    }

    /// Its name.
    pub fn name(self) -> &'static str
        ensures name { result.now ≡ fault_name self }
        ensures short { length result.now ≤ 15 }
    {
        match self {
            Fault::Hdu(fault) => fault.name(),
            Fault::Image(fault) => fault.name(),
            Fault::Plane(fault) => fault.name(),
            Fault::ShapeDiffers => "ShapeDiffers",
        }
    }

    /// The card or the pixel at fault, if it is one's fault.
    pub fn place(self) -> Option<Place>
        ensures { result ≡ place_of self }
    {
        match self {
            Fault::Hdu(fault) => Some(Place::Card(fault.place()?)),
            Fault::Plane(fault) => Some(Place::Pixel(fault.place()?)),
            _ => None,
        }
    }
}
