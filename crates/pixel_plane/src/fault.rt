//! Why an HDU gives no plane: the faults of its bytes, with their numbers and names, and beside them a source that fails and want of memory.
ghost use Rattle.std.specs.Prelude.{◌≡◌, ◌≤◌, length};
ghost use Rattle.pixel_plane.specs.Faults.{image_fault_number, image_fault_name, plane_fault_number, plane_fault_name, plane_fault_place};

use thiserror::Error;

/// An HDU that was found, and that isn't an image which can be read.
#[derive(Clone, Copy, Debug, Drop, PartialEq, Eq, Error)]
pub enum ImageFault {
    #[error("the HDU holds no image")]
    NotImage,
    #[error("the image has fewer than two axes, an empty one, or a third one that is longer than 1")]
    NoImage,
    #[error("an axis is longer than 65535, or there are more pixels than the limits allow")]
    ImageTooLarge,
    #[error("BITPIX isn't 8, 16, 32 or 64")]
    Bitpix,
    #[error("BSCALE isn't 1")]
    Bscale,
    #[error("BZERO isn't a whole number from -4294967296 to 4294967296")]
    Bzero,
    #[error("BLANK isn't a whole number")]
    Blank,
}

impl ImageFault {
    /// Its number, from 10 to 16.
    pub fn number(self) -> u8
        ensures { result ≡ image_fault_number self }
    {
        match self {
            ImageFault::NotImage => 10,
            ImageFault::NoImage => 11,
            ImageFault::ImageTooLarge => 12,
            ImageFault::Bitpix => 13,
            ImageFault::Bscale => 14,
            ImageFault::Bzero => 15,
            ImageFault::Blank => 16,
        }
    }

    /// Its name.
    pub fn name(self) -> &'static str
        ensures name { result.now ≡ image_fault_name self }
        ensures short { length result.now ≤ 15 }
    {
        match self {
            ImageFault::NotImage => "NotImage",
            ImageFault::NoImage => "NoImage",
            ImageFault::ImageTooLarge => "ImageTooLarge",
            ImageFault::Bitpix => "Bitpix",
            ImageFault::Bscale => "Bscale",
            ImageFault::Bzero => "Bzero",
            ImageFault::Blank => "Blank",
        }
    }
}

/// The bytes of an image aren't those of a plane.
#[derive(Clone, Copy, Debug, Drop, PartialEq, Eq, Error)]
pub enum PlaneFault {
    #[error("the input ends before the last pixel")]
    TruncatedData,
    /// The least pixel with a value outside the limits, counted from 0, and its stored number. All bytes of the image were taken.
    /// Where the limits hold all values from -2^33 to 2^33, only images of 64 bits have such pixels.
    #[error("the value of pixel {pixel}, which is stored as {stored}, is outside the limits")]
    PixelRange { pixel: u32, stored: i64 },
}

/// A pixel, from 0, and its stored number.
#[derive(Clone, Copy, Debug, PartialEq, Eq)]
pub struct PixelPlace {
    pub pixel: u32,
    pub stored: i64,
}

impl PlaneFault {
    /// Its number, 17 or 18.
    pub fn number(self) -> u8
        ensures { result ≡ plane_fault_number self }
    {
        match self {
            PlaneFault::TruncatedData => 17,
            PlaneFault::PixelRange { .. } => 18,
        }
    }

    /// Its name.
    pub fn name(self) -> &'static str
        ensures name { result.now ≡ plane_fault_name self }
        ensures short { length result.now ≤ 15 }
    {
        match self {
            PlaneFault::TruncatedData => "TruncatedData",
            PlaneFault::PixelRange { .. } => "PixelRange",
        }
    }

    /// The pixel at fault, if it is one's fault.
    pub fn place(self) -> Option<PixelPlace>
        ensures { result ≡ plane_fault_place self }
    {
        match self {
            PlaneFault::TruncatedData => None,
            PlaneFault::PixelRange { pixel, stored } => Some(PixelPlace { pixel, stored }),
        }
    }
}

/// Why the pixels of an image aren't read: the bytes have a fault, the source failed, or there is no memory for the plane.
#[derive(Clone, Copy, Debug, Drop, PartialEq, Eq, Error)]
pub enum PlaneStop {
    #[error("{0}")]
    Fault(PlaneFault),
    #[error("the input failed")]
    ReadFault,
    #[error("there is no memory for the plane")]
    OutOfMemory,
}
