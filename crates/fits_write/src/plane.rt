//! A plane as a primary HDU.
ghost use Rattle.std.specs.Prelude.{◌≡◌};
ghost use Rattle.dev_io.specs.Causes.{HasCause};
ghost use Rattle.dev_io.specs.Streams.{PutAppends};
ghost use Rattle.fits_write.specs.Blocks.{filled};
ghost use Rattle.fits_write.specs.Hdus.{plane_cards, pixel_bytes, pixels_bytes, plane_hdu};

use crate::WriteFault;
use crate::blocks::Blocks;
use crate::header::put_header;
use byteorder::{BigEndian, ByteOrder};
use comp_tree::{Plane, Shape};
use dev_io::{Failed, Sink};
use fits_card::{Card, end_card, int_card, logical_card};

// Stands for an undefined pixel: the BLANK of the header.
const BLANK: i64 = i64::MIN;

/// Writes a plane as a primary HDU of 64-bit integers, in which BLANK stands for undefined pixels.
pub fn put_plane<O: Sink>(sink: &mut O, plane: &Plane) -> Result<(), WriteFault>
    ensures bytes { PutAppends (O.written sink.old) (O.written sink.new) result
        (plane_hdu plane.now) }
    ensures cause { HasCause (O.faults sink.old) (O.faults sink.new) result }
{
    match put_header_and_pixels(sink, plane) {
        Ok(()) => Ok(()),
        Err(_) => Err(WriteFault),
    }
}

fn put_header_and_pixels<O: Sink>(sink: &mut O, plane: &Plane) -> Result<(), Failed>
    ensures bytes { PutAppends (O.written sink.old) (O.written sink.new) result
        (plane_hdu plane.now) }
    ensures cause { HasCause (O.faults sink.old) (O.faults sink.new) result }
{
    if let Err(failed) = put_header(sink, &plane_cards(plane.shape())) {
        return Err(failed);
    }
    put_pixels(sink, plane)
}

fn put_pixels<O: Sink>(sink: &mut O, plane: &Plane) -> Result<(), Failed>
    ensures bytes { PutAppends (O.written sink.old) (O.written sink.new) result
        (filled 0 (pixels_bytes plane.now.values)) }
    ensures cause { HasCause (O.faults sink.old) (O.faults sink.new) result }
{
    let mut blocks = Blocks::new();
    for p in 0..plane.shape().pixels() {
        if let Err(failed) = blocks.add(sink, &pixel_bytes(plane.get(p))) {
            return Err(failed);
        }
    }
    blocks.fill(sink, 0)
}

fn pixel_bytes(value: Option<i64>) -> [u8; 8]
    ensures { result ≡ pixel_bytes value }
{
    let mut bytes = [0; 8];
    BigEndian::write_i64(&mut bytes, value.unwrap_or(BLANK));
    bytes
}

#[tactic(auto, unfolding(crate::specs::Hdus::plane_cards))]
fn plane_cards(shape: Shape) -> [Card; 7]
    ensures { result ≡ plane_cards shape }
{
    [
        logical_card(b"SIMPLE  ", true),
        int_card(b"BITPIX  ", 64),
        int_card(b"NAXIS   ", 2),
        int_card(b"NAXIS1  ", i64::from(shape.width)),
        int_card(b"NAXIS2  ", i64::from(shape.height)),
        int_card(b"BLANK   ", BLANK),
        end_card(),
    ]
}
