//! A map of numbers as an image extension.
ghost use Rattle.std.specs.Prelude.{◌≡◌, ◌*◌, ◌^◌, ◌≤◌, ◌++◌, length, OnOk, OnErr};
ghost use Rattle.std.specs.List.{All};
ghost use Rattle.dev_io.specs.Causes.{HasCause};
ghost use Rattle.dev_io.specs.Streams.{AppendsPrefix, PutAppends};
ghost use Rattle.fits_write.specs.Blocks.{filled};
ghost use Rattle.fits_write.specs.Waiting.{Waits};
ghost use Rattle.fits_write.specs.Hdus.{map_cards, map_bytes, map_hdu};

use crate::WriteFault;
use crate::blocks::Blocks;
use crate::header::put_header;
use byteorder::{BigEndian, ByteOrder};
use comp_tree::Shape;
use dev_io::{Failed, Sink};
use fits_card::{Card, end_card, int_card, text_card};

// How many numbers are made bytes at once: as many as a block holds.
const PART: usize = 720;

/// Writes an image extension with BITPIX 32 and the name `SEGMENT` that gives each pixel its number, row by row.
pub fn put_map<O: Sink>(sink: &mut O, shape: Shape, numbers: &[u32]) -> Result<(), WriteFault>
    requires count { length numbers.now ≡ shape.width * shape.height }
    requires small { All (λ n. n ≤ 2147483647) numbers.now }
    ensures bytes { PutAppends (O.written sink.old) (O.written sink.new) result
        (map_hdu shape numbers.now) }
    ensures cause { HasCause (O.faults sink.old) (O.faults sink.new) result }
{
    match put_header_and_numbers(sink, shape, numbers) {
        Ok(()) => Ok(()),
        Err(_) => Err(WriteFault),
    }
}

fn put_header_and_numbers<O: Sink>(
    sink: &mut O,
    shape: Shape,
    numbers: &[u32],
) -> Result<(), Failed>
    ensures bytes { PutAppends (O.written sink.old) (O.written sink.new) result
        (map_hdu shape numbers.now) }
    ensures cause { HasCause (O.faults sink.old) (O.faults sink.new) result }
{
    if let Err(failed) = put_header(sink, &map_cards(shape)) {
        return Err(failed);
    }
    put_numbers(sink, numbers)
}

fn put_numbers<O: Sink>(sink: &mut O, numbers: &[u32]) -> Result<(), Failed>
    ensures bytes { PutAppends (O.written sink.old) (O.written sink.new) result
        (filled 0 (map_bytes numbers.now)) }
    ensures cause { HasCause (O.faults sink.old) (O.faults sink.new) result }
{
    let mut blocks = Blocks::new();
    let mut first = 0;
    while first < numbers.len() {
        let count = (numbers.len() - first).min(PART);
        let part = &numbers[first..first + count];
        if let Err(failed) = add_numbers(sink, &mut blocks, part) {
            return Err(failed);
        }
        first += count;
    }
    blocks.fill(sink, 0)
}

// Lets the bytes of these numbers wait.
fn add_numbers<O: Sink>(sink: &mut O, blocks: &mut Blocks, numbers: &[u32]) -> Result<(), Failed>
    requires { length numbers.now ≤ 720 }
    ensures ok { OnOk result (Waits (O.written sink.old) (O.written sink.new)
        (blocks.old ++ map_bytes numbers.now) blocks.new) }
    ensures err { OnErr result (AppendsPrefix (O.written sink.old) (O.written sink.new)
        (blocks.old ++ map_bytes numbers.now)) }
    ensures cause { HasCause (O.faults sink.old) (O.faults sink.new) result }
{
    let mut room = [0; 4 * PART];
    let bytes = &mut room[..4 * numbers.len()];
    BigEndian::write_u32_into(numbers, bytes);
    blocks.add(sink, bytes)
}

/// The cards of a map's header.
#[tactic(auto, unfolding(crate::specs::Hdus::map_cards))]
pub fn map_cards(shape: Shape) -> [Card; 9]
    ensures { result ≡ map_cards shape }
{
    [
        text_card(b"XTENSION", b"IMAGE"),
        int_card(b"BITPIX  ", 32),
        int_card(b"NAXIS   ", 2),
        int_card(b"NAXIS1  ", i64::from(shape.width)),
        int_card(b"NAXIS2  ", i64::from(shape.height)),
        int_card(b"PCOUNT  ", 0),
        int_card(b"GCOUNT  ", 1),
        text_card(b"EXTNAME ", b"SEGMENT"),
        end_card(),
    ]
}
