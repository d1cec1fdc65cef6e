//! Numbers of fewer than eight bytes become pixels, with a loop for each size.
ghost use Rattle.std.specs.Prelude.{◌≡◌, ◌≢◌, ◌≤◌, ◌*◌, true, length};
ghost use Rattle.pixel_plane.specs.Stored.{holds_narrow};
ghost use Rattle.pixel_plane.specs.Decoding.{IsRunDecoded};

use crate::encoding::Encoding;
use byteorder::{BigEndian, ByteOrder};
use comp_tree::Pixel;

/// Gives the pixels of a run the values of the first numbers in these bytes, none of which is out of range. What size they have
/// is asked once.
pub(crate) fn decode_run(encoding: &Encoding, bytes: &[u8], run: &mut [Pixel])
    requires narrow { encoding.now.size ≢ 8 }
    requires holds { holds_narrow encoding.now.limits ≡ true }
    requires room { length run.old * encoding.now.size ≤ length bytes.now }
    ensures one_each { length run.new ≡ length run.old }
    ensures decoded { IsRunDecoded encoding.now bytes.now run.new (length run.old) }
{
    match encoding.size {
        1 => decode_ones(encoding, bytes, run),
        2 => decode_twos(encoding, bytes, run),
        _ => decode_fours(encoding, bytes, run),
    }
}

// Numbers of one byte.
fn decode_ones(encoding: &Encoding, bytes: &[u8], run: &mut [Pixel])
    requires size { encoding.now.size ≡ 1 }
    requires holds { holds_narrow encoding.now.limits ≡ true }
    requires room { length run.old ≤ length bytes.now }
    ensures one_each { length run.new ≡ length run.old }
    ensures decoded { IsRunDecoded encoding.now bytes.now run.new (length run.old) }
{
    // A copy, which no pixel that is written can change: its fields are read once.
    let own = *encoding;
    for k in 0..run.len() {
        run[k] = own.pixel_of(i64::from(bytes[k]));
    }
}

// Numbers of two bytes.
fn decode_twos(encoding: &Encoding, bytes: &[u8], run: &mut [Pixel])
    requires size { encoding.now.size ≡ 2 }
    requires holds { holds_narrow encoding.now.limits ≡ true }
    requires room { length run.old * 2 ≤ length bytes.now }
    ensures one_each { length run.new ≡ length run.old }
    ensures decoded { IsRunDecoded encoding.now bytes.now run.new (length run.old) }
{
    // A copy, which no pixel that is written can change: its fields are read once.
    let own = *encoding;
    for k in 0..run.len() {
        run[k] = own.pixel_of(i64::from(BigEndian::read_i16(&bytes[k * 2..])));
    }
}

// Numbers of four bytes.
fn decode_fours(encoding: &Encoding, bytes: &[u8], run: &mut [Pixel])
    requires size { encoding.now.size ≡ 4 }
    requires holds { holds_narrow encoding.now.limits ≡ true }
    requires room { length run.old * 4 ≤ length bytes.now }
    ensures one_each { length run.new ≡ length run.old }
    ensures decoded { IsRunDecoded encoding.now bytes.now run.new (length run.old) }
{
    // A copy, which no pixel that is written can change: its fields are read once.
    let own = *encoding;
    for k in 0..run.len() {
        run[k] = own.pixel_of(i64::from(BigEndian::read_i32(&bytes[k * 4..])));
    }
}
