//! Finding an HDU by its number.
ghost use Rattle.std.specs.Prelude.{◌≡◌, ◌<◌, ◌≤◌, ◌+◌, ◌⊎◌, List, ℕ, IfErr, IsTrue, IsErrOf};
ghost use Rattle.std.specs.Option.{ForSome};
ghost use Rattle.dev_io.specs.Causes.{Rose};
ghost use Rattle.dev_io.specs.Streams.{Takes};
ghost use Rattle.fits_hdu.specs.Headers.{found};
ghost use Rattle.fits_hdu.specs.Finding.{following, past_padding, find_of, find_on_of, find_after_of};
ghost use Rattle.fits_hdu.specs.Streams.{Finds, MeetsOtherBytes, MeetsOtherBytesAfter};
ghost use Rattle.fits_hdu.specs.Reading.{Caused, OtherBehind, OtherPastPadding, OtherLater};

use crate::answer::Hdu;
use crate::fault::{HduFault, HduStop};
use crate::header::read_header;
use dev_io::{BLOCK, Source, skip};

// The HDU with this number, whose header starts behind the padding of data of this size.
fn read_past_padding<S: Source>(src: &mut S, size: u64, hdu: u16) -> Result<Hdu, HduStop>
    ensures told { (bytes : List ℕ) (start : ℕ) → Takes bytes (S.left src.old) start →
        Finds (past_padding bytes hdu size start) bytes (S.left src.new) result }
    ensures cause { IfErr result (Caused
        (IsTrue (S.ended src.new) ⊎ OtherPastPadding (S.left src.old) hdu size) (S.ended src.new)
        (S.faults src.old) (S.faults src.new)) }
    ensures later { S.faults src.old ≤ S.faults src.new }
{
    match skip(src, (BLOCK as u64 - size % BLOCK as u64) % BLOCK as u64) {
        Ok(true) => read_header(src, hdu),
        Ok(false) => Err(HduStop::Fault(HduFault::NoSuchHdu)),
        Err(_) => Err(HduStop::ReadFault),
    }
}

// The HDU with this number, behind data of this size.
fn find_next<S: Source>(src: &mut S, size: u64, hdu: u16) -> Result<Hdu, HduStop>
    ensures told { (bytes : List ℕ) (head : ℕ) → Takes bytes (S.left src.old) head →
        Finds (following bytes hdu size head) bytes (S.left src.new) result }
    ensures cause { IfErr result (Caused
        (IsTrue (S.ended src.new) ⊎ OtherBehind (S.left src.old) hdu size) (S.ended src.new)
        (S.faults src.old) (S.faults src.new)) }
    ensures later { S.faults src.old ≤ S.faults src.new }
{
    match skip(src, size) {
        Ok(true) => read_past_padding(src, size, hdu),
        Ok(false) => Err(HduStop::Fault(HduFault::TruncatedSkip)),
        Err(_) => Err(HduStop::ReadFault),
    }
}

// The HDU with this number, where `hdu` is the one with the number `from`, and the first byte of its data is the next.
fn find_on<S: Source>(src: &mut S, hdu: Hdu, from: u16, number: u16) -> Result<Hdu, HduStop>
    requires { from ≤ number }
    ensures told { (bytes : List ℕ) (head : ℕ) → Takes bytes (S.left src.old) head →
        Finds (find_on_of bytes from (found hdu head) number) bytes (S.left src.new) result }
    ensures cause { IfErr result (Caused
        (IsTrue (S.ended src.new) ⊎ OtherLater (S.left src.old) from hdu number) (S.ended src.new)
        (S.faults src.old) (S.faults src.new)) }
    ensures later { S.faults src.old ≤ S.faults src.new }
{
    let mut last = hdu;
    for before in from..number {
        last = match find_next(src, last.data_bytes, before + 1) {
            Ok(next) => next,
            Err(stop) => return Err(stop),
        };
    }
    Ok(last)
}

/// Finds the HDU with this number, from 0 (FITS Standard 4.0, section 3.3). The data of each HDU before it is taken and not looked at.
///
/// At `Ok` the next byte of the source is the first of the HDU's data. An error is the first fault in the order of the bytes,
/// and no byte is taken behind the card or the block that shows it. It takes no memory.
pub fn find_hdu<S: Source>(src: &mut S, number: u16) -> Result<Hdu, HduStop>
    ensures told { ForSome (S.left src.old)
        (λ bytes. Finds (find_of bytes number) bytes (S.left src.new) result) }
    ensures header_ended { IsErrOf result (HduStop.Fault HduFault.TruncatedHeader) →
        IsTrue (S.ended src.new) }
    ensures skip_ended { IsErrOf result (HduStop.Fault HduFault.TruncatedSkip) →
        IsTrue (S.ended src.new) }
    ensures missing { IsErrOf result (HduStop.Fault HduFault.NoSuchHdu) → ForSome (S.left src.old)
        (λ bytes. IsTrue (S.ended src.new) ⊎ MeetsOtherBytes bytes (find_of bytes) 0 number) }
    ensures read_fault { IsErrOf result HduStop.ReadFault →
        Rose (S.faults src.old) (S.faults src.new) }
    ensures later { S.faults src.old ≤ S.faults src.new }
{
    match read_header(src, 0) {
        Ok(hdu) => find_on(src, hdu, 0, number),
        Err(stop) => Err(stop),
    }
}

/// Goes on with the search behind `passed`, the HDU with the number `at`, whose data alone was taken since it was found: the next byte is the first of
/// its padding. It finds the HDU with this number as [`find_hdu`] does, and numbers in its faults count from the start of the file.
///
/// An end in the padding is `NoSuchHdu`. It takes no memory.
pub fn find_after<S: Source>(
    src: &mut S,
    passed: &Hdu,
    at: u16,
    number: u16,
) -> Result<Hdu, HduStop>
    requires { at < number }
    ensures told { (bytes : List ℕ) (start : ℕ) → Takes bytes (S.left src.old) start → Finds
        (find_after_of bytes at passed.now.data_bytes start number) bytes (S.left src.new) result }
    ensures header_ended { IsErrOf result (HduStop.Fault HduFault.TruncatedHeader) →
        IsTrue (S.ended src.new) }
    ensures skip_ended { IsErrOf result (HduStop.Fault HduFault.TruncatedSkip) →
        IsTrue (S.ended src.new) }
    ensures missing { IsErrOf result (HduStop.Fault HduFault.NoSuchHdu) →
        (bytes : List ℕ) (start : ℕ) → Takes bytes (S.left src.old) start →
        IsTrue (S.ended src.new) ⊎
        MeetsOtherBytesAfter bytes at passed.now.data_bytes start number }
    ensures read_fault { IsErrOf result HduStop.ReadFault →
        Rose (S.faults src.old) (S.faults src.new) }
    ensures later { S.faults src.old ≤ S.faults src.new }
{
    match read_past_padding(src, passed.data_bytes, at + 1) {
        Ok(hdu) => find_on(src, hdu, at + 1, number),
        Err(stop) => Err(stop),
    }
}
