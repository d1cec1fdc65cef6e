//! One image of a small file, and two.
use crate::{Fault, Limits, Place, PlaneFault, Stop, TwoPlanes, read_image, read_two};
use comp_tree::Plane;
use dev_io::{BLOCK, MemSource};
use fits_hdu::{CardPlace, HduFault};
use std::alloc::Global;
use std::process::Abort;
use std::test::Fail;

// The primary HDU, with one row of five pixels.
const PRIMARY: &[u8] = b"SIMPLE  = T|BITPIX  = 8|NAXIS   = 2|NAXIS1  = 5|NAXIS2  = 1|END|#";

const FIRST: &[u8] = &[1, 6, 2, 5, 1];

// An image extension of the same shape, behind the padding of the primary HDU's data.
const EXTENSION: &[u8] =
    b"#XTENSION= 'IMAGE   '|BITPIX  = 8|NAXIS   = 2|NAXIS1  = 5|NAXIS2  = 1|PCOUNT  = 0|GCOUNT  = 1|BLANK   = 255|END|#";

// Fills the last piece of this size with spaces.
fn fill(bytes: &mut Vec<u8>, size: usize) -> Result<(), Fail> {
    for _ in 0..BLOCK {
        if size == 0 || bytes.len() % size == 0 {
            return Ok(());
        }
        bytes.push(b' ')?;
    }
    Ok(())
}

// Appends the bytes of this text, in which a bar ends a card and a number sign a block, and the data behind them.
fn append(bytes: &mut Vec<u8>, header: &[u8], data: &[u8]) -> Result<(), Fail> {
    for byte in header {
        match *byte {
            b'|' => fill(bytes, 80)?,
            b'#' => fill(bytes, BLOCK)?,
            other => bytes.push(other)?,
        }
    }
    bytes.extend_from_slice(data)?;
    Ok(())
}

// What was read, and how many bytes were taken for it.
#[derive(Drop)]
struct Outcome {
    result: Result<TwoPlanes, Stop>,
    taken: usize,
}

// Reads both images of a file with these pixels in the primary HDU and with this extension. The takes with these numbers, from 1, fail.
fn read(
    alloc: Global,
    first: &[u8],
    header: &[u8],
    data: &[u8],
    fails: &[u32],
) -> Result<Outcome, Fail> {
    let mut bytes = Vec::new(alloc);
    append(&mut bytes, PRIMARY, first)?;
    append(&mut bytes, header, data)?;
    let mut src = MemSource::new(&bytes, 1000, fails);
    let result = read_two(alloc, &mut src, 0, 1, &Limits::usual());
    let taken = bytes.len() - src.rest().len().min(bytes.len());
    Ok(Outcome { result, taken })
}

fn has_values<R: Abort>(rt: &R, plane: &Plane, values: [Option<i64>; 5]) {
    for p in 0..5u32 {
        if p < plane.shape().pixels() {
            assert_eq!(*rt; plane.get(p), values[p as usize]);
        }
    }
}

#[test]
fn one_image_is_read(rt: HostRuntime) -> Result<(), Fail> {
    let mut bytes = Vec::new(rt.alloc());
    append(&mut bytes, PRIMARY, FIRST)?;
    let mut src = MemSource::new(&bytes, 1000, &[]);
    let result = read_image(rt.alloc(), &mut src, 0, &Limits::usual());
    assert_eq!(rt; src.rest().len(), 0);
    match result {
        Ok(plane) => has_values(&rt, &plane, [Some(1), Some(6), Some(2), Some(5), Some(1)]),
        Err(stop) => assert_eq!(rt; Some(stop), None),
    }
    Ok(())
}

#[test]
fn a_fault_has_its_number_its_name_and_its_place(rt: HostRuntime) -> Result<(), Fail> {
    let card = Fault::Hdu(HduFault::BadKeyword { hdu: 1, card: 4 });
    assert_eq!(rt; (card.number(), card.name()), (3, "BadKeyword"));
    match card.place() {
        Some(Place::Card(place)) => assert_eq!(rt; place, CardPlace { hdu: 1, card: 4 }),
        _ => assert!(rt; false),
    }
    let pixel = Fault::Plane(PlaneFault::PixelRange {
        pixel: 3,
        stored: -1,
    });
    match pixel.place() {
        Some(Place::Pixel(place)) => assert_eq!(rt; place.pixel, 3),
        _ => assert!(rt; false),
    }
    assert_eq!(rt; Fault::ShapeDiffers.number(), 19);
    assert!(rt; Fault::ShapeDiffers.place().is_none());
    Ok(())
}

#[test]
fn both_images_are_read(rt: HostRuntime) -> Result<(), Fail> {
    let outcome = read(rt.alloc(), FIRST, EXTENSION, &[10, 20, 255, 40, 7], &[])?;
    assert_eq!(rt; outcome.taken, 8645);
    match outcome.result {
        Ok(planes) => {
            assert_eq!(rt; planes.first.shape().pixels(), 5);
            assert_eq!(rt; planes.second.shape().pixels(), 5);
            has_values(
                &rt,
                &planes.first,
                [Some(1), Some(6), Some(2), Some(5), Some(1)],
            );
            has_values(
                &rt,
                &planes.second,
                [Some(10), Some(20), None, Some(40), Some(7)],
            );
        }
        Err(stop) => assert_eq!(rt; Some(stop), None),
    }
    Ok(())
}

#[test]
fn images_of_two_shapes_are_refused(rt: HostRuntime) -> Result<(), Fail> {
    let narrow =
        b"#XTENSION= 'IMAGE   '|BITPIX  = 8|NAXIS   = 2|NAXIS1  = 4|NAXIS2  = 1|PCOUNT  = 0|GCOUNT  = 1|END|#";
    let outcome = read(rt.alloc(), FIRST, narrow, &[10, 20, 30, 40], &[])?;
    assert_eq!(rt; outcome.taken, 8640);
    assert_eq!(rt;
        outcome.result.err(),
        Some(Stop::Refused(Fault::ShapeDiffers))
    );
    // Also where the data of the later one are cut.
    let outcome = read(rt.alloc(), FIRST, narrow, &[10], &[])?;
    assert_eq!(rt; outcome.taken, 8640);
    assert_eq!(rt;
        outcome.result.err(),
        Some(Stop::Refused(Fault::ShapeDiffers))
    );
    Ok(())
}

#[test]
fn images_of_two_heights_are_refused(rt: HostRuntime) -> Result<(), Fail> {
    let higher =
        b"#XTENSION= 'IMAGE   '|BITPIX  = 8|NAXIS   = 2|NAXIS1  = 5|NAXIS2  = 2|PCOUNT  = 0|GCOUNT  = 1|END|#";
    let outcome = read(
        rt.alloc(),
        FIRST,
        higher,
        &[1, 2, 3, 4, 5, 6, 7, 8, 9, 10],
        &[],
    )?;
    assert_eq!(rt;
        outcome.result.err(),
        Some(Stop::Refused(Fault::ShapeDiffers))
    );
    Ok(())
}

#[test]
fn cut_data_are_refused(rt: HostRuntime) -> Result<(), Fail> {
    let outcome = read(rt.alloc(), FIRST, EXTENSION, &[10, 20], &[])?;
    assert_eq!(rt; outcome.taken, 8642);
    assert_eq!(rt;
        outcome.result.err(),
        Some(Stop::Refused(Fault::Plane(PlaneFault::TruncatedData)))
    );
    Ok(())
}

#[test]
fn the_earlier_hdu_is_judged_first(rt: HostRuntime) -> Result<(), Fail> {
    let outcome = read(rt.alloc(), &[1, 6], b"", &[], &[])?;
    assert_eq!(rt; outcome.taken, 2882);
    assert_eq!(rt;
        outcome.result.err(),
        Some(Stop::Refused(Fault::Plane(PlaneFault::TruncatedData)))
    );
    let outcome = read(rt.alloc(), FIRST, b"", &[], &[])?;
    assert_eq!(rt; outcome.taken, 2885);
    assert_eq!(rt;
        outcome.result.err(),
        Some(Stop::Refused(Fault::Hdu(HduFault::NoSuchHdu)))
    );
    Ok(())
}

#[test]
fn a_take_that_fails_behind_the_earlier_image_is_a_read_fault(rt: HostRuntime) -> Result<(), Fail> {
    let outcome = read(rt.alloc(), FIRST, EXTENSION, &[10, 20, 255, 40, 7], &[11])?;
    assert_eq!(rt; outcome.taken, 2885);
    assert_eq!(rt; outcome.result.err(), Some(Stop::ReadFault));
    Ok(())
}
