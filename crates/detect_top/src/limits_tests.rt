//! Runs within other limits than the usual ones.
use crate::in_memory::{ROOM, file};
use crate::run_within;
use dev_io::{MemSink, MemSource};
use pixel_plane::Limits;
use std::alloc::Global;
use std::test::Fail;
use std::thread::Threads;
use strip_crew::OpenGate;

// The status of these words over an image of three pixels.
fn status_within<R: Threads + Sync>(
    rt: &R,
    alloc: Global,
    words: &[&str],
    limits: &Limits,
) -> Result<u8, Fail> {
    let header = b"SIMPLE  = T|BITPIX  = 8|NAXIS   = 2|NAXIS1  = 3|NAXIS2  = 1|END|#";
    let bytes = file(alloc, header, &[0, 1, 3])?;
    let mut input = MemSource::new(&bytes, 1000, &[]);
    let mut output = MemSink::new(vec![in alloc; 0; ROOM]?, &[], 0);
    let mut notes = MemSink::new(vec![in alloc; 0; 99]?, &[], 0);
    Ok(run_within(
        rt,
        alloc,
        words,
        limits,
        &mut input,
        &mut output,
        &mut notes,
        &OpenGate,
    ))
}

#[test]
fn limits_are_those_of_images_and_of_areas(rt: HostRuntime) -> Result<(), Fail> {
    let alloc = rt.alloc();
    let words: [&str; 5] = ["filter", "--rule", "direct", "--max-area", "2147483647"];
    assert_eq!(rt; status_within(&rt, alloc, &words, &Limits::usual())?, 1);
    assert_eq!(rt; status_within(&rt, alloc, &words, &Limits::wide())?, 0);
    let few = Limits {
        pixels: 2,
        least: -1,
        greatest: 3,
    };
    assert_eq!(rt; status_within(&rt, alloc, &["tree"], &few)?, 2);
    Ok(())
}
