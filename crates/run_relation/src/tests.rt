//! The status and the line of each end.
use crate::{End, tell};
use dev_io::MemSink;
use fits_hdu::HduFault;
use orders::Usage;
use pixel_plane::{Fault, PlaneFault};
use std::alloc::Global;
use std::process::Abort;
use std::test::Fail;

// Compares an end with its status and its line.
fn try_end(rt: &impl Abort, alloc: Global, end: End, status: u8, line: &[u8]) -> Result<(), Fail> {
    let mut notes = MemSink::new(vec![in alloc; 0; 80]?, &[], 0);
    tell(&mut notes, end);
    assert_eq!(rt; end.status(), status);
    assert_eq!(rt; notes.bytes(), line);
    Ok(())
}

#[test]
fn each_end_has_its_status_and_its_line(rt: HostRuntime) -> Result<(), Fail> {
    let ends: [(End, u8, &[u8]); 5] = [
        (End::Done, 0, b""),
        (End::Usage(Usage { word: 3 }), 1, b"usage: word 3\n"),
        (End::ReadFault, 3, b"read fault\n"),
        (End::WriteFault, 4, b"write fault\n"),
        (End::NoMemory, 5, b"out of memory\n"),
    ];
    for (end, status, line) in ends {
        try_end(&rt, rt.alloc(), end, status, line)?;
    }
    Ok(())
}

#[test]
fn a_refusal_names_the_card_or_the_pixel(rt: HostRuntime) -> Result<(), Fail> {
    let card = HduFault::BadKeyword { hdu: 1, card: 36 };
    let pixel = PlaneFault::PixelRange {
        pixel: 4,
        stored: -9,
    };
    let faults: [(Fault, &[u8]); 3] = [
        (Fault::ShapeDiffers, b"refused: 19 ShapeDiffers\n"),
        (Fault::Hdu(card), b"refused: 3 BadKeyword hdu 1 card 36\n"),
        (
            Fault::Plane(pixel),
            b"refused: 18 PixelRange pixel 4 stored -9\n",
        ),
    ];
    for (fault, line) in faults {
        try_end(&rt, rt.alloc(), End::Refused(fault), 2, line)?;
    }
    Ok(())
}

// A fault of the notes changes nothing of the status.
#[test]
fn notes_may_fail(rt: HostRuntime) -> Result<(), Fail> {
    let alloc = rt.alloc();
    let mut notes = MemSink::new(vec![in alloc; 0; 80]?, &[1], 4);
    tell(&mut notes, End::ReadFault);
    assert_eq!(rt; notes.bytes(), b"read".as_slice());
    Ok(())
}
