//! Checks and planes of small images.
use crate::*;
use dev_io::{MemSource, PlainSource};
use fits_card::number::Whole;
use fits_hdu::{Hdu, Kind};
use std::test::Fail;

// An image of 2 x 1 pixels of 16 bits, BZERO 32768 and BLANK 1.
const IMAGE: Hdu = Hdu {
    kind: Kind::Primary,
    bitpix: 16,
    naxis: 2,
    width: 2,
    height: 1,
    flat: true,
    data_bytes: 4,
    bscale: Whole::Is(1),
    bzero: Whole::Is(32_768),
    blank: Some(Whole::Is(1)),
};

#[test]
fn the_first_fault_is_answered(rt: HostRuntime) {
    let cases = [
        (
            Hdu {
                kind: Kind::Other,
                naxis: 0,
                ..IMAGE
            },
            ImageFault::NotImage,
        ),
        (
            Hdu {
                naxis: 1,
                bitpix: -64,
                ..IMAGE
            },
            ImageFault::NoImage,
        ),
        (
            Hdu {
                flat: false,
                ..IMAGE
            },
            ImageFault::NoImage,
        ),
        (
            Hdu {
                width: 65_536,
                bitpix: -64,
                ..IMAGE
            },
            ImageFault::ImageTooLarge,
        ),
        (
            Hdu {
                width: 4_097,
                height: 4_096,
                ..IMAGE
            },
            ImageFault::ImageTooLarge,
        ),
        (
            Hdu {
                bitpix: -32,
                bscale: Whole::Is(2),
                ..IMAGE
            },
            ImageFault::Bitpix,
        ),
        (
            Hdu {
                bscale: Whole::Is(2),
                bzero: Whole::NotWhole,
                ..IMAGE
            },
            ImageFault::Bscale,
        ),
        (
            Hdu {
                bzero: Whole::Is(4_294_967_297),
                ..IMAGE
            },
            ImageFault::Bzero,
        ),
        (
            Hdu {
                blank: Some(Whole::Beyond),
                ..IMAGE
            },
            ImageFault::Blank,
        ),
    ];
    for (hdu, fault) in cases {
        assert!(rt; matches!(check_image(&hdu), Err(first) if first == fault));
    }
}

#[test]
fn stored_numbers_become_values(rt: HostRuntime) -> Result<(), Fail> {
    let shape = check_image(&IMAGE)?;
    let mut source = PlainSource::new(&[0x80, 0, 0, 1, 9]);
    let plane = read_plane(rt.alloc(), &mut source, &IMAGE, shape).expect(&rt, "a plane");
    assert_eq!(rt; plane.shape().pixels(), 2);
    assert_eq!(rt; plane.get(0), Some(0));
    assert_eq!(rt; plane.shape().pixels(), 2);
    assert_eq!(rt; plane.get(1), None);
    assert_eq!(rt; source.rest(), &[9][..]);
    Ok(())
}

#[test]
fn a_cut_and_a_failing_source_are_told_apart(rt: HostRuntime) -> Result<(), Fail> {
    let shape = check_image(&IMAGE)?;
    let mut cut = MemSource::new(&[0x80, 0, 0], 2, &[]);
    assert!(rt;
        matches!(
            read_plane(rt.alloc(), &mut cut, &IMAGE, shape),
            Err(PlaneStop::Fault(PlaneFault::TruncatedData))
        )
    );
    let mut failing = MemSource::new(&[0x80, 0, 0, 1], 2, &[2]);
    assert!(rt;
        matches!(
            read_plane(rt.alloc(), &mut failing, &IMAGE, shape),
            Err(PlaneStop::ReadFault)
        )
    );
    Ok(())
}

#[test]
fn faults_have_numbers_and_names(rt: HostRuntime) -> Result<(), Fail> {
    assert_eq!(rt; ImageFault::Bzero.number(), 15);
    assert_eq!(rt; ImageFault::Bzero.name(), "Bzero");
    let fault = PlaneFault::PixelRange {
        pixel: 7,
        stored: -1,
    };
    assert_eq!(rt; fault.number(), 18);
    assert_eq!(rt; fault.name(), "PixelRange");
    assert_eq!(rt;
        fault.place(),
        Some(PixelPlace {
            pixel: 7,
            stored: -1
        })
    );
    Ok(())
}

#[test]
fn numbers_of_32_bits_begin_with_the_most_significant_byte(rt: HostRuntime) -> Result<(), Fail> {
    let hdu = Hdu {
        bitpix: 32,
        data_bytes: 8,
        bzero: Whole::Is(0),
        blank: None,
        ..IMAGE
    };
    let shape = check_image(&hdu)?;
    // 2^24 + 2 * 2^16 + 3 * 2^8 + 4, and -2
    let mut source = PlainSource::new(&[1, 2, 3, 4, 0xff, 0xff, 0xff, 0xfe]);
    let plane = read_plane(rt.alloc(), &mut source, &hdu, shape).expect(&rt, "a plane");
    assert_eq!(rt; plane.shape().pixels(), 2);
    assert_eq!(rt; plane.get(0), Some(16_909_060));
    assert_eq!(rt; plane.shape().pixels(), 2);
    assert_eq!(rt; plane.get(1), Some(-2));
    Ok(())
}

// What is added is as far from 0 as it may be.
#[test]
fn values_of_16_bits_reach_their_bounds(rt: HostRuntime) -> Result<(), Fail> {
    let hdu = Hdu {
        bzero: Whole::Is(-4_294_967_296),
        blank: None,
        ..IMAGE
    };
    let shape = check_image(&hdu)?;
    let mut source = PlainSource::new(&[0x80, 0, 0x7f, 0xff]);
    let plane = read_plane(rt.alloc(), &mut source, &hdu, shape).expect(&rt, "a plane");
    assert_eq!(rt; plane.shape().pixels(), 2);
    assert_eq!(rt; plane.get(0), Some(-4_295_000_064));
    assert_eq!(rt; plane.shape().pixels(), 2);
    assert_eq!(rt; plane.get(1), Some(-4_294_934_529));
    Ok(())
}

// The least number of 32 bits is BLANK: all values are below 2^31 on either side of 0.
#[test]
fn values_of_32_bits_reach_their_bounds(rt: HostRuntime) -> Result<(), Fail> {
    let hdu = Hdu {
        bitpix: 32,
        width: 3,
        data_bytes: 12,
        bzero: Whole::Is(0),
        blank: Some(Whole::Is(-2_147_483_648)),
        ..IMAGE
    };
    let shape = check_image(&hdu)?;
    let bytes = [0x7f, 0xff, 0xff, 0xff, 0x80, 0, 0, 1, 0x80, 0, 0, 0];
    let mut source = PlainSource::new(&bytes);
    let plane = read_plane(rt.alloc(), &mut source, &hdu, shape).expect(&rt, "a plane");
    assert_eq!(rt; plane.shape().pixels(), 3);
    assert_eq!(rt; plane.get(0), Some(2_147_483_647));
    assert_eq!(rt; plane.shape().pixels(), 3);
    assert_eq!(rt; plane.get(1), Some(-2_147_483_647));
    assert_eq!(rt; plane.shape().pixels(), 3);
    assert_eq!(rt; plane.get(2), None);
    Ok(())
}

// Without BLANK the least number of 32 bits is a value.
#[test]
fn the_least_number_of_32_bits_is_read(rt: HostRuntime) -> Result<(), Fail> {
    let hdu = Hdu {
        bitpix: 32,
        width: 1,
        bzero: Whole::Is(0),
        blank: None,
        ..IMAGE
    };
    let shape = check_image(&hdu)?;
    let mut source = PlainSource::new(&[0x80, 0, 0, 0]);
    let plane = read_plane(rt.alloc(), &mut source, &hdu, shape).expect(&rt, "a plane");
    assert_eq!(rt; plane.shape().pixels(), 1);
    assert_eq!(rt; plane.get(0), Some(-2_147_483_648));
    Ok(())
}

// More bytes than are taken at once, and more pixels than are decoded at once, with each size that has a loop of its own: the last
// pixel of all, and the last one of the first eight blocks.
#[test]
fn a_pixel_behind_the_first_blocks_is_read(rt: HostRuntime) -> Result<(), Fail> {
    let mut bytes = [0; 23_044];
    bytes[23_039] = 5;
    bytes[23_043] = 9;
    for (bitpix, width, inner) in [
        (8, 23_044, 23_039),
        (16, 11_522, 11_519),
        (32, 5_761, 5_759),
    ] {
        let hdu = Hdu {
            bitpix,
            width,
            data_bytes: 23_044,
            bzero: Whole::Is(0),
            blank: None,
            ..IMAGE
        };
        let shape = check_image(&hdu)?;
        let mut source = PlainSource::new(&bytes);
        let plane = read_plane(rt.alloc(), &mut source, &hdu, shape).expect(&rt, "a plane");
        assert!(rt; inner < plane.shape().pixels());
        assert_eq!(rt; plane.get(inner), Some(5));
        let last = plane.shape().pixels() - 1;
        assert_eq!(rt; plane.get(last), Some(9));
        assert!(rt; source.rest().is_empty());
    }
    Ok(())
}

// Two pixels of 64 bits.
const WIDE: Hdu = Hdu {
    bitpix: 64,
    data_bytes: 16,
    bzero: Whole::Is(0),
    blank: None,
    ..IMAGE
};

#[test]
fn values_of_64_bits_reach_the_bounds(rt: HostRuntime) -> Result<(), Fail> {
    let hdu = Hdu {
        blank: Some(Whole::Is(i64::MAX)),
        ..WIDE
    };
    let shape = check_image(&hdu)?;
    let bytes = [
        0xff, 0xff, 0xff, 0xf0, 0, 0, 0, 0, 0x7f, 0xff, 0xff, 0xff, 0xff, 0xff, 0xff, 0xff,
    ];
    let mut source = PlainSource::new(&bytes);
    let plane = read_plane(rt.alloc(), &mut source, &hdu, shape).expect(&rt, "a plane");
    assert_eq!(rt; plane.shape().pixels(), 2);
    assert_eq!(rt; plane.get(0), Some(-68_719_476_736));
    assert_eq!(rt; plane.shape().pixels(), 2);
    assert_eq!(rt; plane.get(1), None);
    Ok(())
}

#[test]
fn the_least_pixel_out_of_range_is_answered_at_the_end(rt: HostRuntime) -> Result<(), Fail> {
    let shape = check_image(&WIDE)?;
    // 2^36 + 1, and the least number of 64 bits
    let bytes = [0, 0, 0, 0x10, 0, 0, 0, 1, 0x80, 0, 0, 0, 0, 0, 0, 0, 9];
    let mut source = PlainSource::new(&bytes);
    assert!(rt;
        matches!(
            read_plane(rt.alloc(), &mut source, &WIDE, shape),
            Err(PlaneStop::Fault(PlaneFault::PixelRange {
                pixel: 0,
                stored: 68_719_476_737
            }))
        )
    );
    assert_eq!(rt; source.rest(), &[9][..]);
    let mut cut = PlainSource::new(&bytes[..15]);
    assert!(rt;
        matches!(
            read_plane(rt.alloc(), &mut cut, &WIDE, shape),
            Err(PlaneStop::Fault(PlaneFault::TruncatedData))
        )
    );
    Ok(())
}

// More bytes than are taken at once: those behind the ones at hand are taken too, and where they are cut that goes before.
#[test]
fn a_pixel_out_of_range_is_answered_behind_all_blocks(rt: HostRuntime) -> Result<(), Fail> {
    let hdu = Hdu {
        width: 2881,
        data_bytes: 23_048,
        ..WIDE
    };
    let shape = check_image(&hdu)?;
    let mut source = PlainSource::new(&[0x80; 23_049]);
    assert!(rt;
        matches!(
            read_plane(rt.alloc(), &mut source, &hdu, shape),
            Err(PlaneStop::Fault(PlaneFault::PixelRange {
                pixel: 0,
                stored: -9_187_201_950_435_737_472
            }))
        )
    );
    assert_eq!(rt; source.rest(), &[0x80][..]);
    let mut cut = PlainSource::new(&[0x80; 23_047]);
    assert!(rt;
        matches!(
            read_plane(rt.alloc(), &mut cut, &hdu, shape),
            Err(PlaneStop::Fault(PlaneFault::TruncatedData))
        )
    );
    Ok(())
}

#[test]
fn bzero_counts_for_the_range(rt: HostRuntime) -> Result<(), Fail> {
    let hdu = Hdu {
        bzero: Whole::Is(1),
        ..WIDE
    };
    let shape = check_image(&hdu)?;
    // 2^36 - 1, and 2^36
    let bytes = [
        0, 0, 0, 0x0f, 0xff, 0xff, 0xff, 0xff, 0, 0, 0, 0x10, 0, 0, 0, 0,
    ];
    let mut source = PlainSource::new(&bytes);
    assert!(rt;
        matches!(
            read_plane(rt.alloc(), &mut source, &hdu, shape),
            Err(PlaneStop::Fault(PlaneFault::PixelRange {
                pixel: 1,
                stored: 68_719_476_736
            }))
        )
    );
    Ok(())
}

// As many pixels as these limits allow, and one more; and the greatest value, and the next.
#[test]
fn other_limits_are_kept(rt: HostRuntime) -> Result<(), Fail> {
    let limits = Limits {
        pixels: 2,
        least: -8_589_934_592,
        greatest: 8_589_934_592,
    };
    let wider = Hdu {
        width: 3,
        data_bytes: 24,
        ..WIDE
    };
    assert!(rt; check_image(&wider).is_ok());
    assert!(rt;
        matches!(
            check_within(&wider, &limits),
            Err(ImageFault::ImageTooLarge)
        )
    );
    let shape = check_within(&WIDE, &limits)?;
    let bytes = [0, 0, 0, 2, 0, 0, 0, 0, 0, 0, 0, 2, 0, 0, 0, 1];
    let mut source = PlainSource::new(&bytes);
    assert!(rt;
        matches!(
            read_plane_within(rt.alloc(), &mut source, &WIDE, shape, &limits),
            Err(PlaneStop::Fault(PlaneFault::PixelRange {
                pixel: 1,
                stored: 8_589_934_593
            }))
        )
    );
    Ok(())
}

// So do those of numbers with fewer bits, where the limits leave out some of them.
#[test]
fn narrow_numbers_can_be_out_of_range(rt: HostRuntime) -> Result<(), Fail> {
    let hdu = Hdu {
        bitpix: 32,
        data_bytes: 8,
        bzero: Whole::Is(-1),
        ..WIDE
    };
    let limits = Limits {
        pixels: 2,
        least: -1,
        greatest: 255,
    };
    let shape = check_within(&hdu, &limits)?;
    // 256, and 257
    let bytes = [0, 0, 1, 0, 0, 0, 1, 1];
    let mut source = PlainSource::new(&bytes);
    assert!(rt;
        matches!(
            read_plane_within(rt.alloc(), &mut source, &hdu, shape, &limits),
            Err(PlaneStop::Fault(PlaneFault::PixelRange {
                pixel: 1,
                stored: 257
            }))
        )
    );
    Ok(())
}

// Also of 32 bits, where the limits are those of a large image.
#[test]
fn numbers_of_32_bits_can_be_out_of_range(rt: HostRuntime) -> Result<(), Fail> {
    let hdu = Hdu {
        bitpix: 32,
        data_bytes: 8,
        ..WIDE
    };
    let limits = Limits {
        pixels: 2,
        least: -536_870_912,
        greatest: 536_870_912,
    };
    let shape = check_within(&hdu, &limits)?;
    // 2^29, and 2^29 + 1
    let bytes = [0x20, 0, 0, 0, 0x20, 0, 0, 1];
    let mut source = PlainSource::new(&bytes);
    assert!(rt;
        matches!(
            read_plane_within(rt.alloc(), &mut source, &hdu, shape, &limits),
            Err(PlaneStop::Fault(PlaneFault::PixelRange {
                pixel: 1,
                stored: 536_870_913
            }))
        )
    );
    Ok(())
}

// One pixel more than usual; and a larger image holds fewer values.
#[test]
fn wide_limits_take_large_images(rt: HostRuntime) -> Result<(), Fail> {
    let hdu = Hdu {
        width: 16_385,
        height: 1_024,
        ..IMAGE
    };
    assert!(rt; matches!(check_image(&hdu), Err(ImageFault::ImageTooLarge)));
    let shape = check_within(&hdu, &Limits::wide())?;
    assert_eq!(rt; (shape.width, shape.height), (16_385, 1_024));
    let most = Hdu {
        width: 65_535,
        height: 32_769,
        ..IMAGE
    };
    assert!(rt;
        matches!(
            check_within(&most, &Limits::wide()),
            Err(ImageFault::ImageTooLarge)
        )
    );
    let usual = Limits::wide().narrowed(16_777_216);
    assert_eq!(rt;
        (usual.least, usual.greatest),
        (-68_719_476_736, 68_719_476_736)
    );
    let large = Limits::wide().narrowed(16_777_217);
    assert_eq!(rt; (large.least, large.greatest), (-536_870_912, 536_870_912));
    Ok(())
}
