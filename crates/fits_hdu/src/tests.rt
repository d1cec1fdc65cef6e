ghost use Rattle.std.specs.Prelude.{◌<◌};

use super::*;
use dev_io::{MemSource, PlainSource};
use fits_card::number::Whole;
use fits_card::{Card, end_card, int_card, logical_card};
use std::alloc::{AllocError, Global};
use std::test::Fail;

const MOST: i64 = i64::MAX;

// A card with this text.
fn card_of(text: &[u8]) -> Card {
    let mut card = [b' '; 80];
    let n = text.len().min(80);
    card[..n].copy_from_slice(&text[..n]);
    card
}

// The cards, and then so many cards of spaces.
fn header_of(alloc: Global, cards: &[Card], blanks: u32) -> Result<Vec<u8>, AllocError> {
    let mut bytes = Vec::new(alloc);
    for card in cards {
        bytes.extend_from_slice(card)?;
    }
    for _ in 0..blanks {
        bytes.extend_from_slice(&[b' '; 80])?;
    }
    Ok(bytes)
}

// The HDU and how many bytes are left.
fn find(bytes: &[u8], number: u16) -> (Result<Hdu, HduStop>, usize) {
    let mut source = PlainSource::new(bytes);
    let found = find_hdu(&mut source, number);
    (found, source.rest().len())
}

// The HDU with this number after an extension with three bytes of data, which were taken, and how many bytes are left.
fn go_on(bytes: &[u8], number: u16) -> (Result<Hdu, HduStop>, usize)
    requires { 1 < number }
{
    let mut source = PlainSource::new(bytes);
    let found = find_after(&mut source, &image_row(), 1, number);
    (found, source.rest().len())
}

// An image extension of three pixels in one row.
fn image_row() -> Hdu {
    Hdu {
        kind: Kind::Image,
        bitpix: 8,
        naxis: 2,
        width: 3,
        height: 1,
        flat: true,
        data_bytes: 3,
        bscale: Whole::Is(1),
        bzero: Whole::Is(0),
        blank: None,
    }
}

// Its header up to END.
fn extension() -> [Card; 8] {
    [
        card_of(b"XTENSION= 'IMAGE   '"),
        bitpix(8),
        naxis(2),
        axis(b'1', 3),
        axis(b'2', 1),
        int_card(b"PCOUNT  ", 0),
        int_card(b"GCOUNT  ", 1),
        end_card(),
    ]
}

fn simple() -> Card {
    logical_card(b"SIMPLE  ", true)
}

fn bitpix(value: i64) -> Card {
    int_card(b"BITPIX  ", value)
}

fn naxis(value: i64) -> Card {
    int_card(b"NAXIS   ", value)
}

fn axis(digit: u8, value: i64) -> Card {
    int_card(&[b'N', b'A', b'X', b'I', b'S', digit, b' ', b' '], value)
}

#[test]
fn an_image_is_found(rt: HostRuntime) -> Result<(), Fail> {
    let bzero = int_card(b"BZERO   ", 5);
    let later = int_card(b"BZERO   ", 7);
    let cards = [
        simple(),
        bitpix(8),
        naxis(2),
        axis(b'1', 3),
        axis(b'2', 1),
        bzero,
        later,
        end_card(),
    ];
    let bytes = header_of(rt.alloc(), &cards, 29)?;
    let hdu = Hdu {
        kind: Kind::Primary,
        bitpix: 8,
        naxis: 2,
        width: 3,
        height: 1,
        flat: true,
        data_bytes: 3,
        bscale: Whole::Is(1),
        bzero: Whole::Is(5),
        blank: None,
    };
    assert_eq!(rt; find(&bytes, 0), (Ok(hdu), 80));
    Ok(())
}

#[test]
fn a_late_axis_of_0_has_no_data(rt: HostRuntime) -> Result<(), Fail> {
    let cards = [
        simple(),
        bitpix(8),
        naxis(4),
        axis(b'1', MOST),
        axis(b'2', MOST),
        axis(b'3', MOST),
        axis(b'4', 0),
        end_card(),
    ];
    let bytes = header_of(rt.alloc(), &cards, 28)?;
    let hdu = Hdu {
        kind: Kind::Primary,
        bitpix: 8,
        naxis: 4,
        width: 9223372036854775807,
        height: 9223372036854775807,
        flat: false,
        data_bytes: 0,
        bscale: Whole::Is(1),
        bzero: Whole::Is(0),
        blank: None,
    };
    assert_eq!(rt; find(&bytes, 0), (Ok(hdu), 0));
    Ok(())
}

#[test]
fn headers_are_refused(rt: HostRuntime) -> Result<(), Fail> {
    let end = end_card();
    let groups = logical_card(b"GROUPS  ", true);
    let rows: [(&[Card], u32, HduFault, usize); 8] = [
        (&[], 0, HduFault::NotFits, 0),
        (
            &[simple(), bitpix(8), naxis(2), axis(b'1', 3), axis(b'2', 1)],
            31,
            HduFault::TruncatedHeader,
            0,
        ),
        (
            &[logical_card(b"SIMPLE  ", false), end],
            34,
            HduFault::BadKeyword { hdu: 0, card: 1 },
            2800,
        ),
        (
            &[simple(), naxis(2), end],
            33,
            HduFault::BadKeyword { hdu: 0, card: 2 },
            2720,
        ),
        (
            &[
                simple(),
                bitpix(16),
                naxis(2),
                axis(b'1', 1048576),
                axis(b'2', 1048576),
                end,
            ],
            30,
            HduFault::DataTooLong,
            0,
        ),
        (
            &[
                simple(),
                bitpix(8),
                naxis(3),
                axis(b'1', MOST),
                axis(b'2', MOST),
                axis(b'3', MOST),
                end,
            ],
            29,
            HduFault::DataTooLong,
            0,
        ),
        (
            &[simple(), bitpix(8), naxis(0)],
            36000,
            HduFault::HeaderTooLong,
            240,
        ),
        (
            &[simple(), bitpix(8), naxis(1), axis(b'1', 0), groups, end],
            30,
            HduFault::Groups,
            0,
        ),
    ];
    for (cards, blanks, fault, rest) in rows {
        let bytes = header_of(rt.alloc(), cards, blanks)?;
        assert_eq!(rt; find(&bytes, 0), (Err(HduStop::Fault(fault)), rest));
    }
    Ok(())
}

// One byte more than 2^40, and twice 2^40, which two sides of 2^20 alone don't pass.
#[test]
fn too_many_bytes_of_data_are_refused(rt: HostRuntime) -> Result<(), Fail> {
    let long = [
        simple(),
        bitpix(8),
        naxis(1),
        axis(b'1', 1099511627777),
        end_card(),
    ];
    let bytes = header_of(rt.alloc(), &long, 31)?;
    assert_eq!(rt;
        find(&bytes, 0),
        (Err(HduStop::Fault(HduFault::DataTooLong)), 0)
    );
    let deep = [
        simple(),
        bitpix(8),
        naxis(3),
        axis(b'1', 1048576),
        axis(b'2', 1048576),
        axis(b'3', 2),
        end_card(),
    ];
    let bytes = header_of(rt.alloc(), &deep, 29)?;
    assert_eq!(rt;
        find(&bytes, 0),
        (Err(HduStop::Fault(HduFault::DataTooLong)), 0)
    );
    Ok(())
}

// 2^40 bytes are not too many.
#[test]
fn the_greatest_data_are_accepted(rt: HostRuntime) -> Result<(), Fail> {
    let most = [
        simple(),
        bitpix(8),
        naxis(1),
        axis(b'1', 1099511627776),
        end_card(),
    ];
    let bytes = header_of(rt.alloc(), &most, 31)?;
    match find(&bytes, 0) {
        (Ok(hdu), _) => assert_eq!(rt; hdu.data_bytes, 1099511627776),
        (Err(stop), _) => assert_eq!(rt; Some(stop), None),
    }
    Ok(())
}

#[test]
fn a_failing_source_is_no_cut_header(rt: HostRuntime) -> Result<(), Fail> {
    let bytes = header_of(rt.alloc(), &[simple(), bitpix(8)], 0)?;
    for fails in [[1], [2]] {
        let mut source = MemSource::new(&bytes, 80, &fails);
        assert_eq!(rt; find_hdu(&mut source, 0), Err(HduStop::ReadFault));
    }
    Ok(())
}

#[test]
fn faults_have_numbers_and_names(rt: HostRuntime) -> Result<(), Fail> {
    let fault = HduFault::BadKeyword { hdu: 1, card: 4 };
    assert_eq!(rt; fault.number(), 3);
    assert_eq!(rt; fault.name(), "BadKeyword");
    assert_eq!(rt; fault.place(), Some(CardPlace { hdu: 1, card: 4 }));
    assert_eq!(rt; HduFault::TruncatedSkip.place(), None);
    Ok(())
}

#[test]
fn a_bad_axis_is_named_by_its_card(rt: HostRuntime) -> Result<(), Fail> {
    let cards = [
        simple(),
        bitpix(8),
        naxis(1),
        card_of(b"NAXIS1  = 'x'"),
        end_card(),
    ];
    let bytes = header_of(rt.alloc(), &cards, 31)?;
    assert_eq!(rt;
        find(&bytes, 0),
        (
            Err(HduStop::Fault(HduFault::BadKeyword { hdu: 0, card: 4 })),
            2560
        )
    );
    Ok(())
}

#[test]
fn later_hdus_are_found(rt: HostRuntime) -> Result<(), Fail> {
    let alloc = rt.alloc();
    let pcount = int_card(b"PCOUNT  ", 0);
    let gcount = int_card(b"GCOUNT  ", 1);
    let image = card_of(b"XTENSION= 'IMAGE   '");
    let hierarch = card_of(b"HIERARCH ESO DET = 1");
    let extension = [
        image,
        bitpix(8),
        naxis(2),
        axis(b'1', 3),
        axis(b'2', 1),
        pcount,
        gcount,
        hierarch,
        end_card(),
    ];
    let mut bytes = header_of(
        alloc,
        &[
            simple(),
            bitpix(8),
            naxis(0),
            card_of(b"COMMENT a file"),
            end_card(),
        ],
        31,
    )?;
    bytes.extend_from_slice(&header_of(alloc, &extension, 27)?)?;
    bytes.extend_from_slice(&[1, 2])?;
    assert_eq!(rt; find(&bytes, 1), (Ok(image_row()), 2));
    assert_eq!(rt;
        find(&bytes, 2),
        (Err(HduStop::Fault(HduFault::TruncatedSkip)), 0)
    );
    bytes.extend_from_slice(&[1])?;
    assert_eq!(rt;
        find(&bytes, 2),
        (Err(HduStop::Fault(HduFault::NoSuchHdu)), 0)
    );
    Ok(())
}

#[test]
fn a_count_below_0_is_refused(rt: HostRuntime) -> Result<(), Fail> {
    let alloc = rt.alloc();
    let mut bytes = header_of(alloc, &[simple(), bitpix(8), naxis(0), end_card()], 32)?;
    let pcount = int_card(b"PCOUNT  ", -1);
    let extension = header_of(
        alloc,
        &[
            card_of(b"XTENSION= 'IMAGE   '"),
            bitpix(8),
            naxis(0),
            pcount,
            end_card(),
        ],
        31,
    )?;
    bytes.extend_from_slice(&extension)?;
    assert_eq!(rt;
        find(&bytes, 1),
        (
            Err(HduStop::Fault(HduFault::BadKeyword { hdu: 1, card: 4 })),
            2560
        )
    );
    Ok(())
}

#[test]
fn the_search_goes_on(rt: HostRuntime) -> Result<(), Fail> {
    let alloc = rt.alloc();
    let header = header_of(alloc, &extension(), 28)?;
    let mut bytes = Vec::new(alloc);
    bytes.resize(2877, 0)?;
    assert_eq!(rt;
        go_on(&bytes, 3),
        (Err(HduStop::Fault(HduFault::NoSuchHdu)), 0)
    );
    bytes.extend_from_slice(&header)?;
    bytes.extend_from_slice(&[1, 2, 3])?;
    assert_eq!(rt; go_on(&bytes, 2), (Ok(image_row()), 3));
    bytes.resize(8637, 0)?;
    let later = header_of(alloc, &[card_of(b"XTENSION= 'IMAGE   '"), bitpix(7)], 34)?;
    bytes.extend_from_slice(&later)?;
    assert_eq!(rt;
        go_on(&bytes, 3),
        (
            Err(HduStop::Fault(HduFault::BadKeyword { hdu: 3, card: 2 })),
            2720
        )
    );
    Ok(())
}

#[test]
fn an_end_in_the_padding_is_no_hdu(rt: HostRuntime) -> Result<(), Fail> {
    assert_eq!(rt;
        go_on(&[0; 2876], 2),
        (Err(HduStop::Fault(HduFault::NoSuchHdu)), 0)
    );
    Ok(())
}
