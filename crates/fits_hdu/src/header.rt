//! Reading one header.
ghost use Rattle.std.specs.Prelude.{◌≡◌, ◌≤◌, ◌+◌, ◌==◌, ◌⊎◌, List, ℕ, Result, MatchResult, IfErr, IfOk, OnErr, IsTrue, IsErrOf, length, unwrap_or, ◌^◌, ◌&&◌, nat_lt, false};
ghost use Rattle.dev_io.specs.Causes.{Rose};
ghost use Rattle.dev_io.specs.Streams.{Takes, TakesAtMost};
ghost use Rattle.fits_hdu.specs.Headers.{header_at, axis_count, card_at, judged, kind_of};
ghost use Rattle.fits_hdu.specs.Kept.{kept_axes, kept_others, held};
ghost use Rattle.fits_hdu.specs.Sizes.{data_size};
ghost use Rattle.fits_hdu.specs.Streams.{Stopped, Finds};
ghost use Rattle.fits_hdu.specs.Reading.{stops_at_fault};
ghost use Rattle.fits_hdu.specs.Reading.{Caused, IsOfWholeHeader, CardsPassed, FirstRead, BitpixRead, NaxisRead, AxesRead, MandatoryRead, AxisRead, EndRead, NotThere};

use crate::answer::{Hdu, Kind};
use crate::axes::Axes;
use crate::cards::{axis, bitpix, is_beginning, is_end, is_first, is_image, naxis};
use crate::fault::{HduFault, HduStop};
use crate::others::Others;
use crate::stream::read_card;
use dev_io::{Source, fill, skip};
use fits_card::number::Whole;

const MOST_CARDS: u32 = 36_000;

const MOST_DATA: u64 = 1 << 40;

/// What the mandatory cards say.
#[derive(Clone, Copy)]
pub(crate) struct Mandatory {
    // XTENSION is the text `IMAGE`.
    image: bool,
    bitpix: i32,
    naxis: u16,
    axes: Axes,
}

/// A header up to its END.
#[derive(Clone, Copy)]
pub(crate) struct Ended {
    // END's number.
    number: u32,
    others: Others,
}

// The first card, and whether it says that the extension is an image.
fn read_first<S: Source>(src: &mut S, hdu: u16) -> Result<bool, HduStop>
    ensures told { (bytes : List ℕ) (start : ℕ) → Takes bytes (S.left src.old) start →
        MatchResult result
        (λ image. FirstRead bytes hdu start (S.left src.new) image)
        (λ stop. Stopped (header_at bytes hdu start) bytes (S.left src.new) stop) }
    ensures cause { IfErr result (Caused (NotThere (S.ended src.new) (S.left src.old) hdu)
        (S.ended src.new) (S.faults src.old) (S.faults src.new)) }
    ensures later { S.faults src.old ≤ S.faults src.new }
{
    let mut card = [0; 80];
    let count = match fill(src, &mut card) {
        Ok(count) => count,
        Err(_) => return Err(HduStop::ReadFault),
    };
    if !is_beginning(&card[..count], hdu == 0) {
        return Err(HduStop::Fault(if hdu == 0 {
            HduFault::NotFits
        } else {
            HduFault::NoSuchHdu
        }));
    }
    if count < 80 {
        return Err(HduStop::Fault(HduFault::TruncatedHeader));
    }
    if !is_first(&card, hdu == 0) {
        return Err(HduStop::Fault(HduFault::BadKeyword { hdu, card: 1 }));
    }
    Ok(is_image(&card))
}

fn read_bitpix<S: Source>(src: &mut S, hdu: u16) -> Result<i32, HduStop>
    ensures told { (bytes : List ℕ) (start : ℕ) → CardsPassed bytes hdu start (S.left src.old) 1 →
        MatchResult result
        (λ bitpix. BitpixRead bytes hdu start (S.left src.new) bitpix)
        (λ stop. Stopped (header_at bytes hdu start) bytes (S.left src.new) stop) }
    ensures cause { IfErr result
        (Caused ⊥ (S.ended src.new) (S.faults src.old) (S.faults src.new)) }
    ensures later { S.faults src.old ≤ S.faults src.new }
{
    let card = match read_card(src) {
        Ok(card) => card,
        Err(stop) => return Err(stop),
    };
    match bitpix(&card) {
        Some(bitpix) => Ok(bitpix),
        None => Err(HduStop::Fault(HduFault::BadKeyword { hdu, card: 2 })),
    }
}

fn read_naxis<S: Source>(src: &mut S, hdu: u16) -> Result<u16, HduStop>
    ensures told { (bytes : List ℕ) (start : ℕ) → CardsPassed bytes hdu start (S.left src.old) 2 →
        MatchResult result
        (λ naxis. NaxisRead bytes hdu start (S.left src.new) naxis)
        (λ stop. Stopped (header_at bytes hdu start) bytes (S.left src.new) stop) }
    ensures few { IfOk result (λ naxis. naxis ≤ 999) }
    ensures cause { IfErr result
        (Caused ⊥ (S.ended src.new) (S.faults src.old) (S.faults src.new)) }
    ensures later { S.faults src.old ≤ S.faults src.new }
{
    let card = match read_card(src) {
        Ok(card) => card,
        Err(stop) => return Err(stop),
    };
    match naxis(&card) {
        Some(naxis) => Ok(naxis),
        None => Err(HduStop::Fault(HduFault::BadKeyword { hdu, card: 3 })),
    }
}

// The length of this axis, from 1.
fn read_axis<S: Source>(src: &mut S, hdu: u16, number: u16) -> Result<u64, HduStop>
    requires first { 1 ≤ number }
    requires last { number ≤ 999 }
    ensures told { (bytes : List ℕ) (start : ℕ) →
        CardsPassed bytes hdu start (S.left src.old) (2 + number) →
        number ≤ axis_count (card_at bytes start) → MatchResult result
        (λ size. AxisRead bytes hdu start (S.left src.new) number size)
        (λ stop. Stopped (header_at bytes hdu start) bytes (S.left src.new) stop) }
    ensures cause { IfErr result
        (Caused ⊥ (S.ended src.new) (S.faults src.old) (S.faults src.new)) }
    ensures later { S.faults src.old ≤ S.faults src.new }
{
    let card = match read_card(src) {
        Ok(card) => card,
        Err(stop) => return Err(stop),
    };
    match axis(&card, number) {
        Some(size) => Ok(size),
        None => Err(HduStop::Fault(HduFault::BadKeyword {
            hdu,
            card: 3 + u32::from(number),
        })),
    }
}

fn read_axes<S: Source>(src: &mut S, hdu: u16, naxis: u16) -> Result<Axes, HduStop>
    requires { naxis ≤ 999 }
    ensures told { (bytes : List ℕ) (start : ℕ) → CardsPassed bytes hdu start (S.left src.old) 3 →
        axis_count (card_at bytes start) ≡ naxis → MatchResult result
        (λ axes. AxesRead bytes hdu start (S.left src.new) naxis axes)
        (λ stop. Stopped (header_at bytes hdu start) bytes (S.left src.new) stop) }
    ensures cause { IfErr result
        (Caused ⊥ (S.ended src.new) (S.faults src.old) (S.faults src.new)) }
    ensures later { S.faults src.old ≤ S.faults src.new }
{
    let mut axes = Axes::none();
    for count in 0..naxis {
        let size = match read_axis(src, hdu, count + 1) {
            Ok(size) => size,
            Err(stop) => return Err(stop),
        };
        axes = axes.with(count, size);
    }
    Ok(axes)
}

// The mandatory cards.
fn read_mandatory<S: Source>(src: &mut S, hdu: u16) -> Result<Mandatory, HduStop>
    ensures told { (bytes : List ℕ) (start : ℕ) → Takes bytes (S.left src.old) start →
        MatchResult result
        (λ cards. MandatoryRead bytes hdu start (S.left src.new) cards)
        (λ stop. Stopped (header_at bytes hdu start) bytes (S.left src.new) stop) }
    ensures few { IfOk result (λ cards. cards.naxis ≤ 999) }
    ensures cause { IfErr result (Caused (NotThere (S.ended src.new) (S.left src.old) hdu)
        (S.ended src.new) (S.faults src.old) (S.faults src.new)) }
    ensures later { S.faults src.old ≤ S.faults src.new }
{
    let image = match read_first(src, hdu) {
        Ok(image) => image,
        Err(stop) => return Err(stop),
    };
    let bitpix = match read_bitpix(src, hdu) {
        Ok(bitpix) => bitpix,
        Err(stop) => return Err(stop),
    };
    let naxis = match read_naxis(src, hdu) {
        Ok(naxis) => naxis,
        Err(stop) => return Err(stop),
    };
    match read_axes(src, hdu, naxis) {
        Ok(axes) => Ok(Mandatory {
            image,
            bitpix,
            naxis,
            axes,
        }),
        Err(stop) => Err(stop),
    }
}

// The cards after the mandatory ones, up to END.
fn read_others<S: Source>(src: &mut S, hdu: u16, naxis: u16) -> Result<Ended, HduStop>
    requires { naxis ≤ 999 }
    ensures told { (bytes : List ℕ) (start : ℕ) →
        CardsPassed bytes hdu start (S.left src.old) (3 + naxis) →
        axis_count (card_at bytes start) ≡ naxis → MatchResult result
        (λ ended. EndRead bytes hdu start (S.left src.new) ended)
        (λ stop. Stopped (header_at bytes hdu start) bytes (S.left src.new) stop) }
    ensures few { IfOk result (λ ended. ended.number ≤ 36000) }
    ensures cause { IfErr result
        (Caused ⊥ (S.ended src.new) (S.faults src.old) (S.faults src.new)) }
    ensures later { S.faults src.old ≤ S.faults src.new }
{
    let mut others = Others::none();
    for number in 4 + u32::from(naxis)..MOST_CARDS + 1 {
        let card = match read_card(src) {
            Ok(card) => card,
            Err(stop) => return Err(stop),
        };
        if others.is_bad(hdu == 0, &card) {
            return Err(HduStop::Fault(HduFault::BadKeyword { hdu, card: number }));
        }
        if is_end(&card) {
            return Ok(Ended { number, others });
        }
        others = others.with(&card);
    }
    Err(HduStop::Fault(HduFault::HeaderTooLong))
}

fn size_of(hdu: u16, cards: &Mandatory, others: &Others) -> u64
    ensures { (axes : List ℕ) → length axes ≡ cards.now.naxis → cards.now.axes ≡ kept_axes axes →
        result ≡ held (data_size (hdu == 0) cards.now.bitpix axes (unwrap_or others.now.pcount 0)
        (unwrap_or others.now.gcount 1)) }
{
    if cards.naxis == 0 {
        return 0;
    }
    let number_bytes = u64::from(cards.bitpix.unsigned_abs() / 8);
    if hdu == 0 {
        return cards.axes.product.saturating_mul(number_bytes);
    }
    let group = cards
        .axes
        .product
        .saturating_add(others.pcount.unwrap_or(0));
    group
        .saturating_mul(others.gcount.unwrap_or(1))
        .saturating_mul(number_bytes)
}

fn kind_of(hdu: u16, image: bool, others: &Others) -> Kind
    ensures { result ≡
        kind_of (hdu == 0) image (unwrap_or others.now.pcount 0) (unwrap_or others.now.gcount 1) }
{
    if hdu == 0 {
        return Kind::Primary;
    }
    if image && (others.pcount.unwrap_or(0) == 0 && others.gcount.unwrap_or(1) == 1) {
        Kind::Image
    } else {
        Kind::Other
    }
}

// Random groups: the first axis is 0, and GROUPS is T.
fn is_groups(hdu: u16, cards: &Mandatory, others: &Others) -> bool
    ensures { result ≡ (hdu == 0 && (nat_lt 0 cards.now.naxis &&
        (cards.now.axes.width == 0 && unwrap_or others.now.groups false))) }
{
    hdu == 0 && (cards.naxis > 0 && (cards.axes.width == 0 && others.groups.unwrap_or(false)))
}

// The HDU of a whole header.
fn judge(hdu: u16, cards: &Mandatory, others: &Others) -> Result<Hdu, HduStop>
    ensures told { (axes : List ℕ) (after : List (List ℕ)) → length axes ≡ cards.now.naxis →
        cards.now.axes ≡ kept_axes axes → others.now ≡ kept_others after →
        result ≡ stops_at_fault (judged (hdu == 0) cards.now.image cards.now.bitpix axes after) }
    ensures fault { IfErr result IsOfWholeHeader }
{
    if is_groups(hdu, cards, others) {
        return Err(HduStop::Fault(HduFault::Groups));
    }
    let data_bytes = size_of(hdu, cards, others);
    if data_bytes > MOST_DATA {
        return Err(HduStop::Fault(HduFault::DataTooLong));
    }
    Ok(Hdu {
        kind: kind_of(hdu, cards.image, others),
        bitpix: cards.bitpix,
        naxis: cards.naxis,
        width: cards.axes.width,
        height: cards.axes.height,
        flat: cards.axes.flat,
        data_bytes,
        bscale: others.bscale.unwrap_or(Whole::Is(1)),
        bzero: others.bzero.unwrap_or(Whole::Is(0)),
        blank: others.blank,
    })
}

/// The header of this HDU up to the end of its last block.
pub(crate) fn read_header<S: Source>(src: &mut S, hdu: u16) -> Result<Hdu, HduStop>
    ensures told { (bytes : List ℕ) (start : ℕ) → Takes bytes (S.left src.old) start →
        Finds (header_at bytes hdu start) bytes (S.left src.new) result }
    ensures cause { IfErr result (Caused (NotThere (S.ended src.new) (S.left src.old) hdu)
        (S.ended src.new) (S.faults src.old) (S.faults src.new)) }
    ensures later { S.faults src.old ≤ S.faults src.new }
{
    let cards = match read_mandatory(src, hdu) {
        Ok(cards) => cards,
        Err(stop) => return Err(stop),
    };
    let ended = match read_others(src, hdu, cards.naxis) {
        Ok(ended) => ended,
        Err(stop) => return Err(stop),
    };
    let blocks = (ended.number + 35) / 36;
    match skip(src, u64::from(blocks * 36 - ended.number) * 80) {
        Ok(true) => judge(hdu, &cards, &ended.others),
        Ok(false) => Err(HduStop::Fault(HduFault::TruncatedHeader)),
        Err(_) => Err(HduStop::ReadFault),
    }
}
