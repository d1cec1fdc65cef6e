//! Why no HDU is found: the faults of the bytes, with their numbers and names, and beside them a source that fails.
ghost use Rattle.std.specs.Prelude.{◌≡◌, ◌≤◌, length};
ghost use Rattle.fits_hdu.specs.Faults.{hdu_fault_number, hdu_fault_name, hdu_fault_place};

use thiserror::Error;

/// The first fault in the order of the bytes. Each has a number and a name, by which the notes of a program call it.
#[derive(Clone, Copy, Debug, PartialEq, Eq, Error)]
pub enum HduFault {
    /// The first 8 bytes aren't `SIMPLE` and two spaces.
    #[error("not a FITS file")]
    NotFits,
    /// The input ended inside a header, before the end of its last block.
    #[error("the input ends inside a header")]
    TruncatedHeader,
    /// At this place, counted from 1, another card than the mandatory one stands, or one with a value that it may not have. For an extension also
    /// a PCOUNT or GCOUNT that counts, with something else than an integer from 0.
    #[error("card {card} of HDU {hdu} isn't the card that belongs there")]
    BadKeyword { hdu: u16, card: u32 },
    /// None of the first 36,000 cards is END.
    #[error("a header has more than 36000 cards")]
    HeaderTooLong,
    /// The primary HDU holds random groups.
    #[error("random groups aren't read")]
    Groups,
    /// An HDU has more than 2^40 bytes of data.
    #[error("an HDU has more than 2^40 bytes of data")]
    DataTooLong,
    /// The input ended before the HDU or in the padding before it, or other bytes than `XTENSION` stand there.
    #[error("there is no HDU with this number")]
    NoSuchHdu,
    /// The input ended inside the data of an HDU that is skipped.
    #[error("the input ends inside the data of an HDU")]
    TruncatedSkip,
}

/// Where a card stands that is at fault.
#[derive(Clone, Copy, Debug, PartialEq, Eq)]
pub struct CardPlace {
    /// The number of its HDU, from 0.
    pub hdu: u16,
    /// Its own number in the header, from 1.
    pub card: u32,
}

impl HduFault {
    /// Its number, from 1 to 8.
    pub fn number(self) -> u8
        ensures { result ≡ hdu_fault_number self }
    {
        match self {
            HduFault::NotFits => 1,
            HduFault::TruncatedHeader => 2,
            HduFault::BadKeyword { .. } => 3,
            HduFault::HeaderTooLong => 4,
            HduFault::Groups => 5,
            HduFault::DataTooLong => 6,
            HduFault::NoSuchHdu => 7,
            HduFault::TruncatedSkip => 8,
        }
    }

    /// Its name.
    pub fn name(self) -> &'static str
        ensures name { result.now ≡ hdu_fault_name self }
        ensures short { length result.now ≤ 15 }
    {
        match self {
            HduFault::NotFits => "NotFits",
            HduFault::TruncatedHeader => "TruncatedHeader",
            HduFault::BadKeyword { .. } => "BadKeyword",
            HduFault::HeaderTooLong => "HeaderTooLong",
            HduFault::Groups => "Groups",
            HduFault::DataTooLong => "DataTooLong",
            HduFault::NoSuchHdu => "NoSuchHdu",
            HduFault::TruncatedSkip => "TruncatedSkip",
        }
    }

    /// The card at fault, if it is one's fault.
    pub fn place(self) -> Option<CardPlace>
        ensures { result ≡ hdu_fault_place self }
    {
        match self {
            HduFault::BadKeyword { hdu, card } => Some(CardPlace { hdu, card }),
            _ => None,
        }
    }
}

/// Why no HDU is found: the bytes have a fault, or the source failed.
#[derive(Clone, Copy, Debug, PartialEq, Eq, Error)]
pub enum HduStop {
    #[error("{0}")]
    Fault(HduFault),
    #[error("a read failed")]
    ReadFault,
}
