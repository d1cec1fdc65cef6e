//! What an HDU is, as its header says.

use fits_card::number::Whole;

#[derive(Clone, Copy, Debug, PartialEq, Eq)]
pub enum Kind {
    Primary,
    /// An image extension, with PCOUNT 0 and GCOUNT 1.
    Image,
    Other,
}

/// What the header of an HDU says (FITS Standard 4.0, section 4.4).
#[derive(Clone, Copy, Debug, PartialEq, Eq)]
pub struct Hdu {
    pub kind: Kind,
    /// 8, 16, 32, 64, -32 or -64; its size is the number of bits of one stored number.
    pub bitpix: i32,
    /// The number of axes, up to 999.
    pub naxis: u16,
    /// NAXIS1, or 0 with no axis.
    pub width: u64,
    /// NAXIS2, or 0 with fewer than two axes.
    pub height: u64,
    /// Every axis past the second is 1.
    pub flat: bool,
    /// The size of the data without its padding, up to 2^40.
    pub data_bytes: u64,
    /// As the first card with a value has it; 1 without one.
    pub bscale: Whole,
    /// As the first card with a value has it; 0 without one.
    pub bzero: Whole,
    /// As the first card with a value has it.
    pub blank: Option<Whole>,
}
