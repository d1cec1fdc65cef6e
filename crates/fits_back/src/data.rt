//! The data of an HDU, which zero bytes fill to whole blocks.
ghost use Rattle.std.specs.Prelude.{◌≡◌, ◌++◌, length, MatchOption};
ghost use Rattle.fits_write.specs.Blocks.{filled};
ghost use Rattle.fits_back.specs.Fronts.{BeginsWithNoData};

use crate::front::strip_fill;

/// The bytes of data, and what stands behind their blocks.
#[derive(Drop)]
pub(crate) struct SplitData<'a> {
    pub(crate) bytes: &'a [u8],
    pub(crate) rest: &'a [u8],
}

/// Takes apart data of `len` bytes at the front of these, if zero bytes fill it to whole blocks.
pub(crate) fn split_data(bytes: &[u8], len: usize) -> Option<SplitData<'_>>
    ensures { MatchOption result (BeginsWithNoData len bytes.now)
        (λ split. (bytes.now ≡ filled 0 split.bytes.now ++ split.rest.now) × (length split.bytes.now ≡ len)) }
{
    if bytes.len() < len {
        return None;
    }
    let (data, behind) = bytes.split_at(len);
    let Some(rest) = strip_fill(behind, 0, len) else {
        return None
    };
    Some(SplitData { bytes: data, rest })
}
