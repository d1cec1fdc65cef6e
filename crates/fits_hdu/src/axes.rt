//! The axes, of which no array is kept.
ghost use Rattle.std.specs.Prelude.{◌≡◌, List, ℕ, [], ◌∷◌, ◌++◌, length};
ghost use Rattle.fits_hdu.specs.Kept.{kept_axes};

/// What is kept of the axes that were read.
#[derive(Clone, Copy)]
pub(crate) struct Axes {
    pub(crate) width: u64,
    pub(crate) height: u64,
    pub(crate) flat: bool,
    /// Up to the last number of 64 bits. A later 0 makes it 0 all the same.
    pub(crate) product: u64,
}

impl Axes {
    pub(crate) fn none() -> Axes
        ensures { result ≡ kept_axes [] }
    {
        Axes {
            width: 0,
            height: 0,
            flat: true,
            product: 1,
        }
    }

    /// With one more axis, after so many.
    pub(crate) fn with(&self, count: u16, size: u64) -> Axes
        ensures { (axes : List ℕ) → length axes ≡ count → self.now ≡ kept_axes axes → result ≡
            kept_axes (axes ++ size ∷ []) }
    {
        let product = self.product.saturating_mul(size);
        match count {
            0 => Axes {
                width: size,
                height: 0,
                flat: true,
                product,
            },
            1 => Axes {
                width: self.width,
                height: size,
                flat: true,
                product,
            },
            _ => Axes {
                width: self.width,
                height: self.height,
                flat: self.flat && size == 1,
                product,
            },
        }
    }
}
