//! The sums over the pixels of one node.

ghost use Rattle.std.specs.Prelude.{◌≡◌, [], ◌≤◌};
ghost use Rattle.comp_tree.specs.Limits.{IsWithinRange};
ghost use Rattle.comp_tree.specs.Raster.{Raster};
ghost use Rattle.node_sums.specs.Sums.{sums_over};
ghost use Rattle.node_sums.specs.Sizes.{HasSizes};
ghost use Rattle.node_sums.specs.Merging.{together, sums_at_place};

/// Sums over the pixels of a node's component, from which area, flux, centre and shape follow: attributes of a max-tree's
/// node (Salembier, Oliveras and Garrido 1998). As in FITS, x and y count columns and rows from 1.
#[derive(Clone, Copy, PartialEq, Eq, Debug)]
pub struct Sums {
    /// The number of pixels.
    pub area: u32,
    /// The sum of their values.
    pub r: i64,
    /// The sums of x, y, x * x, x * y and y * y.
    pub x: u64,
    pub y: u64,
    pub xx: u64,
    pub xy: u64,
    pub yy: u64,
    /// The sums of value * x and value * y.
    pub rx: i128,
    pub ry: i128,
    /// The least and the greatest x.
    pub xmin: u32,
    pub xmax: u32,
    pub ymin: u32,
    pub ymax: u32,
    /// The least pixel.
    pub first: u32,
    /// The greatest value.
    pub peak: i64,
}

impl Sums {
    // The sums over no pixel.
    #[tactic(auto, unfolding(crate::specs::Sums::sums_over))]
    pub(crate) fn none() -> Sums
        ensures { (r : Raster) → result ≡ sums_over r [] }
    {
        Sums {
            area: 0,
            r: 0,
            x: 0,
            y: 0,
            xx: 0,
            xy: 0,
            yy: 0,
            rx: 0,
            ry: 0,
            xmin: u32::MAX,
            xmax: 0,
            ymin: u32::MAX,
            ymax: 0,
            first: u32::MAX,
            peak: i64::MIN,
        }
    }

    // The sums over one pixel `p` in column `x` and row `y`, both from 1, which has this value.
    pub(crate) fn of_pixel(x: u32, y: u32, p: u32, value: i64) -> Sums
        requires column { x ≤ 65535 }
        requires row { y ≤ 65535 }
        requires value { IsWithinRange value }
        ensures { result ≡ sums_at_place x y p value }
    {
        Sums {
            area: 1,
            r: value,
            x: x as u64,
            y: y as u64,
            xx: x as u64 * x as u64,
            xy: x as u64 * y as u64,
            yy: y as u64 * y as u64,
            rx: value as i128 * x as i128,
            ry: value as i128 * y as i128,
            xmin: x,
            xmax: x,
            ymin: y,
            ymax: y,
            first: p,
            peak: value,
        }
    }

    // The sums over two sets of pixels that share none.
    pub(crate) fn together(&self, other: &Sums) -> Sums
        requires { HasSizes (together self.now other.now) }
        ensures { result ≡ together self.now other.now }
    {
        Sums {
            area: self.area + other.area,
            r: self.r + other.r,
            x: self.x + other.x,
            y: self.y + other.y,
            xx: self.xx + other.xx,
            xy: self.xy + other.xy,
            yy: self.yy + other.yy,
            rx: self.rx + other.rx,
            ry: self.ry + other.ry,
            xmin: self.xmin.min(other.xmin),
            xmax: self.xmax.max(other.xmax),
            ymin: self.ymin.min(other.ymin),
            ymax: self.ymax.max(other.ymax),
            first: self.first.min(other.first),
            peak: self.peak.max(other.peak),
        }
    }
}
