//! The words of `measure` alone.
ghost use Rattle.std.specs.Prelude.{◌≡◌, IfOk};
ghost use Rattle.command_line.specs.Lines.{texts};
ghost use Rattle.measure_top.specs.MeasureOrders.{measure_order_of, IsMeasureOrder};

use orders::{Job, Order, Usage, read_order};

/// An order to detect in one HDU and to measure in another of the same file.
#[derive(Clone, Copy, Debug, PartialEq, Eq)]
pub struct MeasureOrder {
    /// The order to detect.
    pub order: Order,
    /// The number of the HDU that holds the values, from 0.
    pub values: u16,
}

/// Reads words that ask for measuring; with any other command the first is at fault. The options are those of detection and the HDU of the values,
/// which isn't that of detection. It takes no memory.
pub fn read_measure(words: &[&str]) -> Result<MeasureOrder, Usage>
    ensures order { result ≡ measure_order_of (texts words.now) }
    ensures limits { IfOk result IsMeasureOrder }
{
    let order = match read_order(words) {
        Ok(order) => order,
        Err(usage) => return Err(usage),
    };
    match order.job {
        Job::Measure { choice, values } => Ok(MeasureOrder {
            order: Order {
                job: Job::Detect { choice },
                ..order
            },
            values,
        }),
        Job::Tree | Job::Filter { .. } | Job::Detect { .. } | Job::Trial { .. } => {
            Err(Usage { word: 1 })
        }
    }
}
