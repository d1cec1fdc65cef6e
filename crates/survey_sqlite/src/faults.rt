//! How a keeper counts its faults. Want of memory is none.
ghost use Rattle.std.specs.Prelude.{◌≡◌, ◌≤◌};
ghost use Rattle.dev_io.specs.Causes.{Rose};

use crate::reading::Unread;
use crate::shown::Unshown;
use sqlite::{Error, ErrorCode};
use survey_core::Refused;

/// Counts a fault.
fn fault(faults: &mut u64) -> Refused
    ensures later { faults.old ≤ faults.new }
    ensures rose { Rose faults.old faults.new }
{
    *faults = faults.saturating_add(1);
    Refused::Fault
}

/// Counts what the database refused, if not for want of memory.
pub(crate) fn refused(faults: &mut u64, error: Error) -> Refused
    ensures later { faults.old ≤ faults.new }
    ensures rose { result ≡ Refused.Fault → Rose faults.old faults.new }
{
    if matches!(error, Error::SqliteFailure(ErrorCode::OutOfMemory)) {
        return Refused::OutOfMemory;
    }
    fault(faults)
}

// Counts rows that can't be read, if not for want of memory.
fn unread(faults: &mut u64, why: Unread) -> Refused
    ensures later { faults.old ≤ faults.new }
    ensures rose { result ≡ Refused.Fault → Rose faults.old faults.new }
{
    match why {
        Unread::OutOfMemory => Refused::OutOfMemory,
        Unread::Malformed => fault(faults),
    }
}

/// Counts what isn't shown, if not for want of memory.
pub(crate) fn unshown(faults: &mut u64, why: Unshown) -> Refused
    ensures later { faults.old ≤ faults.new }
    ensures rose { result ≡ Refused.Fault → Rose faults.old faults.new }
{
    match why {
        Unshown::Refused(error) => refused(faults, error),
        Unshown::Unread(why) => unread(faults, why),
    }
}
