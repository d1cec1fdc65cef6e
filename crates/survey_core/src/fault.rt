//! Why a command stops.
ghost use Rattle.std.specs.Prelude.{◌≡◌, ◌≤◌, length};
ghost use Rattle.survey_core.specs.Faults.{survey_fault_number, survey_fault_name, survey_fault_place};
ghost use Rattle.survey_core.specs.Stops.{survey_stop_at_hdu, stop_at_keeper};

use crate::Refused;
use fits_hdu::{CardPlace, HduFault, HduStop};

/// The first fault of a session. Each has a number and a name, by which the notes call it.
#[derive(Clone, Copy, Debug, PartialEq, Eq)]
pub enum Fault {
    /// There is no HDU 2.
    Hdu(HduFault),
    /// HDU 2 isn't a table with rows of the catalogue's size and nothing behind them.
    NotCatalogue,
    /// There are more than 2^20 rows.
    TooManyRows,
    /// The bytes end within the table.
    TruncatedTable,
    /// The NUMBER of this row, counted from 1, isn't its place.
    RowNumber { row: u32 },
    /// The field that is to be dropped isn't in the tables.
    NoSuchField,
}

impl Fault {
    /// Its number. A search for an HDU has 1 to 8, and what only a survey finds begins at 20.
    pub fn number(self) -> u8
        ensures { result ≡ survey_fault_number self }
    {
        match self {
            Fault::Hdu(fault) => fault.number(),
            Fault::NotCatalogue => 20,
            Fault::TooManyRows => 21,
            Fault::TruncatedTable => 22,
            Fault::RowNumber { .. } => 23,
            Fault::NoSuchField => 24,
        }
    }

    /// Its name.
    pub fn name(self) -> &'static str
        ensures name { result.now ≡ survey_fault_name self }
        ensures short { length result.now ≤ 15 }
    {
        match self {
            Fault::Hdu(fault) => fault.name(),
            Fault::NotCatalogue => "NotCatalogue",
            Fault::TooManyRows => "TooManyRows",
            Fault::TruncatedTable => "TruncatedTable",
            Fault::RowNumber { .. } => "RowNumber",
            Fault::NoSuchField => "NoSuchField",
        }
    }

    /// The card or the row at fault, if it is one's fault.
    pub(crate) fn place(self) -> Option<FaultPlace>
        ensures { result ≡ survey_fault_place self }
    {
        match self {
            Fault::Hdu(fault) => fault.place().map(FaultPlace::Card),
            Fault::RowNumber { row } => Some(FaultPlace::Row(row)),
            _ => None,
        }
    }
}

/// What a fault names besides itself.
#[derive(Clone, Copy)]
pub(crate) enum FaultPlace {
    Card(CardPlace),
    /// The number of the row, from 1.
    Row(u32),
}

/// What stops a command.
#[derive(Clone, Copy)]
pub(crate) enum Stop {
    Refused(Fault),
    ReadFault,
    WriteFault,
    NoMemory,
    KeeperFault,
}

impl Stop {
    /// The HDU of a table isn't found.
    pub(crate) fn at_hdu(stop: HduStop) -> Stop
        ensures { result ≡ survey_stop_at_hdu stop }
    {
        match stop {
            HduStop::Fault(fault) => Stop::Refused(Fault::Hdu(fault)),
            HduStop::ReadFault => Stop::ReadFault,
        }
    }

    /// The keeper of the tables refuses.
    pub(crate) fn at_keeper(refused: Refused) -> Stop
        ensures { result ≡ stop_at_keeper refused }
    {
        match refused {
            Refused::Fault => Stop::KeeperFault,
            Refused::OutOfMemory => Stop::NoMemory,
        }
    }
}
