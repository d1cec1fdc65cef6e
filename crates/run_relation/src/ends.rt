//! The ends of a run, with their statuses.
ghost use Rattle.std.specs.Prelude.{◌≡◌};
ghost use Rattle.run_relation.specs.Answers.{end_status};

use orders::Usage;
use pixel_plane::Fault;

/// How a run ends.
#[derive(Clone, Copy, Debug, PartialEq, Eq)]
pub enum End {
    Done,
    Usage(Usage),
    Refused(Fault),
    ReadFault,
    WriteFault,
    NoMemory,
}

impl End {
    /// Its status.
    pub fn status(self) -> u8
        ensures { result ≡ end_status self }
    {
        match self {
            End::Done => 0,
            End::Usage(_) => 1,
            End::Refused(_) => 2,
            End::ReadFault => 3,
            End::WriteFault => 4,
            End::NoMemory => 5,
        }
    }
}
