//! The ends of a run of `join`, with their statuses.
ghost use Rattle.std.specs.Prelude.{◌≡◌, ◌≤◌, length};
ghost use Rattle.join_top.specs.JoinNotes.{join_status, refusal_number, refusal_name, refusal_place};

use orders::Usage;
use tile_join::JoinFault;

/// Why tiles aren't joined. Each has a number and a name, by which the notes call it.
#[derive(Clone, Copy, Debug, PartialEq, Eq)]
pub enum JoinRefusal {
    /// The input isn't the files of tiles, one behind the other.
    NotTiles,
    /// They can't be joined.
    Unjoinable(JoinFault),
}

/// How a run of `join` ends.
#[derive(Clone, Copy, Debug, PartialEq, Eq)]
pub enum JoinEnd {
    Done,
    Usage(Usage),
    Refused(JoinRefusal),
    ReadFault,
    WriteFault,
    NoMemory,
}

/// What a refusal names besides itself, counted from 0.
#[derive(Clone, Copy)]
pub(crate) enum JoinPlace {
    Tile(usize),
    Pixel(usize),
}

impl JoinRefusal {
    /// Its number. What only `join` finds begins at 30.
    pub fn number(self) -> u8
        ensures { result ≡ refusal_number self }
    {
        match self {
            JoinRefusal::NotTiles => 30,
            JoinRefusal::Unjoinable(JoinFault::NotOfImage { .. }) => 31,
            JoinRefusal::Unjoinable(JoinFault::OpenComponent { .. }) => 32,
            JoinRefusal::Unjoinable(JoinFault::CoresOverlap { .. }) => 33,
            JoinRefusal::Unjoinable(JoinFault::CoreGap { .. }) => 34,
            JoinRefusal::Unjoinable(JoinFault::SamePixel { .. }) => 35,
        }
    }

    /// Its name.
    pub fn name(self) -> &'static str
        ensures name { result.now ≡ refusal_name self }
        ensures short { length result.now ≤ 15 }
    {
        match self {
            JoinRefusal::NotTiles => "NotTiles",
            JoinRefusal::Unjoinable(JoinFault::NotOfImage { .. }) => "NotOfImage",
            JoinRefusal::Unjoinable(JoinFault::OpenComponent { .. }) => "OpenComponent",
            JoinRefusal::Unjoinable(JoinFault::CoresOverlap { .. }) => "CoresOverlap",
            JoinRefusal::Unjoinable(JoinFault::CoreGap { .. }) => "CoreGap",
            JoinRefusal::Unjoinable(JoinFault::SamePixel { .. }) => "SamePixel",
        }
    }

    // The tile or the pixel at fault, if it is one's fault.
    pub(crate) fn place(self) -> Option<JoinPlace>
        ensures { result ≡ refusal_place self }
    {
        match self {
            JoinRefusal::NotTiles => None,
            JoinRefusal::Unjoinable(JoinFault::NotOfImage { tile }) => Some(JoinPlace::Tile(tile)),
            JoinRefusal::Unjoinable(JoinFault::OpenComponent { tile }) => {
                Some(JoinPlace::Tile(tile))
            }
            JoinRefusal::Unjoinable(JoinFault::CoresOverlap { tile }) => {
                Some(JoinPlace::Tile(tile))
            }
            JoinRefusal::Unjoinable(JoinFault::CoreGap { pixel }) => Some(JoinPlace::Pixel(pixel)),
            JoinRefusal::Unjoinable(JoinFault::SamePixel { pixel }) => {
                Some(JoinPlace::Pixel(pixel))
            }
        }
    }
}

impl JoinEnd {
    /// Its status.
    pub fn status(self) -> u8
        ensures { result ≡ join_status self }
    {
        match self {
            JoinEnd::Done => 0,
            JoinEnd::Usage(_) => 1,
            JoinEnd::Refused(_) => 2,
            JoinEnd::ReadFault => 3,
            JoinEnd::WriteFault => 4,
            JoinEnd::NoMemory => 5,
        }
    }
}
