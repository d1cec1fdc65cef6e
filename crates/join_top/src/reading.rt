//! All bytes of a source.
ghost use Rattle.std.specs.Prelude.{◌≤◌, ℕ, List, IsErrOf, MatchResult};
ghost use Rattle.std.specs.Option.{ForSome};
ghost use Rattle.dev_io.specs.Causes.{Rose};
ghost use Rattle.join_top.specs.AllBytes.{IsAllRead, IsPartRead, HasCollected, IsPieceRead};

use dev_io::{Source, fill};
use std::alloc::{AllocError, Global};

// Why not all bytes were read.
#[derive(Clone, Copy, PartialEq, Eq, Debug)]
pub(crate) enum ReadStop {
    ReadFault,
    NoMemory,
}

// How many bytes are asked for at once.
const PIECE: usize = 65_536;

// All bytes that the source has left.
pub(crate) fn read_all<S: Source>(alloc: Global, src: &mut S) -> Result<Vec<u8>, ReadStop>
    ensures told { ForSome (S.left src.old) (λ bytes. MatchResult result
        (λ all. IsAllRead bytes (S.left src.new) all.items)
        (λ _. IsPartRead bytes (S.left src.new))) }
    ensures fault { IsErrOf result ReadStop.ReadFault → Rose (S.faults src.old) (S.faults src.new) }
{
    let Ok(mut room) = empty_room(alloc) else {
        return Err(ReadStop::NoMemory);
    };
    let mut all = Vec::new(alloc);
    match read_on(src, &mut room, &mut all) {
        Ok(()) => Ok(all),
        Err(stop) => Err(stop),
    }
}

// Room for the bytes that are asked for at once; what stands there doesn't matter.
fn empty_room(alloc: Global) -> Result<Vec<u8>, AllocError> {
    vec![in alloc; 0u8; PIECE]
}

// Puts all bytes that the source has left behind those that were read.
fn read_on<S: Source>(src: &mut S, room: &mut [u8], all: &mut Vec<u8>) -> Result<(), ReadStop>
    ensures told { (bytes : List ℕ) → HasCollected bytes (S.left src.old) all.old.items → MatchResult result
        (λ _. IsAllRead bytes (S.left src.new) all.new.items)
        (λ _. IsPartRead bytes (S.left src.new)) }
    ensures fault { IsErrOf result ReadStop.ReadFault → Rose (S.faults src.old) (S.faults src.new) }
{
    for _ in 0..u64::MAX {
        match read_piece(src, room, all) {
            Ok(true) => return Ok(()),
            Ok(false) => {}
            Err(stop) => return Err(stop),
        }
    }
    Err(ReadStop::NoMemory)
}

// Puts the next bytes behind those that were read, as many as there is room for, and answers whether none are left.
fn read_piece<S: Source>(src: &mut S, room: &mut [u8], all: &mut Vec<u8>) -> Result<bool, ReadStop>
    ensures told { (bytes : List ℕ) → HasCollected bytes (S.left src.old) all.old.items → MatchResult result
        (IsPieceRead bytes (S.left src.new) all.new.items)
        (λ _. IsPartRead bytes (S.left src.new)) }
    ensures fault { IsErrOf result ReadStop.ReadFault → Rose (S.faults src.old) (S.faults src.new) }
    ensures later { S.faults src.old ≤ S.faults src.new }
{
    let count = match fill(src, room) {
        Ok(count) => count,
        Err(_) => return Err(ReadStop::ReadFault),
    };
    match all.extend_from_slice(&room[..count]) {
        Ok(()) => Ok(count < room.len()),
        Err(_) => Err(ReadStop::NoMemory),
    }
}
