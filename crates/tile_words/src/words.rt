//! The words of `tile` and of `join`.
ghost use Rattle.std.specs.Prelude.{◌≡◌, ◌≤◌, ◌*◌, ◌+◌, ◌^◌, true, nat_le, length, IfOk, IfErr, IfSome};
ghost use Rattle.command_line.specs.Lines.{texts};
ghost use Rattle.comp_tree.specs.Limits.{IsWithin};
ghost use Rattle.orders.specs.Options.{settings};
ghost use Rattle.orders.specs.Words.{HasLimits};
ghost use Rattle.tile_make.specs.Placed.{is_tile_place};
ghost use Rattle.tile_words.specs.TileWords.{tile_order_of, join_order_of, order_behind, tile_in, words_in_front as front_of};

use crate::places::{Places, is_word, read_number, read_places};
use comp_tree::Shape;
use orders::{Job, Order, Usage, read_order_within};
use source_pick::Choice;
use tile_make::{TilePlace, is_placed};

/// What a run of `tile` is to do.
#[derive(Clone, Copy, Debug, PartialEq, Eq)]
pub struct TileOrder {
    /// Where the window lies, and the pixels for which the tile answers.
    pub place: TilePlace,
    /// The window's columns and rows: its image has to have this shape.
    pub window: Shape,
    /// The number of the mesh's cells without a value, where it is given.
    pub empty: Option<i64>,
    /// What is asked of the background, neighbours, strips and workers: its job is to detect.
    pub order: Order,
    /// What its job asks of a source.
    pub choice: Choice,
}

// How many words stand in front of those of the order.
fn words_in_front(empty: Option<i64>) -> u32
    ensures count { result ≡ front_of empty }
    ensures few { result ≤ 16 }
{
    match empty {
        Some(_) => 16,
        None => 14,
    }
}

// The order that the words behind so many give.
fn read_order_behind(words: &[&str], most: u32, count: u32) -> Result<Order, Usage>
    ensures order { result ≡ order_behind most count (texts words.now) }
    ensures limits { IfOk result HasLimits }
    ensures near { IfErr result (λ usage. usage.word ≤ 2 * length settings + 3) }
{
    let front = words.len().min(count as usize);
    read_order_within(&words[front..], most)
}

/// Reads the words of a command that makes a tile, without the program's name: `tile`, `--whole` with the width and the height of the image,
/// `--window` and `--core` with the column and the row of their first pixel, counted from 0, and their width and height, `--empty-cells` with the
/// number of the mesh's cells without a value, if it is given, and then `detect` with its options, where images have at most `most` pixels. It takes
/// no memory.
pub fn read_tile_order(words: &[&str], most: u32) -> Result<TileOrder, Usage>
    ensures order { result ≡ tile_order_of most (texts words.now) }
    ensures limits { IfOk result (λ tile. HasLimits tile.order) }
    ensures job { IfOk result (λ tile. tile.order.job ≡ Job.Detect tile.choice) }
    ensures number { IfOk result (λ tile. IfSome tile.empty (λ v. IsWithin (2 ^ 29) v)) }
    ensures contrast { IfOk result (λ tile. tile.choice.contrast ≤ 1000) }
    ensures placed { IfOk result (λ tile. is_tile_place tile.place tile.window tile.order.mesh ≡ true) }
{
    let places = match read_places(words) {
        Ok(places) => places,
        Err(usage) => return Err(usage),
    };
    let empty = match read_number(words) {
        Ok(empty) => empty,
        Err(usage) => return Err(usage),
    };
    let front = words_in_front(empty);
    let order = match read_order_behind(words, most, front) {
        Ok(order) => order,
        Err(usage) => {
            return Err(Usage {
                word: usage.word + front,
            });
        }
    };
    let Job::Detect { choice } = order.job else {
        return Err(Usage { word: front + 1 });
    };
    let tile = tile_of(places, empty, order, choice);
    if is_placed(&tile.place, tile.window, order.mesh) {
        Ok(tile)
    } else {
        Err(Usage { word: 5 })
    }
}

fn tile_of(places: Places, empty: Option<i64>, order: Order, choice: Choice) -> TileOrder
    ensures { result ≡ tile_in places.whole places.window places.core empty order choice }
{
    TileOrder {
        place: TilePlace {
            whole: places.whole,
            left: places.window.left,
            top: places.window.top,
            core: places.core,
        },
        window: places.window.shape,
        empty,
        order,
        choice,
    }
}

// No word stands behind the first one.
fn is_alone(words: &[&str]) -> bool
    ensures { result ≡ nat_le (length words.now) 1 }
{
    words.len() <= 1
}

/// Reads the words of the command that joins tiles, without the program's name: `join` alone. It takes no memory.
pub fn read_join(words: &[&str]) -> Result<(), Usage>
    ensures { result ≡ join_order_of (texts words.now) }
{
    if !is_word(words, 1, "join") {
        return Err(Usage { word: 1 });
    }
    if !is_alone(words) {
        return Err(Usage { word: 2 });
    }
    Ok(())
}
