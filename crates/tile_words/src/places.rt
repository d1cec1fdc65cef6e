//! The words that tell where a tile lies.
ghost use Rattle.std.specs.Prelude.{◌≡◌, ◌≤◌, ◌<◌, ◌^◌, IfOk, IfSome, MatchResult};
ghost use Rattle.std.specs.Str.{bytes_eq};
ghost use Rattle.command_line.specs.Lines.{texts};
ghost use Rattle.orders.specs.Options.{u16_in, positive_u16_in};
ghost use Rattle.orders.specs.Words.{word_at};
ghost use Rattle.pixel_plane.specs.ImageLimits.{plane_shape};
ghost use Rattle.comp_tree.specs.Limits.{IsWithin};
ghost use Rattle.tile_words.specs.TileWords.{first_word_at_fault, shape_faults, frame_faults, place_faults, empty_cells_in as cells_in, number_fault};
ghost use Rattle.tile_words.specs.TileReading.{IsShapeRead, IsFrameRead, ArePlacesRead, IsNumberRead};

use command_line::numbers::number_between;
use comp_tree::Shape;
use orders::Usage;
use tile_join::Frame;

// What the words in front of the order tell.
#[derive(Clone, Copy)]
pub(crate) struct Places {
    // The shape of the image.
    pub(crate) whole: Shape,
    pub(crate) window: Frame,
    pub(crate) core: Frame,
}

// Word `place`, counted from 1; an empty one where it is missing, which is never right.
pub(crate) fn word_of<'a>(words: &[&'a str], place: u32) -> &'a str
    requires { 0 < place }
    ensures { result.now ≡ word_at (texts words.now) place }
{
    match words.get(place as usize - 1) {
        Some(word) => word,
        None => "",
    }
}

// The word is this one.
pub(crate) fn is_word(words: &[&str], place: u32, text: &str) -> bool
    requires { 0 < place }
    ensures { result ≡ bytes_eq (word_at (texts words.now) place) text.now }
{
    word_of(words, place) == text
}

// The number of columns or rows in front of a pixel.
#[tactic(auto, unfolding(orders::specs::Options::u16_in))]
fn offset_in(words: &[&str], place: u32) -> Option<u32>
    requires { 0 < place }
    ensures { result ≡ u16_in (word_at (texts words.now) place) }
{
    match number_between(word_of(words, place), 0, 65535) {
        Some(number) => Some(number as u32),
        None => None,
    }
}

// The number of columns or rows.
#[tactic(auto, unfolding(orders::specs::Options::positive_u16_in))]
fn side_in(words: &[&str], place: u32) -> Option<u32>
    requires { 0 < place }
    ensures { result ≡ positive_u16_in (word_at (texts words.now) place) }
{
    match number_between(word_of(words, place), 1, 65535) {
        Some(number) => Some(number as u32),
        None => None,
    }
}

fn shape_with(width: u32, height: u32) -> Option<Shape>
    ensures { result ≡ plane_shape width height }
{
    Shape::wide(width, height)
}

// The shape whose width is word `first`, and its height the next one.
fn read_shape(words: &[&str], first: u32) -> Result<Shape, Usage>
    requires some { 0 < first }
    requires near { first ≤ 14 }
    ensures { MatchResult result
        (λ shape. IsShapeRead (texts words.now) first shape)
        (λ usage. first_word_at_fault first (shape_faults (texts words.now) first) ≡ Some usage.word) }
{
    let Some(width) = side_in(words, first) else {
        return Err(Usage { word: first });
    };
    let Some(height) = side_in(words, first + 1) else {
        return Err(Usage { word: first + 1 });
    };
    match shape_with(width, height) {
        Some(shape) => Ok(shape),
        None => Err(Usage { word: first + 1 }),
    }
}

// The frame that is told behind its name, which is word `first`.
fn read_frame(words: &[&str], first: u32, name: &str) -> Result<Frame, Usage>
    requires some { 0 < first }
    requires near { first ≤ 10 }
    ensures { MatchResult result
        (λ frame. IsFrameRead name.now (texts words.now) first frame)
        (λ usage. first_word_at_fault first (frame_faults name.now (texts words.now) first) ≡ Some usage.word) }
{
    if !is_word(words, first, name) {
        return Err(Usage { word: first });
    }
    let Some(left) = offset_in(words, first + 1) else {
        return Err(Usage { word: first + 1 });
    };
    let Some(top) = offset_in(words, first + 2) else {
        return Err(Usage { word: first + 2 });
    };
    match read_shape(words, first + 3) {
        Ok(shape) => Ok(Frame { left, top, shape }),
        Err(usage) => Err(usage),
    }
}

// The words in front of the order.
pub(crate) fn read_places(words: &[&str]) -> Result<Places, Usage>
    ensures { MatchResult result
        (λ places. ArePlacesRead (texts words.now) places)
        (λ usage. first_word_at_fault 1 (place_faults (texts words.now)) ≡ Some usage.word) }
{
    if !is_word(words, 1, "tile") {
        return Err(Usage { word: 1 });
    }
    if !is_word(words, 2, "--whole") {
        return Err(Usage { word: 2 });
    }
    let whole = match read_shape(words, 3) {
        Ok(whole) => whole,
        Err(usage) => return Err(usage),
    };
    let window = match read_frame(words, 5, "--window") {
        Ok(window) => window,
        Err(usage) => return Err(usage),
    };
    match read_frame(words, 10, "--core") {
        Ok(core) => Ok(Places {
            whole,
            window,
            core,
        }),
        Err(usage) => Err(usage),
    }
}

// A number of the mesh's cells without a value.
#[tactic(auto, unfolding(crate::specs::TileWords::empty_cells_in))]
fn empty_cells_in(words: &[&str], place: u32) -> Option<i64>
    requires { 0 < place }
    ensures exact { result ≡ cells_in (word_at (texts words.now) place) }
    ensures within { IfSome result (λ v. IsWithin (2 ^ 29) v) }
{
    number_between(word_of(words, place), -(1 << 29), 1 << 29)
}

// That number behind the places, where it is given.
pub(crate) fn read_number(words: &[&str]) -> Result<Option<i64>, Usage>
    ensures read { MatchResult result
        (λ empty. IsNumberRead (texts words.now) empty)
        (λ usage. number_fault (texts words.now) ≡ Some usage.word) }
    ensures within { IfOk result (λ empty. IfSome empty (λ v. IsWithin (2 ^ 29) v)) }
{
    if !is_word(words, 15, "--empty-cells") {
        return Ok(None);
    }
    match empty_cells_in(words, 16) {
        Some(number) => Ok(Some(number)),
        None => Err(Usage { word: 16 }),
    }
}
