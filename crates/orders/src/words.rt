//! The words of the command.
ghost use Rattle.std.specs.Prelude.{◌≡◌, ◌≤◌, ◌<◌, ◌+◌, ◌*◌, ℕ, IfOk, IfErr, IfSome, MatchResult, length, is_some};
ghost use Rattle.std.specs.Option.{option_map};
ghost use Rattle.command_line.specs.Lines.{texts};
ghost use Rattle.orders.specs.Options.{settings, area_in};
ghost use Rattle.orders.specs.Words.{order_of, order_within, HasLimits, command_of, given, naming as naming_of, value_given, criterion_given, choice_given, job_given, hdu_given, measuring_given, order_for, order_given, shape_given};
ghost use Rattle.orders.specs.Given.{AreRead, AreAllRead, IsFirstFault};

use crate::options::{
    Command, Setting, area, connect, flat, flux, hdu, mesh, positive_u16, rule, seed, thousandths,
    threshold, workers,
};
use comp_tree::{Connect, Shape};
use filter_rules::{Criterion, Rule};
use source_pick::Choice;

/// What a run is to do.
#[derive(Clone, Copy, Debug, PartialEq, Eq)]
pub struct Order {
    pub job: Job,
    /// The number of the HDU that holds the image, from 0.
    pub hdu: u16,
    /// Which pixels are neighbours.
    pub connect: Connect,
    /// How many strips of rows are flooded by themselves, from 1; above the height of the image it counts as the height.
    pub strips: u32,
    /// How many workers flood them, from 1 to 64.
    pub workers: u32,
    /// The side of the cells whose medians are the background, in pixels; 0 for none.
    pub mesh: u32,
    /// The background of a pixel is its cell's median alone. Else the medians are filtered, and interpolated between the cells'
    /// centres.
    pub flat: bool,
}

/// What is made of the image.
#[derive(Clone, Copy, Debug, PartialEq, Eq)]
pub enum Job {
    /// The list of the nodes of its component tree.
    Tree,
    /// The plane that a filter of its component tree leaves.
    Filter { rule: Rule, criterion: Criterion },
    /// The map and the catalogue of its sources.
    Detect { choice: Choice },
    /// The line that tells of the image of this shape that is made from this seed.
    Trial { seed: u32, shape: Shape },
    /// The map and the catalogue of its sources, which are measured in a second image of the same file too: `values` is the number of its HDU, from 0.
    Measure { choice: Choice, values: u16 },
}

/// The words give no order: this one, counted from 1, is the first at fault.
#[derive(Clone, Copy, Debug, PartialEq, Eq)]
pub struct Usage {
    pub word: u32,
}

fn command(words: &[&str]) -> Option<Command>
    ensures { result ≡ command_of (texts words.now) }
{
    match words.first() {
        Some(word) => Command::named(word),
        None => None,
    }
}

// The first of so many pairs, counted from 1, that names this option.
fn naming(words: &[&str], setting: Setting, pairs: u32) -> Option<u32>
    requires { 2 * pairs + 1 ≤ length words.now }
    ensures { result ≡ naming_of (texts words.now) setting pairs }
{
    let name = setting.name();
    for before in 0..pairs {
        if words[2 * before as usize + 1] == name {
            return Some(before + 1);
        }
    }
    None
}

// The value of this option among so many pairs.
fn value<'a>(words: &[&'a str], setting: Setting, pairs: u32) -> Option<&'a str>
    requires { 2 * pairs + 1 ≤ length words.now }
    ensures { option_map (λ text. text.now) result ≡ value_given (texts words.now) pairs setting }
{
    match naming(words, setting, pairs) {
        Some(pair) => Some(words[2 * pair as usize]),
        None => None,
    }
}

// Judges the name and the value of one option more. The name is word 2 * pair + 2.
fn judge_pair(command: Command, words: &[&str], pair: u32, most: u32) -> Result<(), Usage>
    requires read { AreRead most command (texts words.now) pair }
    requires few { pair ≤ length settings }
    requires more { 2 * pair + 1 < length words.now }
    ensures told { MatchResult result
        (λ _. AreRead most command (texts words.now) (pair + 1))
        (λ usage. IsFirstFault most command (texts words.now) usage.word) }
    ensures near { IfErr result (λ usage. usage.word ≤ 2 * pair + 3) }
{
    let word = 2 * pair + 2;
    let Some(setting) = command.option(words[word as usize - 1]) else {
        return Err(Usage { word });
    };
    if naming(words, setting, pair).is_some() {
        return Err(Usage { word });
    }
    let Some(text) = words.get(word as usize) else {
        return Err(Usage { word: word + 1 });
    };
    if setting.accepts(text, most) {
        Ok(())
    } else {
        Err(Usage { word: word + 1 })
    }
}

// The number of pixels that this option gives, where images have at most so many.
fn area_for(words: &[&str], setting: Setting, pairs: u32, most: u32) -> Option<u32>
    requires { 2 * pairs + 1 ≤ length words.now }
    ensures { result ≡ given (area_in most) (texts words.now) pairs setting }
{
    match value(words, setting, pairs) {
        Some(text) => area(text, most),
        None => None,
    }
}

#[tactic(auto, unfolding(crate::specs::Words::criterion_given))]
fn criterion_for(words: &[&str], pairs: u32, most: u32) -> Criterion
    requires { 2 * pairs + 1 ≤ length words.now }
    ensures { result ≡ criterion_given most (texts words.now) pairs }
{
    Criterion {
        min_area: area_for(words, Setting::MinArea, pairs, most).unwrap_or(0),
        max_area: area_for(words, Setting::MaxArea, pairs, most).unwrap_or(most),
        min_flux: value(words, Setting::MinFlux, pairs)
            .and_then(flux)
            .unwrap_or(0),
        min_fill: value(words, Setting::MinFill, pairs)
            .and_then(thousandths)
            .unwrap_or(0),
    }
}

#[tactic(auto, unfolding(crate::specs::Words::choice_given))]
fn choice_for(words: &[&str], pairs: u32, most: u32, threshold: i64) -> Choice
    requires { 2 * pairs + 1 ≤ length words.now }
    ensures { result ≡ choice_given most (texts words.now) pairs threshold }
{
    Choice {
        threshold,
        min_area: area_for(words, Setting::MinArea, pairs, most).unwrap_or(1),
        min_flux: value(words, Setting::MinFlux, pairs)
            .and_then(flux)
            .unwrap_or(0),
        contrast: value(words, Setting::Contrast, pairs)
            .and_then(thousandths)
            .unwrap_or(5),
    }
}

fn shape_for(words: &[&str], pairs: u32) -> Option<Shape>
    requires { 2 * pairs + 1 ≤ length words.now }
    ensures { result ≡ shape_given (texts words.now) pairs }
{
    let Some(width) = value(words, Setting::Width, pairs).and_then(positive_u16) else {
        return None;
    };
    let Some(height) = value(words, Setting::Height, pairs).and_then(positive_u16) else {
        return None;
    };
    Shape::of(width, height)
}

// The number of the HDU with the image.
fn hdu_for(words: &[&str], pairs: u32) -> u16
    requires { 2 * pairs + 1 ≤ length words.now }
    ensures { result ≡ hdu_given (texts words.now) pairs }
{
    value(words, Setting::Hdu, pairs).and_then(hdu).unwrap_or(0)
}

fn measuring_for(words: &[&str], pairs: u32, most: u32) -> Option<Job>
    requires { 2 * pairs + 1 ≤ length words.now }
    ensures { result ≡ measuring_given most (texts words.now) pairs }
{
    let Some(threshold) = value(words, Setting::Threshold, pairs).and_then(threshold) else {
        return None;
    };
    let Some(values) = value(words, Setting::Values, pairs).and_then(hdu) else {
        return None;
    };
    if values == hdu_for(words, pairs) {
        return None;
    }
    let choice = choice_for(words, pairs, most, threshold);
    Some(Job::Measure { choice, values })
}

#[tactic(auto, unfolding(crate::specs::Words::job_given))]
fn job_for(command: Command, words: &[&str], pairs: u32, most: u32) -> Option<Job>
    requires { 2 * pairs + 1 ≤ length words.now }
    ensures { result ≡ job_given most command (texts words.now) pairs }
{
    match command {
        Command::Tree => Some(Job::Tree),
        Command::Filter => {
            match value(words, Setting::Rule, pairs).and_then(rule) {
                Some(rule) => Some(Job::Filter {
                    rule,
                    criterion: criterion_for(words, pairs, most),
                }),
                None => None,
            }
        }
        Command::Detect => {
            match value(words, Setting::Threshold, pairs).and_then(threshold) {
                Some(threshold) => Some(Job::Detect {
                    choice: choice_for(words, pairs, most, threshold),
                }),
                None => None,
            }
        }
        Command::Trial => {
            let Some(seed) = value(words, Setting::Seed, pairs).and_then(seed) else {
                return None;
            };
            match shape_for(words, pairs) {
                Some(shape) => Some(Job::Trial { seed, shape }),
                None => None,
            }
        }
        Command::Measure => measuring_for(words, pairs, most),
    }
}

#[tactic(auto, unfolding(crate::specs::Words::order_for))]
fn order_of_job(words: &[&str], pairs: u32, job: Job) -> Order
    requires { 2 * pairs + 1 ≤ length words.now }
    ensures { result ≡ order_for (texts words.now) pairs job }
{
    Order {
        job,
        hdu: hdu_for(words, pairs),
        connect: value(words, Setting::Connect, pairs)
            .and_then(connect)
            .unwrap_or(Connect::Four),
        strips: value(words, Setting::Strips, pairs)
            .and_then(positive_u16)
            .unwrap_or(1),
        workers: value(words, Setting::Workers, pairs)
            .and_then(workers)
            .unwrap_or(1),
        mesh: value(words, Setting::Mesh, pairs)
            .and_then(mesh)
            .unwrap_or(0),
        flat: value(words, Setting::Flat, pairs)
            .and_then(flat)
            .unwrap_or(false),
    }
}

// How many pairs of a name and a value stand behind the command, unless one is at fault.
fn pairs_read(command: Command, words: &[&str], most: u32) -> Result<u32, Usage>
    requires { 0 < length words.now }
    ensures told { MatchResult result
        (λ pairs. AreAllRead most command (texts words.now) pairs)
        (λ usage. IsFirstFault most command (texts words.now) usage.word) }
    ensures few { IfOk result (λ pairs. pairs ≤ length settings) }
    ensures there { IfOk result (λ pairs. 2 * pairs + 1 ≤ length words.now) }
    ensures near { IfErr result (λ usage. usage.word ≤ 2 * length settings + 3) }
{
    let mut pairs = 0;
    while 2 * pairs as usize + 1 < words.len() {
        if let Err(usage) = judge_pair(command, words, pairs, most) {
            return Err(usage);
        }
        pairs += 1;
    }
    Ok(pairs)
}

/// Reads the words of the command, without the program's name: the command, and behind it options with their values, in
/// any order and each at most once. It takes no memory.
pub fn read_order(words: &[&str]) -> Result<Order, Usage>
    ensures order { result ≡ order_of (texts words.now) }
    ensures limits { IfOk result HasLimits }
{
    read_order_within(words, 1 << 24)
}

/// The same where images have at most so many pixels: no area is larger, and this is the greatest where none is given. A trial's image
/// has at most 2^24 pixels all the same.
pub fn read_order_within(words: &[&str], most: u32) -> Result<Order, Usage>
    ensures order { result ≡ order_within most (texts words.now) }
    ensures limits { IfOk result HasLimits }
    ensures near { IfErr result (λ usage. usage.word ≤ 2 * length settings + 3) }
{
    let Some(command) = command(words) else {
        return Err(Usage { word: 1 });
    };
    let pairs = match pairs_read(command, words, most) {
        Ok(pairs) => pairs,
        Err(usage) => return Err(usage),
    };
    match job_for(command, words, pairs, most) {
        Some(job) => Ok(order_of_job(words, pairs, job)),
        None => Err(Usage {
            word: 2 * pairs + 2,
        }),
    }
}
