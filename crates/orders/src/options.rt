//! The commands and their options.
ghost use Rattle.std.specs.Prelude.{◌≡◌, ◌<◌, Some};
ghost use Rattle.orders.specs.Options.{command_named, setting_named, option_named, command_takes, picks_sources as picks_some, option_name, is_value, u16_in, connect_in, positive_u16_in, workers_in, flat_in, rule_in, area_in, flux_in, thousandths_in, threshold_in, seed_in};

use command_line::numbers::number_between;
use comp_tree::Connect;
use filter_rules::Rule;

// The greatest flux of a node, and the greatest distance of a value from 0.
const MOST_FLUX: i64 = 1 << 62;

const MOST_LEVEL: i64 = 1 << 37;

/// The first word.
#[derive(Clone, Copy, PartialEq, Eq)]
pub(crate) enum Command {
    Tree,
    Filter,
    Detect,
    Trial,
    Measure,
}

impl Command {
    pub(crate) fn named(text: &str) -> Option<Command>
        ensures { result ≡ command_named text.now }
    {
        match text {
            "tree" => Some(Command::Tree),
            "filter" => Some(Command::Filter),
            "detect" => Some(Command::Detect),
            "trial" => Some(Command::Trial),
            "measure" => Some(Command::Measure),
            _ => None,
        }
    }

    fn picks_sources(self) -> bool
        ensures { result ≡ picks_some self }
    {
        self == Command::Detect || self == Command::Measure
    }

    fn takes(self, setting: Setting) -> bool
        ensures { result ≡ command_takes self setting }
    {
        match setting {
            Setting::Hdu => self != Command::Trial,
            Setting::Connect | Setting::Strips | Setting::Workers | Setting::Mesh | Setting::Flat =>
                true,
            Setting::Rule | Setting::MaxArea | Setting::MinFill => self == Command::Filter,
            Setting::MinArea | Setting::MinFlux => {
                self == Command::Filter || self.picks_sources()
            }
            Setting::Threshold | Setting::Contrast => self.picks_sources(),
            Setting::Seed | Setting::Width | Setting::Height => self == Command::Trial,
            Setting::Values => self == Command::Measure,
        }
    }

    /// The option of this command with this name.
    #[tactic(auto, unfolding(crate::specs::Options::option_named))]
    pub(crate) fn option(self, name: &str) -> Option<Setting>
        ensures { result ≡ option_named self name.now }
    {
        match Setting::named(name) {
            Some(setting) if self.takes(setting) => Some(setting),
            _ => None,
        }
    }
}

/// An option.
#[derive(Clone, Copy)]
pub(crate) enum Setting {
    Hdu,
    Connect,
    Strips,
    Workers,
    Mesh,
    Flat,
    Rule,
    MinArea,
    MaxArea,
    MinFlux,
    MinFill,
    Threshold,
    Contrast,
    Seed,
    Width,
    Height,
    Values,
}

impl Setting {
    #[tactic(auto, unfolding(crate::specs::Options::setting_named))]
    fn named(text: &str) -> Option<Setting>
        ensures { result ≡ setting_named text.now }
    {
        match text {
            "--hdu" => Some(Setting::Hdu),
            "--connect" => Some(Setting::Connect),
            "--strips" => Some(Setting::Strips),
            "--workers" => Some(Setting::Workers),
            "--mesh" => Some(Setting::Mesh),
            "--flat" => Some(Setting::Flat),
            "--rule" => Some(Setting::Rule),
            "--min-area" => Some(Setting::MinArea),
            "--max-area" => Some(Setting::MaxArea),
            "--min-flux" => Some(Setting::MinFlux),
            "--min-fill" => Some(Setting::MinFill),
            "--threshold" => Some(Setting::Threshold),
            "--contrast" => Some(Setting::Contrast),
            "--seed" => Some(Setting::Seed),
            "--width" => Some(Setting::Width),
            "--height" => Some(Setting::Height),
            "--values" => Some(Setting::Values),
            _ => None,
        }
    }

    pub(crate) fn name(self) -> &'static str
        ensures { result.now ≡ option_name self }
    {
        match self {
            Setting::Hdu => "--hdu",
            Setting::Connect => "--connect",
            Setting::Strips => "--strips",
            Setting::Workers => "--workers",
            Setting::Mesh => "--mesh",
            Setting::Flat => "--flat",
            Setting::Rule => "--rule",
            Setting::MinArea => "--min-area",
            Setting::MaxArea => "--max-area",
            Setting::MinFlux => "--min-flux",
            Setting::MinFill => "--min-fill",
            Setting::Threshold => "--threshold",
            Setting::Contrast => "--contrast",
            Setting::Seed => "--seed",
            Setting::Width => "--width",
            Setting::Height => "--height",
            Setting::Values => "--values",
        }
    }

    /// The text is a value of this option, where images have at most so many pixels.
    pub(crate) fn accepts(self, text: &str, most: u32) -> bool
        ensures { result ≡ is_value most self text.now }
    {
        match self {
            Setting::Hdu | Setting::Values => hdu(text).is_some(),
            Setting::Connect => connect(text).is_some(),
            Setting::Strips => positive_u16(text).is_some(),
            Setting::Workers => workers(text).is_some(),
            Setting::Mesh => mesh(text).is_some(),
            Setting::Flat => flat(text).is_some(),
            Setting::Rule => rule(text).is_some(),
            Setting::MinArea | Setting::MaxArea => area(text, most).is_some(),
            Setting::MinFlux => flux(text).is_some(),
            Setting::MinFill | Setting::Contrast => thousandths(text).is_some(),
            Setting::Threshold => threshold(text).is_some(),
            Setting::Seed => seed(text).is_some(),
            Setting::Width | Setting::Height => positive_u16(text).is_some(),
        }
    }
}

/// The number of an HDU, from 0.
#[tactic(auto, unfolding(crate::specs::Options::u16_in))]
pub(crate) fn hdu(text: &str) -> Option<u16>
    ensures { result ≡ u16_in text.now }
{
    match number_between(text, 0, 65535) {
        Some(number) => Some(number as u16),
        None => None,
    }
}

/// Which pixels are neighbours.
#[tactic(auto, unfolding(crate::specs::Options::connect_in))]
pub(crate) fn connect(text: &str) -> Option<Connect>
    ensures { result ≡ connect_in text.now }
{
    match number_between(text, 4, 8) {
        Some(4) => Some(Connect::Four),
        Some(8) => Some(Connect::Eight),
        _ => None,
    }
}

/// How many strips, or the side of an image in pixels.
#[tactic(auto, unfolding(crate::specs::Options::positive_u16_in))]
pub(crate) fn positive_u16(text: &str) -> Option<u32>
    ensures { result ≡ positive_u16_in text.now }
{
    match number_between(text, 1, 65535) {
        Some(number) => Some(number as u32),
        None => None,
    }
}

/// How many workers.
#[tactic(auto, unfolding(crate::specs::Options::workers_in))]
pub(crate) fn workers(text: &str) -> Option<u32>
    ensures { result ≡ workers_in text.now }
{
    match number_between(text, 1, 64) {
        Some(number) => Some(number as u32),
        None => None,
    }
}

/// The side of a mesh cell in pixels, or 0 for no background.
#[tactic(auto, unfolding(crate::specs::Options::u16_in))]
pub(crate) fn mesh(text: &str) -> Option<u32>
    ensures { result ≡ u16_in text.now }
{
    match number_between(text, 0, 65535) {
        Some(number) => Some(number as u32),
        None => None,
    }
}

/// Whether each cell of the mesh gives one number to all its pixels: 0 or 1.
#[tactic(auto, unfolding(crate::specs::Options::flat_in))]
pub(crate) fn flat(text: &str) -> Option<bool>
    ensures { result ≡ flat_in text.now }
{
    match number_between(text, 0, 1) {
        Some(number) => Some(number == 1),
        None => None,
    }
}

/// A filter rule by its name.
#[tactic(auto, unfolding(crate::specs::Options::rule_in))]
pub(crate) fn rule(text: &str) -> Option<Rule>
    ensures { result ≡ rule_in text.now }
{
    match text {
        "min" => Some(Rule::Min),
        "max" => Some(Rule::Max),
        "direct" => Some(Rule::Direct),
        "subtractive" => Some(Rule::Subtractive),
        _ => None,
    }
}

/// So many pixels: at most as many as an image can have.
#[tactic(auto, unfolding(crate::specs::Options::area_in))]
pub(crate) fn area(text: &str, most: u32) -> Option<u32>
    ensures { result ≡ area_in most text.now }
{
    match number_between(text, 0, i64::from(most)) {
        Some(number) => Some(number as u32),
        None => None,
    }
}

/// A flux, at most 2 ^ 62.
#[tactic(auto, unfolding(crate::specs::Options::flux_in))]
pub(crate) fn flux(text: &str) -> Option<i64>
    ensures { result ≡ flux_in text.now }
{
    number_between(text, 0, MOST_FLUX)
}

/// A part of a whole, in thousandths.
#[tactic(auto, unfolding(crate::specs::Options::thousandths_in))]
pub(crate) fn thousandths(text: &str) -> Option<u32>
    ensures { result ≡ thousandths_in text.now }
{
    match number_between(text, 0, 1000) {
        Some(number) => Some(number as u32),
        None => None,
    }
}

/// A level, within 2 ^ 37 on either side of 0.
#[tactic(auto, unfolding(crate::specs::Options::threshold_in))]
pub(crate) fn threshold(text: &str) -> Option<i64>
    ensures { result ≡ threshold_in text.now }
{
    number_between(text, -MOST_LEVEL, MOST_LEVEL)
}

/// The number that a trial's image is made from.
#[tactic(auto, unfolding(crate::specs::Options::seed_in))]
pub(crate) fn seed(text: &str) -> Option<u32>
    ensures { result ≡ seed_in text.now }
{
    match number_between(text, 0, 4294967295) {
        Some(number) => Some(number as u32),
        None => None,
    }
}
