//! The words of a session.
ghost use Rattle.std.specs.Prelude.{◌≡◌, ◌+◌, ◌-◌, ◌≤◌, ◌<◌, drop, length, slice_get, codes, Err, IfOk, IfErr, IfSome, MatchOption, IsOk};
ghost use Rattle.std.specs.Str.{bytes_eq};
ghost use Rattle.std.specs.Option.{option_map, option_to_list};
ghost use Rattle.command_line.specs.Lines.{texts};
ghost use Rattle.survey_core.specs.Commands.{width, field_read, count_in, number_in, session_command, front, some_commands, path_of, file_words, commands_of};
ghost use Rattle.survey_core.specs.Carrying.{HasCount};

use crate::Field;
use command_line::numbers::number_between;

/// One thing that a session does.
#[derive(Drop)]
pub(crate) enum Command {
    Add(Field),
    Drop(Field),
    List,
    Brightest(usize),
}

/// There are no commands, and this word is at fault, counted from 1. A word that is missing stands behind the last.
#[derive(Clone, Copy)]
pub(crate) struct Usage {
    pub(crate) word: usize,
}

impl Command {
    /// How many words it has.
    pub(crate) fn width(&self) -> usize
        ensures { result ≡ width self.now }
    {
        match self {
            Command::Add(_) | Command::Drop(_) | Command::Brightest(_) => 2,
            Command::List => 1,
        }
    }
}

// The field that the argument names; else how far behind its command the word at fault stands.
fn field(next: Option<&str>) -> Result<Field, usize>
    ensures field { result ≡ field_read (option_map (λ word. word.now) next.entry) }
    ensures near { IfErr result (λ behind. behind ≤ 1) }
{
    match next {
        Some(text) => match Field::of(text) {
            Some(field) => Ok(field),
            None => Err(1),
        },
        None => Err(1),
    }
}

#[tactic(auto, unfolding(crate::specs::Commands::count_in))]
fn count_in(text: &str) -> Option<usize>
    ensures count { result ≡ count_in text.now }
    ensures some { IfSome result (λ count. 0 < count) }
{
    match number_between(text, 1, 1000) {
        Some(number) => Some(number as usize),
        None => None,
    }
}

// The number that the argument is; else how far behind its command the word at fault stands.
fn count(next: Option<&str>) -> Result<usize, usize>
    ensures count { result ≡ number_in (option_map (λ word. word.now) next.entry) }
    ensures some { IfOk result (λ count. 0 < count) }
    ensures near { IfErr result (λ behind. behind ≤ 1) }
{
    match next {
        Some(text) => match count_in(text) {
            Some(count) => Ok(count),
            None => Err(1),
        },
        None => Err(1),
    }
}

// The command that the word names, with the word behind it; else how far behind it the word at fault stands.
#[tactic(auto, unfolding(crate::specs::Commands::session_command))]
fn command_of(word: &str, next: Option<&str>) -> Result<Command, usize>
    ensures command { result ≡ session_command word.now (option_map (λ word. word.now) next.entry) }
    ensures some { IfOk result HasCount }
    ensures present { IfOk result (λ command. width command ≤ 1 + length (option_to_list (option_map (λ word. word.now) next.entry))) }
    ensures near { IfErr result (λ behind. behind ≤ 1) }
{
    match word {
        "add" => match field(next) {
            Ok(field) => Ok(Command::Add(field)),
            Err(behind) => Err(behind),
        },
        "drop" => match field(next) {
            Ok(field) => Ok(Command::Drop(field)),
            Err(behind) => Err(behind),
        },
        "list" => Ok(Command::List),
        "brightest" => match count(next) {
            Ok(count) => Ok(Command::Brightest(count)),
            Err(behind) => Err(behind),
        },
        _ => Err(0),
    }
}

fn word_at<'w>(words: &[&'w str], at: usize) -> Option<&'w str>
    ensures { option_map (λ word. word.now) result ≡ slice_get (texts words.now) at }
{
    if at < words.len() {
        Some(words[at])
    } else {
        None
    }
}

/// The command at this place among the words, from 0; else how far behind it the word at fault stands.
pub(crate) fn command_at(words: &[&str], at: usize) -> Result<Command, usize>
    ensures front { result ≡ front (drop at (texts words.now)) }
    ensures inside { IfOk result (λ command. at + width command ≤ length words.now) }
    ensures some { IfOk result HasCount }
    ensures near { IfErr result (λ behind. behind ≤ 1) }
{
    if at >= words.len() {
        return Err(0);
    }
    command_of(words[at], word_at(words, at + 1))
}

fn is_file_word(word: &str) -> bool
    ensures { result ≡ bytes_eq word.now (codes "--file") }
{
    word == "--file"
}

// How many words at the front name a file.
fn file_words(words: &[&str]) -> usize
    ensures count { result ≡ file_words (texts words.now) }
    ensures within { result ≤ length words.now }
{
    if words.is_empty() || !is_file_word(words[0]) {
        return 0;
    }
    words.len().min(2)
}

/// The file that the words of a session name: the path behind `--file`, where that is the first word. It may be empty.
pub fn path_of<'w>(words: &[&'w str]) -> Option<&'w str>
    ensures { option_map (λ word. word.now) result ≡ path_of (texts words.now) }
{
    if file_words(words) < 2 {
        return None;
    }
    Some(words[1])
}

/// The words of the commands, behind those that name a file.
pub(crate) fn command_words<'s, 'w>(words: &'s [&'w str]) -> &'s [&'w str]
    ensures { result.now ≡ drop (file_words (texts words.now)) words.now }
{
    &words[file_words(words)..]
}

// The first of the commands' words that is at fault.
fn fault_among(words: &[&str]) -> Option<Usage>
    ensures fault { MatchOption result (IsOk (some_commands (texts words.now))) (λ usage. some_commands (texts words.now) ≡ Err (usage.word - 1) × (0 < usage.word)) }
    ensures near { IfSome result (λ usage. usage.word ≤ length words.now + 1) }
{
    if words.is_empty() {
        return Some(Usage { word: 1 });
    }
    let mut at = 0;
    while at < words.len() {
        match command_at(words, at) {
            Ok(command) => at += command.width(),
            Err(behind) => {
                return Some(Usage {
                    word: at + behind + 1,
                });
            }
        }
    }
    None
}

/// The first word at fault.
pub(crate) fn word_at_fault(words: &[&str]) -> Option<Usage>
    ensures { MatchOption result (IsOk (commands_of (texts words.now))) (λ usage. commands_of (texts words.now) ≡ Err (usage.word - 1) × (0 < usage.word)) }
{
    match fault_among(command_words(words)) {
        Some(usage) => Some(Usage {
            word: file_words(words) + usage.word,
        }),
        None => None,
    }
}
