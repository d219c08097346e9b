//! From words to a command.
ghost use Rattle.std.specs.Prelude.{map, MatchOption};
ghost use Rattle.std.specs.String.{string_bytes};
ghost use Rattle.command_words.specs.Words.{AsksFor, IsAccepted, IsInit, IsPlay, IsShow, IsTrial};
ghost use Rattle.command_words.specs.Asked.{command_of};

use crate::boxes::show_words;
use crate::files::{file_after, is_file_name};
use crate::inits::init_words;
use crate::pairs::pair_after;
use crate::plays::play_words;
use crate::trials::{Made, trial_words};
use zorder::Region;

/// A command. A `None` in place of a file means that there is no log.
#[derive(Clone, Copy, Drop)]
pub enum Command<'a> {
    /// Creates a log in this file, whose splits make `2 ^ width` children. The width is 1, or 2 with `--quad`.
    Init(&'a str, u8),
    /// Inspects the log in this file.
    Check(&'a str),
    /// Plays rows over the log in this file, or over none, with buckets of this size.
    Play(Option<&'a str>, u32),
    /// Lists the objects of the log in this file that are in this box.
    Show(&'a str, Region),
    /// Plays generated rows over the log in this file, or over none.
    Trial(Option<&'a str>, Made),
    /// Writes the log in the first file from scratch into the second file, which has another name.
    Compact(&'a str, &'a str),
    /// Reports which objects enter and leave fences along the log in this file.
    Watch(&'a str),
    /// Makes the second file, which has another name, follow the log in the first file.
    Follow(&'a str, &'a str),
}

/// Returns the command of the words. `words` is the command line without the program's name.
pub fn command_in(words: &[String]) -> Option<Command<'_>>
    ensures { MatchOption result (IsAccepted (map string_bytes words.now) → ⊥) (λ c. AsksFor (map string_bytes words.now) (command_of c)) }
{
    if let Some(init) = init_in(words) {
        return Some(init);
    }
    if let Some(file) = file_after("check", words) {
        return Some(Command::Check(file));
    }
    if let Some(show) = show_in(words) {
        return Some(show);
    }
    if let Some(trial) = trial_in(words) {
        return Some(trial);
    }
    if let Some(pair) = pair_after("compact", words) {
        return Some(Command::Compact(pair.file, pair.new));
    }
    if let Some(watched) = file_after("watch", words) {
        return Some(Command::Watch(watched));
    }
    if let Some(follow) = pair_after("follow", words) {
        return Some(Command::Follow(follow.file, follow.new));
    }
    play_in(words)
}

// Returns the command of the words, if it is `init`.
fn init_in(words: &[String]) -> Option<Command<'_>>
    ensures { MatchOption result (IsInit (map string_bytes words.now) → ⊥) (λ c. AsksFor (map string_bytes words.now) (command_of c)) }
{
    let Some(init) = init_words(words) else {
        return None;
    };
    if is_file_name(init.log) {
        return Some(Command::Init(init.log, init.width));
    }
    None
}

// Returns the command of the words, if it is `show`.
fn show_in(words: &[String]) -> Option<Command<'_>>
    ensures { MatchOption result (IsShow (map string_bytes words.now) → ⊥) (λ c. AsksFor (map string_bytes words.now) (command_of c)) }
{
    let Some(show) = show_words(words) else {
        return None;
    };
    if is_file_name(show.log) {
        return Some(Command::Show(show.log, show.region));
    }
    None
}

// Returns the command of the words, if it is `play`.
fn play_in(words: &[String]) -> Option<Command<'_>>
    ensures { MatchOption result (IsPlay (map string_bytes words.now) → ⊥) (λ c. AsksFor (map string_bytes words.now) (command_of c)) }
{
    let Some(play) = play_words(words) else {
        return None;
    };
    if play.log == "-" {
        return Some(Command::Play(None, play.size));
    }
    if is_file_name(play.log) {
        return Some(Command::Play(Some(play.log), play.size));
    }
    None
}

// Returns the command of the words, if it is `trial`.
fn trial_in(words: &[String]) -> Option<Command<'_>>
    ensures { MatchOption result (IsTrial (map string_bytes words.now) → ⊥) (λ c. AsksFor (map string_bytes words.now) (command_of c)) }
{
    let Some(trial) = trial_words(words) else {
        return None;
    };
    if trial.log == "-" {
        return Some(Command::Trial(None, trial.made));
    }
    if is_file_name(trial.log) {
        return Some(Command::Trial(Some(trial.log), trial.made));
    }
    None
}
