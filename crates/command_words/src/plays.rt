//! The words of `play`, which plays rows.
ghost use Rattle.std.specs.Prelude.{map, MatchOption};
ghost use Rattle.std.specs.String.{string_bytes};
ghost use Rattle.command_words.specs.Words.{SpellsNoPlay, SpellsNoSize, SpellsPlay, SpellsSize};

use crate::files::is_word;
use csv_rows::number_in;

// The bucket size if the words give none.
const BUCKET: u32 = 64;

// The word for the log's file, and the bucket size.
#[derive(Clone, Copy, Drop)]
pub(crate) struct PlayWords<'a> {
    pub(crate) log: &'a str,
    pub(crate) size: u32,
}

// Returns the word for the log's file, and the bucket size: 64, or the number after `--bucket`.
pub(crate) fn play_words(words: &[String]) -> Option<PlayWords<'_>>
    ensures { MatchOption result (SpellsNoPlay (map string_bytes words.now))
        (λ play. SpellsPlay (map string_bytes words.now) play.log.now play.size) }
{
    match words {
        [command, log] => {
            if is_word(command.as_str(), "play") {
                Some(PlayWords {
                    log: log.as_str(),
                    size: BUCKET,
                })
            } else {
                None
            }
        }
        [command, log, option, number] => {
            if is_word(command.as_str(), "play") {
                let size = size_in(option.as_str(), number.as_str())?;
                Some(PlayWords {
                    log: log.as_str(),
                    size,
                })
            } else {
                None
            }
        }
        _ => None,
    }
}

fn size_in(option: &str, number: &str) -> Option<u32>
    ensures { MatchOption result (SpellsNoSize option.now number.now) (SpellsSize option.now number.now) }
{
    if option != "--bucket" {
        return None;
    }
    let size = number_in(number.as_bytes(), 4, 4_096)?;
    Some(size as u32)
}
