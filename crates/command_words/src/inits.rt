//! The words of `init`, which creates a log.
ghost use Rattle.std.specs.Prelude.{map, MatchOption};
ghost use Rattle.std.specs.String.{string_bytes};
ghost use Rattle.command_words.specs.Words.{SpellsInit, SpellsNoInit};

use crate::files::is_word;

// The word for the log's file, and the width of its splits.
#[derive(Clone, Copy, Drop)]
pub(crate) struct InitWords<'a> {
    pub(crate) log: &'a str,
    pub(crate) width: u8,
}

// Returns the word for the log's file, and the width: 1, or 2 with `--quad`.
pub(crate) fn init_words(words: &[String]) -> Option<InitWords<'_>>
    ensures { MatchOption result (SpellsNoInit (map string_bytes words.now))
        (λ init. SpellsInit (map string_bytes words.now) init.log.now init.width) }
{
    match words {
        [command, log] => {
            if is_word(command.as_str(), "init") {
                Some(InitWords {
                    log: log.as_str(),
                    width: 1,
                })
            } else {
                None
            }
        }
        [command, log, option] => {
            if is_word(command.as_str(), "init") && is_word(option.as_str(), "--quad") {
                Some(InitWords {
                    log: log.as_str(),
                    width: 2,
                })
            } else {
                None
            }
        }
        _ => None,
    }
}
