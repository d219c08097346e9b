//! The words of commands on two files.
ghost use Rattle.std.specs.Prelude.{map, MatchOption};
ghost use Rattle.std.specs.String.{string_bytes};
ghost use Rattle.command_words.specs.Words.{NamesNoPair, NamesPair, SpellsNoPair, SpellsPair};

use crate::files::{is_file_name, is_word};

// The words for the two files.
#[derive(Clone, Copy, Drop)]
pub(crate) struct Pair<'a> {
    pub(crate) file: &'a str,
    pub(crate) new: &'a str,
}

// Returns the two files that the words name after a command, if their names differ.
pub(crate) fn pair_after<'a>(command: &str, words: &'a [String]) -> Option<Pair<'a>>
    ensures { MatchOption result (NamesNoPair command.now (map string_bytes words.now))
        (λ pair. NamesPair command.now (map string_bytes words.now) pair.file.now pair.new.now) }
{
    let Some(pair) = pair_words(command, words) else {
        return None;
    };
    if pair.file != pair.new && is_file_name(pair.file) && is_file_name(pair.new) {
        return Some(pair);
    }
    None
}

fn pair_words<'a>(command: &str, words: &'a [String]) -> Option<Pair<'a>>
    ensures { MatchOption result (SpellsNoPair command.now (map string_bytes words.now))
        (λ pair. SpellsPair command.now (map string_bytes words.now) pair.file.now pair.new.now) }
{
    match words {
        [first, file, new] => {
            if is_word(first.as_str(), command) {
                Some(Pair {
                    file: file.as_str(),
                    new: new.as_str(),
                })
            } else {
                None
            }
        }
        _ => None,
    }
}
