//! Words that name files, and comparison of words.
ghost use Rattle.std.specs.Prelude.{◌≡◌, ◌↔◌, IsTrue, MatchOption, map};
ghost use Rattle.std.specs.String.{string_bytes};
ghost use Rattle.command_words.specs.Words.{NamesFile, NamesNoFile, is_file_name};

// Returns the file that the words name after a command.
pub(crate) fn file_after<'a>(command: &str, words: &'a [String]) -> Option<&'a str>
    ensures { MatchOption result (NamesNoFile command.now (map string_bytes words.now))
        (λ file. NamesFile command.now (map string_bytes words.now) file.now) }
{
    let [first, file] = words else {
        return None;
    };
    if is_word(first.as_str(), command) && is_file_name(file.as_str()) {
        Some(file.as_str())
    } else {
        None
    }
}

pub(crate) fn is_word(word: &str, other: &str) -> bool
    ensures { IsTrue result ↔ (word.now ≡ other.now) }
{
    word == other
}

pub(crate) fn is_file_name(word: &str) -> bool
    ensures { result ≡ is_file_name word.now }
{
    match word.as_bytes() {
        [] => false,
        [first, ..] => *first != b'-',
    }
}
