//! The words of `trial`, which plays generated rows.
ghost use Rattle.std.specs.Prelude.{map, MatchOption};
ghost use Rattle.std.specs.String.{string_bytes};
ghost use Rattle.command_words.specs.Words.{ReadsWord, SpellsMade, SpellsNoTrial, SpellsTrial};

use crate::files::is_word;
use csv_rows::number_in;

/// Generated rows: how many, and their seed.
#[derive(Clone, Copy, Debug, PartialEq, Eq)]
pub struct Made {
    pub rows: u32,
    pub seed: u64,
}

// The word for the log's file, and the rows.
#[derive(Clone, Copy, Drop)]
pub(crate) struct TrialWords<'a> {
    pub(crate) log: &'a str,
    pub(crate) made: Made,
}

pub(crate) fn trial_words(words: &[String]) -> Option<TrialWords<'_>>
    ensures { MatchOption result (SpellsNoTrial (map string_bytes words.now))
        (λ trial. SpellsTrial (map string_bytes words.now) trial.log.now trial.made) }
{
    match words {
        [command, log, rows, seed] => {
            if is_word(command.as_str(), "trial") {
                let made = made_in(rows.as_str(), seed.as_str())?;
                Some(TrialWords {
                    log: log.as_str(),
                    made,
                })
            } else {
                None
            }
        }
        _ => None,
    }
}

fn made_in(rows: &str, seed: &str) -> Option<Made>
    ensures { ReadsWord (SpellsMade rows.now seed.now) result }
{
    let rows = number_in(rows.as_bytes(), 1, 65_536)?;
    let seed = number_in(seed.as_bytes(), 0, u64::MAX)?;
    Some(Made {
        rows: rows as u32,
        seed,
    })
}
