//! The words of `show`, which lists the objects in a box.
ghost use Rattle.std.specs.Prelude.{◌≡◌, map, MatchOption};
ghost use Rattle.std.specs.String.{string_bytes};
ghost use Rattle.csv_rows.specs.Numbers.{number_in};
ghost use Rattle.command_words.specs.Words.{ReadsWord, SpellsBox, SpellsNoShow, SpellsShow};

use crate::files::is_word;
use csv_rows::number_in;
use zorder::{Point, Region};

// The word for the log's file, and the box.
#[derive(Clone, Copy, Drop)]
pub(crate) struct ShowWords<'a> {
    pub(crate) log: &'a str,
    pub(crate) region: Region,
}

pub(crate) fn show_words(words: &[String]) -> Option<ShowWords<'_>>
    ensures { MatchOption result (SpellsNoShow (map string_bytes words.now))
        (λ show. SpellsShow (map string_bytes words.now) show.log.now show.region) }
{
    match words {
        [command, log, x, y, a, b] => {
            if is_word(command.as_str(), "show") {
                let region = box_in(x.as_str(), y.as_str(), a.as_str(), b.as_str())?;
                Some(ShowWords {
                    log: log.as_str(),
                    region,
                })
            } else {
                None
            }
        }
        _ => None,
    }
}

fn box_in(x: &str, y: &str, a: &str, b: &str) -> Option<Region>
    ensures { ReadsWord (SpellsBox x.now y.now a.now b.now) result }
{
    let x = coordinate_in(x, 0)?;
    let y = coordinate_in(y, 0)?;
    let a = coordinate_in(a, x)?;
    let b = coordinate_in(b, y)?;
    Some(Region {
        lo: Point { x, y },
        hi: Point { x: a, y: b },
    })
}

// Returns the coordinate that a word says, if it is at least `low`.
fn coordinate_in(word: &str, low: u32) -> Option<u32>
    ensures { result ≡ number_in low 4294967295 word.now }
{
    let number = number_in(word.as_bytes(), u64::from(low), 4_294_967_295)?;
    Some(number as u32)
}
