// Words that ask the program itself.
ghost use Rattle.std.specs.Prelude.{◌≡◌, map};
ghost use Rattle.std.specs.String.{string_bytes};
ghost use Rattle.dst_console.specs.Words.{asked_of, word_of};

use crate::help::help_of;

/// What is asked of the program itself.
#[derive(Clone, Copy, Debug, PartialEq, Eq)]
pub enum Asked {
    /// The help of all commands.
    Help,
    /// The program's name and version.
    Version,
    /// The help of the command, or of the pipe, that the first word names.
    HelpOf,
}

/// What the words ask of the program itself, if they do.
pub fn what_is_asked(words: &[String]) -> Option<Asked>
    ensures { result ≡ asked_of (map string_bytes words.now) }
{
    match words {
        [word] if word.as_str() == "--help" => Some(Asked::Help),
        [word] if word.as_str() == "--version" => Some(Asked::Version),
        [name, word] if word.as_str() == "--help" => {
            help_of(name.as_str())?;
            Some(Asked::HelpOf)
        }
        _ => None,
    }
}

/// A word, or an empty one where there is none.
pub(crate) fn word_at(words: &[String], place: usize) -> &str
    ensures { result.now ≡ word_of (map string_bytes words.now) place }
{
    match words.get(place) {
        Some(word) => word.as_str(),
        None => "",
    }
}
