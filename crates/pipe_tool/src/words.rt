// The words of a pipe.
ghost use Rattle.std.specs.Prelude.{◌≡◌, map};
ghost use Rattle.std.specs.String.{string_bytes};
ghost use Rattle.words_spec.specs.Slots as slots;
ghost use Rattle.pipe_tool.specs.Words as asked;

/// Whether these words are `pipe` and the name of a file.
pub fn is_pipe(words: &[String]) -> bool
    ensures { result ≡ asked.is_pipe (map string_bytes words.now) }
{
    match words {
        [name, out] => name.as_str() == "pipe" && is_file_word(out),
        _ => false,
    }
}

// Whether a word may name a file: it isn't empty and doesn't begin with a dash.
fn is_file_word(word: &String) -> bool
    ensures { result ≡ slots.is_file_word (string_bytes word.now) }
{
    match word.as_bytes() {
        [] => false,
        [first, ..] => *first != b'-',
    }
}
