// Words of a kind: the names of files, numbers, options.
ghost use Rattle.std.specs.Prelude.{◌≡◌, ◌⊎◌, ◌≤◌, [], ◌∷◌, length, map, option_map, IfSome};
ghost use Rattle.std.specs.List.{list_all};
ghost use Rattle.std.specs.String.{string_bytes};
ghost use Rattle.words_spec.specs.Slots.{is_file_word, is_digit, is_numeral, number_word, number_within, allowed_value, level, workers, rate};
ghost use Rattle.dst_words.specs.Commands.{channels_seen};
ghost use Rattle.dst_words.specs.RowWords.{level_and_workers, AreAllowed, level_and_workers_in, workers_in, by_index_in, multiple_in, span_in, channels_in, pairs_in};

use crate::pairs::Pairs;
use dst_num::Channels;

// Whether a word may name a file: it isn't empty and doesn't begin with a dash.
pub(crate) fn is_file_word(word: &String) -> bool
    ensures { result ≡ is_file_word (string_bytes word.now) }
{
    match word.as_bytes() {
        [] => false,
        [first, ..] => *first != b'-',
    }
}

// Whether bytes are `0`, or a digit 1 to 9 with any digits behind it.
fn is_numeral(bytes: &[u8]) -> bool
    ensures { result ≡ is_numeral bytes.now }
{
    match bytes {
        [] => false,
        [b'0'] => true,
        [first, rest @ ..] => *first >= b'1' && *first <= b'9' && are_digits(rest),
    }
}

fn are_digits(bytes: &[u8]) -> bool
    ensures { result ≡ list_all is_digit bytes.now }
{
    for byte in bytes {
        if !is_digit(*byte) {
            return false;
        }
    }
    true
}

fn is_digit(byte: u8) -> bool
    ensures { result ≡ is_digit byte }
{
    byte >= b'0' && byte <= b'9'
}

// The number of a number word.
pub(crate) fn read_number(word: &String) -> Option<u32>
    ensures { result ≡ number_word (string_bytes word.now) }
{
    if !is_numeral(word.as_bytes()) {
        return None;
    }
    match word.parse() {
        Ok(number) => Some(number),
        Err(_) => None,
    }
}

// The number of a number word, if it is within bounds.
pub(crate) fn read_within(word: &String, least: u32, most: u32) -> Option<u32>
    ensures within { result ≡ number_within least most (string_bytes word.now) }
    ensures least { IfSome result (λ n. least ≤ n) }
    ensures most { IfSome result (λ n. n ≤ most) }
{
    let number = read_number(word)?;
    if number >= least && number <= most {
        Some(number)
    } else {
        None
    }
}

// Two numbers, the first at most the second.
#[tactic(auto, unfolding(crate::specs::RowWords::span_in))]
pub(crate) fn read_span(first: &String, last: &String) -> Option<(u32, u32)>
    ensures span { result ≡ span_in (string_bytes first.now) (string_bytes last.now) }
    ensures order { IfSome result (λ r. r.0 ≤ r.1) }
{
    let first = read_number(first)?;
    let last = read_number(last)?;
    if first <= last {
        Some((first, last))
    } else {
        None
    }
}

// One to sixteen pairs of numbers.
pub(crate) fn read_pairs(words: &[String]) -> Option<Pairs>
    ensures pairs { result ≡ pairs_in (map string_bytes words.now) }
    ensures least { IfSome result (λ pairs. 1 ≤ length pairs) }
    ensures most { IfSome result (λ pairs. length pairs ≤ 16) }
{
    let count = words.len() / 2;
    if count < 1 || count > 16 || words.len() != 2 * count {
        return None;
    }
    let mut pairs = Pairs::new();
    for k in 0..count {
        let from = read_number(&words[2 * k])?;
        let count = read_number(&words[2 * k + 1])?;
        pairs.push(from, count);
    }
    Some(pairs)
}

// A number of workers, 1 to 16.
fn workers_value(word: &String) -> Option<u32>
    ensures workers { result ≡ allowed_value workers (string_bytes word.now) }
    ensures least { IfSome result (λ n. 1 ≤ n) }
    ensures most { IfSome result (λ n. n ≤ 16) }
{
    let workers = read_number(word)?;
    if workers >= 1 && workers <= 16 {
        Some(workers)
    } else {
        None
    }
}

// A level, 0 to 3.
fn level_value(word: &String) -> Option<u32>
    ensures level { result ≡ allowed_value level (string_bytes word.now) }
    ensures most { IfSome result (λ n. n ≤ 3) }
{
    let level = read_number(word)?;
    if level <= 3 { Some(level) } else { None }
}

// A rate, 64, 128 or 256 times 44.1 kHz.
fn rate_value(word: &String) -> Option<u32>
    ensures rate { result ≡ allowed_value rate (string_bytes word.now) }
    ensures known { IfSome result (λ n. (n ≡ 64) ⊎ (n ≡ 128) ⊎ (n ≡ 256)) }
{
    let rate = read_number(word)?;
    if rate == 64 || rate == 128 || rate == 256 {
        Some(rate)
    } else {
        None
    }
}

// The rate that options set, in multiples of 64 times 44.1 kHz, or 1.
fn read_multiple(options: &[String]) -> Option<u32>
    ensures set { result ≡ multiple_in (map string_bytes options.now) }
    ensures known { IfSome result (λ n. (n ≡ 1) ⊎ (n ≡ 2) ⊎ (n ≡ 4)) }
{
    match options {
        [] => Some(1),
        [name, value] if name.as_str() == "--rate" => Some(rate_value(value)? / 64),
        _ => None,
    }
}

// Channels, 1 to 6, at the rate that options set.
#[tactic(auto, unfolding(crate::specs::RowWords::channels_in))]
pub(crate) fn read_channels(count: &String, options: &[String]) -> Option<Channels>
    ensures { option_map channels_seen result ≡ channels_in (string_bytes count.now) (map string_bytes options.now) }
{
    let count = read_within(count, 1, 6)?;
    let multiple = read_multiple(options)?;
    Channels::at(count, multiple)
}

// The workers that options set, or one.
pub(crate) fn read_workers(options: &[String]) -> Option<u32>
    ensures workers { result ≡ workers_in (map string_bytes options.now) }
    ensures least { IfSome result (λ n. 1 ≤ n) }
    ensures most { IfSome result (λ n. n ≤ 16) }
{
    match options {
        [] => Some(1),
        [name, value] if name.as_str() == "--workers" => workers_value(value),
        _ => None,
    }
}

// The level and the workers that options set in either order, or level 1 and one worker.
#[tactic(auto, unfolding(crate::specs::RowWords::level_and_workers_in))]
pub(crate) fn read_level_and_workers(options: &[String]) -> Option<(u32, u32)>
    ensures set { result ≡ level_and_workers_in (map string_bytes options.now) }
    ensures level { IfSome result (λ r. r.0 ≤ 3) }
    ensures least { IfSome result (λ r. 1 ≤ r.1) }
    ensures most { IfSome result (λ r. r.1 ≤ 16) }
{
    match options {
        [] => Some((1, 1)),
        [name, value] => read_one_option(name, value),
        [first, value, second, other] => read_two_options(first, value, second, other),
        _ => None,
    }
}

// The level and the workers that one option sets.
#[tactic(auto, unfolding(crate::specs::RowWords::level_and_workers_in))]
fn read_one_option(name: &String, value: &String) -> Option<(u32, u32)>
    ensures set { result ≡ level_and_workers_in (string_bytes name.now ∷ string_bytes value.now ∷ []) }
    ensures allowed { IfSome result AreAllowed }
{
    match name.as_str() {
        "--level" => Some((level_value(value)?, 1)),
        "--workers" => Some((1, workers_value(value)?)),
        _ => None,
    }
}

// The level and the workers that two options set.
#[tactic(auto, unfolding(crate::specs::RowWords::level_and_workers_in))]
fn read_two_options(
    first: &String,
    value: &String,
    second: &String,
    other: &String,
) -> Option<(u32, u32)>
    ensures set { result ≡ level_and_workers_in
        (string_bytes first.now ∷ string_bytes value.now ∷ string_bytes second.now ∷ string_bytes other.now ∷ []) }
    ensures allowed { IfSome result AreAllowed }
{
    match (first.as_str(), second.as_str()) {
        ("--level", "--workers") => read_both(value, other),
        ("--workers", "--level") => read_both(other, value),
        _ => None,
    }
}

// A level and a number of workers.
#[tactic(auto, unfolding(crate::specs::RowWords::level_and_workers))]
fn read_both(level: &String, workers: &String) -> Option<(u32, u32)>
    ensures set { result ≡ level_and_workers (string_bytes level.now) (string_bytes workers.now) }
    ensures allowed { IfSome result AreAllowed }
{
    let level = level_value(level)?;
    let workers = workers_value(workers)?;
    Some((level, workers))
}

// Whether options ask for the index.
pub(crate) fn read_by_index(options: &[String]) -> Option<bool>
    ensures { result ≡ by_index_in (map string_bytes options.now) }
{
    match options {
        [] => Some(false),
        [name] if name.as_str() == "--by-index" => Some(true),
        _ => None,
    }
}
