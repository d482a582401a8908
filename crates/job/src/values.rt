// The words of a line as values: what word n is, if it is one of the kind.
ghost use Rattle.std.specs.Prelude.{◌≡◌};
ghost use Rattle.job.specs.Bytes.{same};
ghost use Rattle.job.specs.Numbers.{number_in};
ghost use Rattle.job.specs.Words.{split, word};
ghost use Rattle.job.specs.Steps.{part_in, switch_in, store_in, threshold_in};

use crate::{numbers, words};
use art::memory_rgba8_texture::Store;

// Word n is these bytes. Past the last word there are none.
pub fn is_word(line: &[u8], n: usize, wanted: &[u8]) -> bool
    ensures { result ≡ same (word n (split line.now)) wanted.now }
{
    words::word_at(line, n).unwrap_or(b"") == wanted
}

pub fn number_at(line: &[u8], n: usize) -> Option<u32>
    ensures { result ≡ number_in (word n (split line.now)) }
{
    let word = words::word_at(line, n)?;
    numbers::number_of(word)
}

// A colour's part.
pub fn part_at(line: &[u8], n: usize) -> Option<u8>
    ensures { result ≡ part_in (word n (split line.now)) }
{
    let number = number_at(line, n)?;
    u8::try_from(number).ok()
}

#[tactic(auto, unfolding(crate::specs::Steps::switch_in, crate::specs::Words::is_switch, crate::specs::Words::to_switch, crate::specs::Bytes::bytes_of))]
pub fn switch_at(line: &[u8], n: usize) -> Option<bool>
    ensures { result ≡ switch_in (word n (split line.now)) }
{
    if is_word(line, n, b"on") {
        return Some(true);
    }
    is_word(line, n, b"off").then_some(false)
}

#[tactic(auto, unfolding(crate::specs::Steps::store_in, crate::specs::Words::is_store, crate::specs::Words::to_store, crate::specs::Bytes::bytes_of))]
pub fn store_at(line: &[u8], n: usize) -> Option<Store>
    ensures { result ≡ store_in (word n (split line.now)) }
{
    if is_word(line, n, b"symbols") {
        return Some(Store::Symbols);
    }
    is_word(line, n, b"wording").then_some(Store::Wording)
}

#[tactic(auto, unfolding(crate::specs::Steps::threshold_in, crate::specs::Words::is_threshold, crate::specs::Words::to_threshold, crate::specs::Bytes::bytes_of))]
pub fn threshold_at(line: &[u8], n: usize) -> Option<Option<u8>>
    ensures { result ≡ threshold_in (word n (split line.now)) }
{
    if is_word(line, n, b"none") {
        return Some(None);
    }
    part_at(line, n).map(Some)
}
