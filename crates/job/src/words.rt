// The words of a line: bytes between blanks, before a comment.
ghost use Rattle.std.specs.Prelude.{◌≡◌, length, option_copied, slice_get};
ghost use Rattle.job.specs.Bytes.{is_blank};
ghost use Rattle.job.specs.Words.{uncommented, split};

// Space, tab, carriage return.
fn is_blank(b: u8) -> bool
    ensures { result ≡ is_blank b }
{
    matches!(b, b' ' | b'\t' | b'\r')
}

// The line before its comment, if it has one.
pub fn before_hash(line: &[u8]) -> &[u8]
    ensures { result.now ≡ uncommented line.now }
{
    let end = line.iter().position(|b| *b == b'#').unwrap_or(line.len());
    &line[..end]
}

// How many words a line without comments has.
pub fn word_count(line: &[u8]) -> usize
    ensures { result ≡ length (split line.now) }
{
    line.split(|b| is_blank(*b))
        .filter(|w| !w.is_empty())
        .count()
}

// Word n of a line without comments, counted from 0; none past the last.
pub fn word_at(line: &[u8], n: usize) -> Option<&[u8]>
    ensures { option_copied result ≡ slice_get (split line.now) n }
{
    line.split(|b| is_blank(*b))
        .filter(|w| !w.is_empty())
        .nth(n)
}
