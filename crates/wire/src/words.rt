// Words: unsigned numbers of 32 bits, the least byte first.
ghost use Rattle.std.specs.Prelude.{◌≡◌, ◌+◌, ◌*◌, ◌≤◌, ◌<◌, length, get_or, take};
ghost use Rattle.wire.specs.Bytes.{word_at, word_bytes, words_bytes, put};

pub fn word_at(bytes: &[u8], at: usize) -> u32
    requires { at + 4 ≤ length bytes.now }
    ensures { result ≡ word_at bytes.now at }
{
    u32::from_le_bytes([bytes[at], bytes[at + 1], bytes[at + 2], bytes[at + 3]])
}

pub fn put_word(bytes: &mut [u8], at: usize, n: u32)
    requires { at + 4 ≤ length bytes.old }
    ensures { bytes.new ≡ put bytes.old at (word_bytes n) }
{
    put_bytes(bytes, at, &n.to_le_bytes());
}

// These words, from byte `at` on.
pub fn put_words(bytes: &mut [u8], at: usize, words: &[u32])
    requires { at + 4 * length words.now ≤ length bytes.old }
    ensures { bytes.new ≡ put bytes.old at (words_bytes words.now) }
{
    for (i, n) in words.iter().enumerate() {
        put_word(bytes, at + 4 * i, *n);
    }
}

// A copy of some bytes, from byte `at` on. By bytes: std's copy would have an archive for C ask for memmove.
pub fn put_bytes(bytes: &mut [u8], at: usize, part: &[u8])
    requires { at + length part.now ≤ length bytes.old }
    ensures { bytes.new ≡ put bytes.old at part.now }
{
    for (i, b) in part.iter().enumerate() {
        bytes[at + i] = *b;
    }
}
