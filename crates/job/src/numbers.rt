// A number as a person writes it.
ghost use Rattle.std.specs.Prelude.{◌≡◌};
ghost use Rattle.job.specs.Numbers.{number_in};
ghost use Rattle.job.specs.Steps.{with_digit};

// The number n with one more digit; refused, and never wrapped, past 4294967295.
#[tactic(auto, unfolding(crate::specs::Steps::with_digit))]
fn with_digit(n: u32, b: u8) -> Option<u32>
    ensures { result ≡ with_digit n b }
{
    match b {
        b'0'..=b'9' => n.checked_mul(10)?.checked_add(u32::from(b - b'0')),
        _ => None,
    }
}

pub fn number_of(word: &[u8]) -> Option<u32>
    ensures { result ≡ number_in word.now }
{
    if word.is_empty() {
        return None;
    }
    let mut n = 0;
    for b in word {
        n = with_digit(n, *b)?;
    }
    Some(n)
}
