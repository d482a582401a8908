// The answer of each operation as words: its number and values, as the operation's own definition gives them.
ghost use Rattle.std.specs.Prelude.{◌≡◌, ◌≤◌, [], ◌∷◌};
ghost use Rattle.std.specs.Float.{binary32};
ghost use Rattle.std.specs.Float.Ieee.{to_bits};
ghost use Rattle.records.specs.Refusals.{number_of};
ghost use Rattle.records.specs.Operations.{opened_numbers, sized_numbers};
ghost use Rattle.rules.specs.Operations.{asked_numbers, offered_numbers, withdrawn_numbers};
ghost use Rattle.lookup.specs.Looking.{looked_numbers};
ghost use Rattle.lookup.specs.Reading.{read_numbers};
ghost use Rattle.compose.specs.Composing.{composed_numbers};
ghost use Rattle.compose.specs.Checking.{checked_numbers};
ghost use Rattle.coords.specs.Coordinates.{located_numbers};
ghost use Rattle.wire.specs.Saying.{Says};

use art::memory_rgba8_texture::Pixel;
use coords::locate::{Located, Position};
use geometry::rect::Size;
use records::refusal::Refusal;
use rules::multi_texture_packer::{Asked, Offered, Withdrawn};

// The first `count` of the words: no answer has more than eight, and the core's memory is fixed.
#[derive(Clone, Copy)]
pub struct Answer {
    pub count: usize,
    pub words: [u32; 8],
}

fn said<const N: usize>(words: [u32; N]) -> Answer
    requires { N ≤ 8 }
    ensures { Says words.entry result }
{
    let mut all = [0; 8];
    all[..N].copy_from_slice(&words);
    Answer {
        count: N,
        words: all,
    }
}

fn refused(r: Refusal) -> Answer
    ensures { Says (number_of r ∷ []) result }
{
    said([u32::from(r)])
}

pub fn opened(o: Result<(), Refusal>) -> Answer
    ensures { Says (opened_numbers o) result }
{
    match o {
        Ok(()) => said([0]),
        Err(r) => refused(r),
    }
}

pub fn asked(o: Asked) -> Answer
    ensures { Says (asked_numbers o) result }
{
    match o {
        Ok(true) => said([0, 1]),
        Ok(false) => said([0, 0]),
        Err(r) => refused(r),
    }
}

pub fn offered(o: Offered) -> Answer
    ensures { Says (offered_numbers o) result }
{
    match o {
        Ok(p) => {
            let f = p.frame;
            said([0, p.page.0, f.x, f.y, f.w, f.h, u32::from(p.turn)])
        }
        Err(r) => refused(r),
    }
}

pub fn withdrawn(o: Withdrawn) -> Answer
    ensures { Says (withdrawn_numbers o) result }
{
    match o {
        Ok(key) => said([0, key.0]),
        Err(r) => refused(r),
    }
}

pub fn sized(o: Result<Size, Refusal>) -> Answer
    ensures { Says (sized_numbers o) result }
{
    match o {
        Ok(size) => said([0, size.w, size.h]),
        Err(r) => refused(r),
    }
}

pub fn looked(o: Result<Option<Pixel>, Refusal>) -> Answer
    ensures { Says (looked_numbers o) result }
{
    match o {
        Ok(Some(k)) => said([0, 1, k.r as u32, k.g as u32, k.b as u32, k.a as u32]),
        Ok(None) => said([0, 0]),
        Err(r) => refused(r),
    }
}

// The one number of an operation that is answered by bytes.
pub fn number(o: Result<(), Refusal>) -> u32
    ensures composed { composed_numbers o ≡ result ∷ [] }
    ensures read { read_numbers o ≡ result ∷ [] }
{
    match o {
        Ok(()) => 0,
        Err(r) => u32::from(r),
    }
}

pub fn checked(o: Result<Option<(u32, u32)>, Refusal>) -> Answer
    ensures { Says (checked_numbers o) result }
{
    match o {
        Ok(None) => said([0]),
        Ok(Some((x, y))) => said([0, x, y]),
        Err(r) => refused(r),
    }
}

// The language gives no bits of a NaN; the definition's NaN has these.
fn bits_of(x: f32) -> u32
    ensures { result ≡ to_bits binary32 x }
{
    if x != x {
        return 2143289344;
    }
    f32::to_bits(x)
}

pub fn located(o: Located) -> Answer
    ensures { Says (located_numbers o) result }
{
    match o {
        Ok(Position::Pixels(f)) => said([0, 0, f.x, f.y, f.w, f.h]),
        Ok(Position::Texels(c)) => {
            let left = bits_of(c.left);
            let top = bits_of(c.top);
            let right = bits_of(c.right);
            let bottom = bits_of(c.bottom);
            said([0, 1, left, top, right, bottom])
        }
        Err(r) => refused(r),
    }
}
