// The script for callers in other languages: a static library over `script`, whose function it calls with the same promises.
#![tactic(auto)]

ghost use Rattle.std.specs.Prelude.{◌≡◌, length};
ghost use Rattle.art.specs.Stores.{holding};
ghost use Rattle.wire.specs.Bytes.{put};
ghost use Rattle.script.specs.Running.{ran};

use art::memory_rgba8_texture::Stores;

// How many bytes of the answers were written.
#[unsafe(no_mangle)]
pub extern "C" fn firmeskal_run<'a>(
    script: &'a [u8],
    symbols: &'a [u8],
    wording: &'a [u8],
    answers: &mut [u8],
) -> usize
    ensures value { result ≡ length (ran script.now (holding symbols.now wording.now) (length answers.old)) }
    ensures answers_after { answers.new ≡ put answers.old 0 (ran script.now (holding symbols.now wording.now) (length answers.old)) }
{
    script::run(script, Stores { symbols, wording }, answers)
}
