// Any sequence of operations as bytes in, answers as bytes out: docs/SCRIPT.md.
#![tactic(auto)]

ghost use Rattle.std.specs.Prelude.{◌≡◌, length};
ghost use Rattle.art.specs.Stores.{lent};
ghost use Rattle.wire.specs.Bytes.{put};
ghost use Rattle.script.specs.Running.{ran};

use art::memory_rgba8_texture::Stores;

mod bytes;
mod checking;
mod running;
mod steps;
mod telling;

// How many bytes of the answers were written.
pub fn run<'a>(script: &'a [u8], stores: Stores<'a>, answers: &mut [u8]) -> usize
    ensures value { result ≡ length (ran script.now (lent stores.entry) (length answers.old)) }
    ensures answers_after { answers.new ≡ put answers.old 0 (ran script.now (lent stores.entry) (length answers.old)) }
{
    if answers.len() < 12 {
        return 0;
    }
    running::run_commands(script, stores, answers)
}
