// Check rows, of a part of the script, of the answers so far or of a store.
ghost use Rattle.std.specs.Prelude.{◌≡◌, ◌+◌, ◌≤◌, length, take};
ghost use Rattle.art.specs.Stores.{lent};
ghost use Rattle.script.specs.Stepping.{check_source, check_past, check_numbers, check_step};
ghost use Rattle.geometry.specs.Words.{reached};
ghost use Rattle.script.specs.Doing.{Does, Checks};

use crate::steps;
use crate::steps::{Ended, Step};
use art::memory_rgba8_texture::Stores;
use commands::command::Words;
use compose::checking;
use records::frame::Page;
use records::layout::Layout;
use wire::answers;
use wire::answers::Answer;

// The source: 0 the script itself, 1 the answers so far, 2 the symbol store, anything else the wording store.
fn check_source<'a>(words: Words<'a, 10>, stores: Stores<'a>, said: &'a [u8]) -> &'a [u8]
    ensures { result.now ≡ check_source words.entry.script.now (lent stores.entry) said.now words.entry.at }
{
    match words.word(8) {
        0 => words.script,
        1 => said,
        2 => stores.symbols,
        _ => stores.wording,
    }
}

fn check_part<'a>(
    words: Words<'_, 10>,
    stores: Stores<'a>,
    source: &'a [u8],
    l: Layout,
) -> Result<Answer, Ended>
    ensures { Checks (check_past words.entry.script.now words.entry.at source.now) (check_numbers words.entry.script.now (lent stores.entry) words.entry.at l source.now) result }
{
    let page = Page(words.word(1));
    let background = commands::background_at(Words {
        script: words.script,
        at: words.at + 8,
    });
    let first = words.word(6);
    let rows = words.word(7);
    let a = words.word(9) as usize;
    let e = a + words.word(10) as usize;
    if source.len() < e {
        return Err(Ended::PastSource);
    }
    let shown = &source[a..e];
    Ok(answers::checked(checking::check_rows(l, stores, page, background, first, rows, shown)))
}

pub fn check_step<'a>(
    words: Words<'a, 10>,
    stores: Stores<'a>,
    answers: &mut [u8],
    s: &mut Step,
) -> Result<(), Ended>
    requires { s.old.written + 12 ≤ length answers.old }
    ensures { Does (check_step words.entry.script.now (lent stores.entry) (length answers.old) (take s.old.written answers.old) words.entry.at s.old.layout) s.old.written answers.old answers.new (reached result s.new) }
{
    let source = check_source(words, stores, &answers[..s.written]);
    let a = check_part(words, stores, source, s.layout)?;
    steps::say(answers, s, a, words.at + 44)
}
