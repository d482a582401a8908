// The commands whose answer has bytes behind its number: compose rows and row of an image.
ghost use Rattle.std.specs.Prelude.{◌≡◌, ◌+◌, ◌≤◌, length, take};
ghost use Rattle.art.specs.Stores.{lent};
ghost use Rattle.wire.specs.Bytes.{put};
ghost use Rattle.commands.specs.Reading.{word};
ghost use Rattle.script.specs.Stepping.{composed_bytes, compose_outcome, compose_pixels, compose_step, row_step};
ghost use Rattle.geometry.specs.Words.{reached};
ghost use Rattle.script.specs.Doing.{Does, composed_size};

use crate::steps;
use crate::steps::{Ended, Step};
use art::memory_rgba8_texture::Stores;
use commands::command::Words;
use compose::image_exporter;
use lookup::image_row;
use records::frame::{Key, Page};
use records::layout::Layout;
use records::refusal::Refusal;
use wire::{answers, words};

// Compose rows into the part of the answers from a to e.
fn compose_in<'a>(
    words: Words<'_, 8>,
    stores: Stores<'a>,
    answers: &mut [u8],
    l: Layout,
    a: usize,
    e: usize,
) -> Result<(), Refusal>
    requires { (e ≡ a + word words.script.now words.at 8) × (e ≤ length answers.old) }
    ensures value { result ≡ compose_outcome words.entry.script.now (lent stores.entry) words.entry.at l }
    ensures answers_after { answers.new ≡ put answers.old a (composed_bytes result (compose_pixels words.entry.script.now (lent stores.entry) words.entry.at l)) }
{
    let page = Page(words.word(1));
    let background = commands::background_at(Words {
        script: words.script,
        at: words.at + 8,
    });
    let first = words.word(6);
    let rows = words.word(7);
    image_exporter::compose_rows(l, stores, page, background, first, rows, &mut answers[a..e])
}

fn composed_size(o: Result<(), Refusal>, n: usize) -> usize
    ensures { result ≡ composed_size o n }
{
    if o.is_ok() { n } else { 0 }
}

// The part that is lent must fit in front of the end.
pub fn compose_step<'a>(
    words: Words<'_, 8>,
    stores: Stores<'a>,
    answers: &mut [u8],
    s: &mut Step,
) -> Result<(), Ended>
    requires { s.old.written + 12 ≤ length answers.old }
    ensures { Does (compose_step words.entry.script.now (lent stores.entry) (length answers.old) (take s.old.written answers.old) words.entry.at s.old.layout) s.old.written answers.old answers.new (reached result s.new) }
{
    let size = words.word(8) as usize;
    let written = s.written;
    if answers.len() - written - 12 < 8 + size {
        return Err(Ended::NoRoom);
    }
    let a = written + 8;
    let o = compose_in(words, stores, answers, s.layout, a, a + size);
    let more = composed_size(o, size);
    steps::write_number(answers, written, answers::number(o), (more / 4) as u32);
    s.next = words.at + 36;
    s.written = a + more;
    Ok(())
}

// Row of an image: it has at most 2048 pixels.
pub fn row_step<'a>(
    words: Words<'_, 2>,
    stores: Stores<'a>,
    answers: &mut [u8],
    s: &mut Step,
) -> Result<(), Ended>
    requires { s.old.written + 12 ≤ length answers.old }
    ensures { Does (row_step words.entry.script.now (lent stores.entry) (length answers.old) (take s.old.written answers.old) words.entry.at s.old.layout) s.old.written answers.old answers.new (reached result s.new) }
{
    let key = Key(words.word(1));
    let row = words.word(2);
    let n = answers::number(image_row::row_refusal(s.layout, stores, key, row));
    let part = image_row::row_of_image(s.layout, stores, key, row);
    let size = part.len();
    let written = s.written;
    if answers.len() - written - 12 < 8 + size {
        return Err(Ended::NoRoom);
    }
    steps::write_number(answers, written, n, (size / 4) as u32);
    words::put_bytes(answers, written + 8, part);
    s.next = words.at + 12;
    s.written = written + 8 + size;
    Ok(())
}
