// The commands whose answer is words alone. One function each, so that a command pays for the layouts that it needs, and no other's.
ghost use Rattle.std.specs.Prelude.{◌≡◌, [], ◌+◌, ◌≤◌, length, take};
ghost use Rattle.art.specs.Stores.{lent};
ghost use Rattle.commands.specs.Telling.{open_told, ask_told, offer_told, withdraw_told, size_told, pixel_told, locate_told};
ghost use Rattle.script.specs.Stepping.{answer_bytes, saying, telling};
ghost use Rattle.geometry.specs.Words.{reached};
ghost use Rattle.script.specs.Doing.{Does};

use crate::steps;
use crate::steps::{Ended, Step};
use art::memory_rgba8_texture::Stores;
use commands::command::Words;
use records::layout::Answered;
use wire::answers::Answer;

// An answer with the layout that the next command runs on.
fn say_with(answers: &mut [u8], s: &mut Step, o: Answered<Answer>, next: usize) -> Result<(), Ended>
    requires { (o.answer.count ≤ 8) × (s.old.written + 12 ≤ length answers.old) }
    ensures { Does (saying (length answers.old) (take s.old.written answers.old) o.layout next (answer_bytes (take o.answer.count o.answer.words) [])) s.old.written answers.old answers.new (reached result s.new) }
{
    s.layout = o.layout;
    steps::say(answers, s, o.answer, next)
}

pub fn open(words: Words<'_, 11>, answers: &mut [u8], s: &mut Step) -> Result<(), Ended>
    requires { s.old.written + 12 ≤ length answers.old }
    ensures { Does (telling (length answers.old) (take s.old.written answers.old) words.entry.at 0 (open_told words.entry.script.now words.entry.at)) s.old.written answers.old answers.new (reached result s.new) }
{
    let o = commands::open(words);
    say_with(answers, s, o, words.at + 48)
}

pub fn ask(words: Words<'_, 3>, answers: &mut [u8], s: &mut Step) -> Result<(), Ended>
    requires { s.old.written + 12 ≤ length answers.old }
    ensures { Does (telling (length answers.old) (take s.old.written answers.old) words.entry.at 1 (ask_told words.entry.script.now words.entry.at s.old.layout)) s.old.written answers.old answers.new (reached result s.new) }
{
    let o = commands::ask(words, s.layout);
    steps::say(answers, s, o.answer, words.at + 16)
}

pub fn offer(
    words: Words<'_, 5>,
    stores: Stores<'_>,
    answers: &mut [u8],
    s: &mut Step,
) -> Result<(), Ended>
    requires { s.old.written + 12 ≤ length answers.old }
    ensures { Does (telling (length answers.old) (take s.old.written answers.old) words.entry.at 2 (offer_told words.entry.script.now words.entry.at (lent stores.entry) s.old.layout)) s.old.written answers.old answers.new (reached result s.new) }
{
    let o = commands::offer(words, stores, s.layout);
    say_with(answers, s, o, words.at + 24)
}

pub fn withdraw(words: Words<'_, 0>, answers: &mut [u8], s: &mut Step) -> Result<(), Ended>
    requires { s.old.written + 12 ≤ length answers.old }
    ensures { Does (telling (length answers.old) (take s.old.written answers.old) words.entry.at 3 (withdraw_told s.old.layout)) s.old.written answers.old answers.new (reached result s.new) }
{
    let o = commands::withdraw(s.layout);
    say_with(answers, s, o, words.at + 4)
}

pub fn page_size(words: Words<'_, 1>, answers: &mut [u8], s: &mut Step) -> Result<(), Ended>
    requires { s.old.written + 12 ≤ length answers.old }
    ensures { Does (telling (length answers.old) (take s.old.written answers.old) words.entry.at 4 (size_told words.entry.script.now words.entry.at s.old.layout)) s.old.written answers.old answers.new (reached result s.new) }
{
    let o = commands::page_size(words, s.layout);
    steps::say(answers, s, o.answer, words.at + 8)
}

pub fn pixel(
    words: Words<'_, 3>,
    stores: Stores<'_>,
    answers: &mut [u8],
    s: &mut Step,
) -> Result<(), Ended>
    requires { s.old.written + 12 ≤ length answers.old }
    ensures { Does (telling (length answers.old) (take s.old.written answers.old) words.entry.at 5 (pixel_told words.entry.script.now words.entry.at (lent stores.entry) s.old.layout)) s.old.written answers.old answers.new (reached result s.new) }
{
    let o = commands::pixel(words, stores, s.layout);
    steps::say(answers, s, o.answer, words.at + 16)
}

pub fn coordinates(words: Words<'_, 3>, answers: &mut [u8], s: &mut Step) -> Result<(), Ended>
    requires { s.old.written + 12 ≤ length answers.old }
    ensures { Does (telling (length answers.old) (take s.old.written answers.old) words.entry.at 9 (locate_told words.entry.script.now words.entry.at s.old.layout)) s.old.written answers.old answers.new (reached result s.new) }
{
    let o = commands::coordinates(words, s.layout);
    steps::say(answers, s, o.answer, words.at + 16)
}
