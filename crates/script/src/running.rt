// The script's commands one after the other on one layout, and the end.
ghost use Rattle.std.specs.Prelude.{◌≡◌, ◌+◌, ◌≤◌, ◌<◌, length, take};
ghost use Rattle.art.specs.Stores.{lent};
ghost use Rattle.records.specs.Settings.{blank_config, empty_layout};
ghost use Rattle.wire.specs.Bytes.{put};
ghost use Rattle.commands.specs.Taking.{command_number, words_of, There};
ghost use Rattle.script.specs.Stepping.{end_bytes, command_step, stepped};
ghost use Rattle.script.specs.Running.{ran};
ghost use Rattle.geometry.specs.Words.{reached};
ghost use Rattle.script.specs.Doing.{Does};

use crate::steps::{Ended, Step};
use crate::{bytes, checking, steps, telling};
use art::memory_rgba8_texture::Stores;
use commands::command::{Command, Words};
use records::layout::Layout;
use records::{layout as layouts, texture_packer_config};
use wire::words;

// The command where the last one left off, whose words are there. How many it takes is known in each arm alone, so a clause asks, and each arm makes its `Words`.
fn run_command<'a>(
    script: &'a [u8],
    stores: Stores<'a>,
    answers: &mut [u8],
    command: Command,
    s: &mut Step,
) -> Result<(), Ended>
    requires command_bound { There script.now s.old.next (words_of (command_number command)) }
    requires written_in_bounds { s.old.written + 12 ≤ length answers.old }
    ensures { Does (command_step script.now (lent stores.entry) (length answers.old) (take s.old.written answers.old) s.old.next s.old.layout (command_number command)) s.old.written answers.old answers.new (reached result s.new) }
{
    let at = s.next;
    match command {
        Command::Open => telling::open(Words { script, at }, answers, s),
        Command::Ask => telling::ask(Words { script, at }, answers, s),
        Command::Offer => telling::offer(Words { script, at }, stores, answers, s),
        Command::Withdraw => telling::withdraw(Words { script, at }, answers, s),
        Command::PageSize => telling::page_size(Words { script, at }, answers, s),
        Command::Pixel => telling::pixel(Words { script, at }, stores, answers, s),
        Command::Coordinates => telling::coordinates(Words { script, at }, answers, s),
        Command::ComposeRows => bytes::compose_step(Words { script, at }, stores, answers, s),
        Command::CheckRows => checking::check_step(Words { script, at }, stores, answers, s),
        Command::RowOfImage => bytes::row_step(Words { script, at }, stores, answers, s),
        Command::Set => steps::set_step(Words { script, at }, s),
        Command::Data => steps::data_step(Words { script, at }, s),
    }
}

// The next command, from where the last one left off.
fn step<'a>(
    script: &'a [u8],
    stores: Stores<'a>,
    answers: &mut [u8],
    s: &mut Step,
) -> Result<(), Ended>
    requires { (s.old.next < length script.now) × (s.old.written + 12 ≤ length answers.old) }
    ensures { Does (stepped script.now (lent stores.entry) (length answers.old) (take s.old.written answers.old) s.old.next s.old.layout) s.old.written answers.old answers.new (reached result s.new) }
{
    let left = script.len() - s.next;
    if left < 4 {
        return Err(Ended::CutShort);
    }
    let command = Command::try_from(words::word_at(script, s.next))?;
    if left - 4 < 4 * command.words() {
        return Err(Ended::CutShort);
    }
    run_command(script, stores, answers, command, s)
}

// The end: a code and where it ended, modulo 2^32.
fn finish(answers: &mut [u8], written: usize, code: u32, at: usize) -> usize
    requires { written + 12 ≤ length answers.old }
    ensures { (result ≡ written + 12) × (answers.new ≡ put answers.old written (end_bytes code at)) }
{
    words::put_word(answers, written, 2);
    words::put_word(answers, written + 4, code);
    words::put_word(answers, written + 8, (at % 4294967296) as u32);
    written + 12
}

// At the start the layout is the blank one.
fn blank() -> Layout
    ensures { result ≡ empty_layout blank_config }
{
    layouts::empty_layout(texture_packer_config::blank_config())
}

pub fn run_commands<'a>(script: &'a [u8], stores: Stores<'a>, answers: &mut [u8]) -> usize
    requires { 12 ≤ length answers.old }
    ensures value { result ≡ length (ran script.now (lent stores.entry) (length answers.old)) }
    ensures answers_after { answers.new ≡ put answers.old 0 (ran script.now (lent stores.entry) (length answers.old)) }
{
    let mut s = Step {
        layout: blank(),
        next: 0,
        written: 0,
    };
    while s.next < script.len() {
        let at = s.next;
        let written = s.written;
        match step(script, stores, answers, &mut s) {
            Ok(()) => {}
            Err(ended) => return finish(answers, written, u32::from(ended), at),
        }
    }
    finish(answers, s.written, 0, s.next)
}
