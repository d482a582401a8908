// One step of a run: an answer is written where the end still fits after it. The commands that answer nothing.
ghost use Rattle.std.specs.Prelude.{◌≡◌, [], ◌∷◌, ◌+◌, ◌*◌, ◌≤◌, ◌<◌, length, take};
ghost use Rattle.wire.specs.Bytes.{words_bytes, put};
ghost use Rattle.script.specs.Stepping.{answer_bytes, saying, set_step, data_step};
ghost use Rattle.geometry.specs.Words.{reached};
ghost use Rattle.script.specs.Doing.{code_of, Leaves, Does};
ghost use Rattle.script.specs.declared.steps.Ended.TheVariants.{Unknown};

use commands::command::{NoCommand, Words};
use records::layout::Layout;
use wire::answers::Answer;
use wire::{fields, words};

// Why a run ends before its script does: no such command or field, a command that is cut short, no room for an answer, a part that runs past its source.
#[derive(Clone, Copy, PartialEq, Eq)]
pub enum Ended {
    Unknown = 1,
    CutShort = 2,
    NoRoom = 3,
    PastSource = 4,
}

impl From<Ended> for u32 {
    ghost from_gives = { λ e n. n ≡ code_of e };

    fn from(e: Ended) -> u32 {
        e as u32
    }
}

impl From<NoCommand> for Ended {
    ghost from_gives = { λ _ e. e ≡ Unknown };

    fn from(_: NoCommand) -> Ended {
        Ended::Unknown
    }
}

// Where a command leaves off, and the next one begins: the layout, the next command's place in the script, and the bytes of answers written.
#[derive(Clone, Copy)]
pub struct Step {
    pub layout: Layout,
    pub next: usize,
    pub written: usize,
}

fn write_answer(answers: &mut [u8], written: usize, a: Answer) -> usize
    requires { (a.count ≤ 8) × (written + 4 + 4 * a.count ≤ length answers.old) }
    ensures value { result ≡ written + length (answer_bytes (take a.count a.words) []) }
    ensures answers_after { answers.new ≡ put answers.old written (answer_bytes (take a.count a.words) []) }
{
    words::put_word(answers, written, a.count as u32);
    words::put_words(answers, written + 4, &a.words[..a.count]);
    written + 4 + 4 * a.count
}

// The layout stays.
pub fn say(answers: &mut [u8], s: &mut Step, a: Answer, next: usize) -> Result<(), Ended>
    requires { (a.count ≤ 8) × (s.old.written + 12 ≤ length answers.old) }
    ensures { Does (saying (length answers.old) (take s.old.written answers.old) s.old.layout next (answer_bytes (take a.count a.words) [])) s.old.written answers.old answers.new (reached result s.new) }
{
    let count = a.count;
    if answers.len() - s.written - 12 < 4 + 4 * count {
        return Err(Ended::NoRoom);
    }
    s.written = write_answer(answers, s.written, a);
    s.next = next;
    Ok(())
}

// An answer of one number, with `more` words to follow it, which are counted with it.
pub fn write_number(answers: &mut [u8], written: usize, n: u32, more: u32)
    requires { (written + 8 ≤ length answers.old) × (more < 2147483648) }
    ensures { answers.new ≡ put answers.old written (words_bytes ((1 + more) ∷ n ∷ [])) }
{
    words::put_word(answers, written, 1 + more);
    words::put_word(answers, written + 4, n);
}

pub fn set_step(words: Words<'_, 3>, s: &mut Step) -> Result<(), Ended>
    ensures { Leaves s.old.written (set_step words.entry.script.now words.entry.at s.old.layout) (reached result s.new) }
{
    let field = words.word(1);
    if !fields::is_field(field) {
        return Err(Ended::Unknown);
    }
    let place = words.word(2);
    let n = words.word(3);
    s.layout = fields::layout_with(s.layout, field, place, n);
    s.next = words.at + 16;
    Ok(())
}

pub fn data_step(words: Words<'_, 1>, s: &mut Step) -> Result<(), Ended>
    ensures { Leaves s.old.written (data_step words.entry.script.now words.entry.at s.old.layout) (reached result s.new) }
{
    let n = words.word(1) as usize;
    let left = words.script.len() - words.at - 8;
    if left < 4 * n {
        return Err(Ended::CutShort);
    }
    s.next = words.at + 8 + 4 * n;
    Ok(())
}
