// The job and its art, read from their files; what is wrong with them is said.
ghost use Rattle.std.specs.Prelude.{◌≤◌, IfSome, length};
ghost use Rattle.tool.specs.Counts.{IsPrefixLen};

use crate::{files, telling};
use art::memory_rgba8_texture::Stores;
use job::reading;
use job::reading::{Job, Malformed};
use std::rt::Files;

// The names that the arguments give a job, as they are: bytes, which need not be text.
#[derive(Clone, Copy)]
pub struct Names<'a> {
    pub job: &'a [u8],
    pub symbols: &'a [u8],
    pub wording: &'a [u8],
    pub folder: &'a [u8],
}

// A job and the two stores of its art, each the front of the buffer that was lent for it.
#[derive(Clone, Copy)]
pub struct Ready<'a> {
    pub job: Job,
    pub stores: Stores<'a>,
}

fn load(rt: &(impl Files + Print), path: &[u8], buf: &mut [u8]) -> Option<usize>
    ensures { IfSome result (λ n. IsPrefixLen n buf.new) }
{
    match files::read_file(rt, path, buf) {
        Ok(n) => Some(n),
        Err(unread) => {
            telling::say_of(rt, path, unread);
            None
        }
    }
}

// pump.job: line 7: malformed: ..
fn parse(rt: &impl Print, path: &[u8], text: &[u8]) -> Option<Job> {
    match reading::read_job(text) {
        Ok(job) => Some(job),
        Err(Malformed { trouble, line }) => {
            telling::say_line(rt, path, line, format_args!("malformed: {trouble}"));
            None
        }
    }
}

// All three are read even where one is missing, so that each trouble is said.
pub fn prepare<'a>(
    rt: &(impl Files + Print),
    names: Names<'_>,
    text: &mut [u8],
    symbols: &'a mut [u8],
    wording: &'a mut [u8],
) -> Option<Ready<'a>>
    ensures symbols_fit { IfSome result (λ ready. length ready.stores.symbols.now ≤ length symbols.old) }
    ensures wording_fit { IfSome result (λ ready. length ready.stores.wording.now ≤ length wording.old) }
{
    let t = load(rt, names.job, text);
    let s = load(rt, names.symbols, symbols);
    let w = load(rt, names.wording, wording);
    let job = parse(rt, names.job, &text[..t?])?;
    let stores = Stores {
        symbols: &symbols[..s?],
        wording: &wording[..w?],
    };
    Some(Ready { job, stores })
}
