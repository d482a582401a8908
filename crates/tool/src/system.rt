// What the system gives the programs: the bytes of files, files by name, and the arguments.
ghost use Rattle.tool.specs.Counts.{IsPrefixLen};

use std::env::FillError;
use std::fs::OpenFile;
use std::io::{ErrorKind, Read, Write};
use std::rt::{Env, Files};
use std::{fs, io, str};

// The loops over a read and a write end at the first that fails, also where a signal interrupted it: std's read_exact and write_all would try again, and
// read_exact does not say how many bytes it read.

// Reads until the buffer is full, the file ends or a read fails, and answers how many bytes are in the front of the buffer.
pub fn read_full<F: Read>(file: &mut F, buf: &mut [u8]) -> usize
    ensures { IsPrefixLen result buf.new }
{
    let mut done = 0;
    while done < buf.len() {
        let n = file.read(&mut buf[done..]).unwrap_or(0);
        if n == 0 {
            break;
        }
        done += n;
    }
    done
}

// Writes all of the bytes; or stops at the first write that takes nothing or fails, which is an error.
pub fn write_all<F: Write>(file: &mut F, bytes: &[u8]) -> io::Result<()> {
    let mut done = 0;
    while done < bytes.len() {
        let n = file.write(&bytes[done..])?;
        if n == 0 {
            return Err(io::Error::from(ErrorKind::WriteZero));
        }
        done += n;
    }
    Ok(())
}

// std takes a path as text: bytes that are not UTF-8 name no file here.

pub fn open_read<R: Files>(rt: &R, path: &[u8]) -> Option<R::File> {
    let name = str::from_utf8(path).ok()?;
    fs::open(rt, name).ok()
}

// An older file is emptied, and one that is missing is made.
pub fn open_overwrite<R: Files>(rt: &R, path: &[u8]) -> Option<R::File> {
    let name = str::from_utf8(path).ok()?;
    fs::create(rt, name).ok()
}

// Closes a file that was written; an error says that not all of it has reached the file. std says no error of a close, so the file is synced before it,
// which finds what a close would find; a file of a kind that is never synced counts as written.
pub fn close_written<F: OpenFile + Drop>(file: F) -> io::Result<()> {
    match file.sync_all() {
        Err(error) if error.kind() == ErrorKind::InvalidInput => Ok(()),
        synced => synced,
    }
}

pub fn rename(rt: &impl Files, from: &[u8], to: &[u8]) -> bool {
    match (str::from_utf8(from), str::from_utf8(to)) {
        (Ok(old), Ok(new)) => fs::rename(rt, old, new).is_ok(),
        _ => false,
    }
}

// A file that is not there need not be removed.
pub fn remove(rt: &impl Files, path: &[u8]) {
    if let Ok(name) = str::from_utf8(path) {
        let _ = fs::remove_file(rt, name);
    }
}

// The longest name that is taken or made, as long as the longest path of a system call.
pub const LONGEST: usize = 4096;

// Argument i in the front of the buffer, and its length: bytes, which need not be text. It is 0 where there is none, and where it is longer than the
// buffer: an empty name, which no file has.
pub fn argument(rt: &impl Env, i: usize, buf: &mut [u8]) -> usize
    ensures { IsPrefixLen result buf.new }
{
    rt.arg(i, buf).unwrap_or(0)
}

fn has_argument(rt: &impl Env, i: usize) -> bool {
    let mut one = [0u8; 1];
    match rt.arg(i, &mut one) {
        Err(FillError::NotPresent) => false,
        _ => true,
    }
}

// How many arguments there are, with the program's own name.
pub fn argument_count(rt: &impl Env) -> usize {
    for i in 0..usize::MAX {
        if !has_argument(rt, i) {
            return i;
        }
    }
    usize::MAX
}
