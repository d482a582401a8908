// Files: one read whole, and the name of a page's file.
ghost use Rattle.std.specs.Prelude.{◌≡◌, ◌≤◌, ◌++◌, IfOk, length, take, decimal};
ghost use Rattle.tool.specs.Counts.{IsPrefixLen};
ghost use Rattle.tool.specs.Paths.{page_name};

use crate::system;
use records::frame::Page;
use std::fmt::Display;
use std::io::Read;
use std::rt::Files;
use std::{fmt, io};

// Why a file's bytes are not there.
#[derive(Clone, Copy)]
pub enum Unread {
    Missing,
    Unreadable,
    // It has more bytes than this.
    TooLong(usize),
}

impl Display for Unread {
    fn fmt<W: fmt::Write>(&self, f: &mut fmt::Formatter<W>) -> fmt::Result {
        match *self {
            Unread::Missing => write!(f, "cannot be opened"),
            Unread::Unreadable => write!(f, "cannot be read"),
            Unread::TooLong(limit) => write!(f, "is longer than {limit} bytes"),
        }
    }
}

impl From<io::Error> for Unread {
    fn from(_: io::Error) -> Unread {
        Unread::Unreadable
    }
}

// Whether the file goes on from here.
pub fn rest<F: Read>(file: &mut F) -> io::Result<bool> {
    let mut one = [0u8; 1];
    Ok(file.read(&mut one)? > 0)
}

// The whole of a file, in the front of the buffer, and how many bytes it has.
pub fn read_file(rt: &impl Files, path: &[u8], buf: &mut [u8]) -> Result<usize, Unread>
    ensures { IfOk result (λ n. IsPrefixLen n buf.new) }
{
    let mut file = system::open_read(rt, path).ok_or(Unread::Missing)?;
    let n = system::read_full(&mut file, buf);
    if rest(&mut file)? {
        return Err(Unread::TooLong(buf.len()));
    }
    Ok(n)
}

// Copies bytes to a place of the buffer, as far as there is room, and answers where they end.
fn put(buf: &mut [u8], at: usize, part: &[u8]) -> usize
    requires { at ≤ length buf.old }
    ensures ends { IsPrefixLen result buf.new }
    ensures bytes { take result buf.new ≡ take (length buf.old) (take at buf.old ++ part.now) }
{
    let n = part.len().min(buf.len() - at);
    buf[at..at + n].copy_from_slice(&part[..n]);
    at + n
}

// A number's decimal digits, likewise.
fn put_number(buf: &mut [u8], at: usize, number: u32) -> usize
    requires { at ≤ length buf.old }
    ensures ends { IsPrefixLen result buf.new }
    ensures bytes { take result buf.new ≡ take (length buf.old) (take at buf.old ++ decimal number) }
{
    let digit = [b'0' + (number % 10) as u8];
    let mut last = at;
    if number >= 10 {
        last = put_number(buf, at, number / 10);
    }
    put(buf, last, &digit)
}

// FOLDER/page-N and an ending. A name is cut where the buffer ends: with 4096 bytes that is a path which no system call takes. A layout's pages have one
// digit, which is written here: a call of `put_number` for it would cost the programs more.
pub fn page_path(folder: &[u8], page: Page, ending: &[u8], out: &mut [u8]) -> usize
    ensures ends { IsPrefixLen result out.new }
    ensures bytes { take result out.new ≡ take (length out.old) (page_name folder.now page.0 ending.now) }
{
    let digit = [b'0' + (page.0 % 10) as u8];
    let a = put(out, 0, folder);
    let b = put(out, a, b"/page-");
    let mut last = b;
    if page.0 >= 10 {
        last = put_number(out, b, page.0 / 10);
    }
    let c = put(out, last, &digit);
    put(out, c, ending)
}

#[cfg(test)]
mod tests {
    use super::*;

    #[test]
    fn names_pages(rt: HostRuntime) {
        let mut room = [0u8; 64];
        for (number, name) in [
            (0, "out/page-0.rgba"),
            (9, "out/page-9.rgba"),
            (10, "out/page-10.rgba"),
            (12, "out/page-12.rgba"),
            (4294967295, "out/page-4294967295.rgba"),
        ] {
            let n = page_path(b"out", Page(number), b".rgba", &mut room);
            assert_eq!(rt; &room[..n], name.as_bytes());
        }
        let cut = page_path(b"out", Page(1203), b".rgba", &mut room[..11]);
        assert_eq!(rt; &room[..cut], "out/page-12".as_bytes());
    }
}
