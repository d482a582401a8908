// A page in bands, each of as many rows as the buffer holds.
ghost use Rattle.std.specs.Prelude.{◌*◌, ◌≤◌};
ghost use Rattle.tool.specs.Bands.{IsBand};
ghost use Rattle.tool.specs.declared.bands.Rows.{Rows};

use crate::telling::Refused;
use crate::{files, system};
use art::memory_rgba8_texture::Stores;
use compose::{checking, image_exporter};
use geometry::rect::Size;
use paint::background::Background;
use records::frame::Page;
use records::layout::Layout;
use records::refusal::Refusal;
use std::fmt;
use std::fmt::Display;
use std::io::{Read, Write};

// Why a page's file is not the page.
#[derive(Clone, Copy)]
pub enum Fault {
    Missing,
    // The column and the row of the first pixel of which a byte differs.
    Differs(u32, u32),
    // The row in which the file ends.
    TooShort(u32),
    TooLong,
    Unreadable,
    Unwritten,
    // A row is longer than the buffer.
    NoRoom,
    Refused(Refusal),
}

impl Display for Fault {
    fn fmt<W: fmt::Write>(&self, f: &mut fmt::Formatter<W>) -> fmt::Result {
        match *self {
            Fault::Missing => write!(f, "there is no such file"),
            Fault::Differs(x, y) => write!(f, "DIFFERS, first in column {x} of row {y}"),
            Fault::TooShort(y) => write!(f, "TOO SHORT, it ends in row {y}"),
            Fault::TooLong => write!(f, "TOO LONG, it goes on after the last row"),
            Fault::Unreadable => write!(f, "cannot be read"),
            Fault::Unwritten => write!(f, "cannot be written"),
            Fault::NoRoom => write!(f, "a row is longer than the buffer"),
            Fault::Refused(refusal) => {
                let operation = "compose or check rows";
                let refused = Refused { operation, refusal };
                write!(f, "{refused}")
            }
        }
    }
}

impl From<Refusal> for Fault {
    fn from(refusal: Refusal) -> Fault {
        Fault::Refused(refusal)
    }
}

// What the pages of a job are composed from.
#[derive(Clone, Copy)]
pub struct Pages<'a> {
    pub layout: &'a Layout,
    pub stores: Stores<'a>,
    pub background: Background,
}

// One of the pages, and its size.
#[derive(Clone, Copy)]
pub struct Sheet<'a> {
    pub pages: Pages<'a>,
    pub page: Page,
    pub size: Size,
}

// Whole rows of a page: how many bytes each has, the first, and how many they are.
#[derive(Clone, Copy)]
struct Rows {
    long: usize,
    first: u32,
    count: u32,
}

// How many of the rows that are left are taken at once.
fn rows_at_once(room: usize, row: usize, left: u32) -> u32
    requires { 1 ≤ row }
    ensures { (result ≤ left) × (row * result ≤ room) }
{
    let most = room / row;
    if most < left as usize {
        return most as u32;
    }
    left
}

impl Sheet<'_> {
    fn compose(&self, rows: Rows, band: &mut [u8]) -> Result<(), Fault> {
        let pages = self.pages;
        image_exporter::compose_rows(
            *pages.layout,
            pages.stores,
            self.page,
            pages.background,
            rows.first,
            rows.count,
            band,
        )?;
        Ok(())
    }

    fn check(&self, rows: Rows, shown: &[u8]) -> Result<(), Fault> {
        let pages = self.pages;
        match checking::check_rows(
            *pages.layout,
            pages.stores,
            self.page,
            pages.background,
            rows.first,
            rows.count,
            shown,
        )? {
            Some((x, y)) => Err(Fault::Differs(x, y)),
            None => Ok(()),
        }
    }

    // One band, read into the buffer and checked there.
    fn check_band<F: Read>(&self, file: &mut F, rows: Rows, band: &mut [u8]) -> Result<(), Fault>
        requires { IsBand rows band.old }
    {
        let got = system::read_full(file, band);
        if got < band.len() {
            files::rest(file).map_err(|_| Fault::Unreadable)?;
            return Err(Fault::TooShort(rows.first + (got / rows.long) as u32));
        }
        self.check(rows, band)
    }

    // The page from its first row to its last, in bands of as many rows as the buffer holds.
    fn each_band<F: FnMut(Rows, &mut [u8]) -> Result<(), Fault>>(
        &self,
        buf: &mut [u8],
        mut step: F,
    ) -> Result<(), Fault>
        requires { (s : F) (rows : Rows) (band : _) → IsBand rows band.now → F.pre s rows band }
    {
        let Size { w, h } = self.size;
        if w == 0 {
            return Err(Fault::Refused(Refusal::EmptyPage));
        }
        // A page of no height has no rows to take, whatever the buffer.
        if h == 0 {
            return Ok(());
        }
        let long = 4 * w as usize;
        let most = buf.len() / long;
        if most == 0 {
            return Err(Fault::NoRoom);
        }
        for first in (0..h).step_by(most) {
            let count = rows_at_once(buf.len(), long, h - first);
            let end = long * count as usize;
            step(Rows { long, first, count }, &mut buf[..end])?;
        }
        Ok(())
    }

    // A page composed, and written to an open file.
    pub fn write_page<F: Write>(&self, file: &mut F, buf: &mut [u8]) -> Result<(), Fault> {
        self.each_band(buf, |rows, band| {
            self.compose(rows, band)?;
            system::write_all(file, band).map_err(|_| Fault::Unwritten)
        })
    }

    // The bytes of an open file, which has to be as long as the page.
    pub fn check_page<F: Read>(&self, file: &mut F, buf: &mut [u8]) -> Result<(), Fault> {
        self.each_band(
            buf,
            |rows, band|
                requires { IsBand rows band.old }
            { self.check_band(file, rows, band) },
        )?;
        if files::rest(file).map_err(|_| Fault::Unreadable)? {
            return Err(Fault::TooLong);
        }
        Ok(())
    }
}
