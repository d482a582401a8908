// All pages of a job that is laid out, on disk. They are written and read back under fresh names, and only then put in the place of older ones.
ghost use Rattle.std.specs.Prelude.{◌≤◌};

use crate::bands::{Pages, Sheet};
use crate::files::page_path;
use crate::system::LONGEST;
use crate::{page_files, system, telling};
use records::frame::Page;
use records::layout as layouts;
use records::layout::Layout;
use std::rt::Files;

// A page's own file, and the one that it has until it is read back.
const OWN: &[u8] = b".rgba";

const FRESH: &[u8] = b".rgba.new";

// The files of a job's pages. The folder's name is bytes, which need not be text.
#[derive(Clone, Copy)]
pub struct PageFolder<'a> {
    pub name: &'a [u8],
    pub pages: Pages<'a>,
}

impl PageFolder<'_> {
    // Whether all went well: what is done with each page, and with each number that the job has no page for. A layout has at most 8 pages.
    fn each_page<F: FnMut(Page, Option<Sheet<'_>>) -> bool>(&self, mut step: F) -> bool
        requires { F.IsAlwaysCallable step }
    {
        let mut good = true;
        for n in 0..8 {
            let page = Page(n);
            let pages = self.pages;
            let size = layouts::page_size(*pages.layout, page);
            let sheet = size.ok().map(|size| Sheet { pages, page, size });
            let went = step(page, sheet);
            good &= went;
        }
        good
    }

    fn write_fresh(&self, rt: &(impl Files + Print), buf: &mut [u8], sheet: &Sheet<'_>) -> bool {
        let mut name = [0u8; LONGEST];
        let n = page_path(self.name, sheet.page, FRESH, &mut name);
        let path = &name[..n];
        let written = page_files::write_file(rt, path, buf, sheet);
        page_files::say_page(rt, sheet, path, "written and read back, same", written);
        written.is_ok()
    }

    fn place(&self, rt: &(impl Files + Print), page: Page) -> bool {
        let mut fresh = [0u8; LONGEST];
        let mut own = [0u8; LONGEST];
        let a = page_path(self.name, page, FRESH, &mut fresh);
        let b = page_path(self.name, page, OWN, &mut own);
        let moved = system::rename(rt, &fresh[..a], &own[..b]);
        if !moved {
            telling::say_of(rt, &own[..b], "cannot be put in its place");
        }
        moved
    }

    fn remove(&self, rt: &impl Files, page: Page, ending: &[u8]) {
        let mut name = [0u8; LONGEST];
        let n = page_path(self.name, page, ending, &mut name);
        system::remove(rt, &name[..n]);
    }

    fn verify(&self, rt: &(impl Files + Print), buf: &mut [u8], sheet: &Sheet<'_>) -> bool {
        let mut name = [0u8; LONGEST];
        let n = page_path(self.name, sheet.page, OWN, &mut name);
        let path = &name[..n];
        let found = page_files::check_file(rt, path, buf, sheet);
        page_files::say_page(rt, sheet, path, "same", found);
        found.is_ok()
    }

    // A page that the job has not must have no file: nobody checked what such a file shows.
    fn verify_none(&self, rt: &(impl Files + Print), page: Page) -> bool {
        let mut name = [0u8; LONGEST];
        let n = page_path(self.name, page, OWN, &mut name);
        let path = &name[..n];
        let there = system::open_read(rt, path).is_some();
        if there {
            telling::say_of(rt, path, "the job has no such page");
        }
        !there
    }

    // The pages are put in their places only once all are written and read back, and else the pages of an earlier run stay. One that cannot be put in its
    // place does not keep the others.
    pub fn pack(&self, rt: &(impl Files + Print), buf: &mut [u8]) -> bool {
        let written = self.each_page(|_, sheet| match sheet {
            Some(sheet) => self.write_fresh(rt, buf, &sheet),
            None => true,
        });
        if written {
            return self.each_page(|page, sheet| {
                if sheet.is_some() {
                    return self.place(rt, page);
                }
                self.remove(rt, page, OWN);
                true
            });
        }
        self.each_page(|page, sheet| {
            if sheet.is_some() {
                self.remove(rt, page, FRESH);
            }
            true
        });
        false
    }

    pub fn verify_all(&self, rt: &(impl Files + Print), buf: &mut [u8]) -> bool {
        self.each_page(|page, sheet| match sheet {
            Some(sheet) => self.verify(rt, buf, &sheet),
            None => self.verify_none(rt, page),
        })
    }
}

pub fn count_pages(l: &Layout) -> usize
    ensures { result ≤ 8 }
{
    (0..8)
        .filter(|n| layouts::page_size(*l, Page(*n)).is_ok())
        .count()
}
