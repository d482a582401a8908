// A layout: blanks, well-formed, the page count, keys; and the operations that need no more: open, page size.
ghost use Rattle.std.specs.Prelude.{◌≡◌, MatchOption, true, false, ◌+◌, ◌≤◌, ◌<◌, max};
ghost use Rattle.std.proofs.Math.Option.{none, some};
ghost use Rattle.geometry.specs.Words.{all};
ghost use Rattle.records.specs.Settings.{in_bounds, empty_layout};
ghost use Rattle.records.specs.Records.{is_blank, record_well_formed};
ghost use Rattle.records.specs.Layouts.{standing, unused, well_formed, record_of, key_place, on_page, page_count, ends_of, size_of_page};
ghost use Rattle.records.specs.Operations.{opened, opened_numbers, page_sized, sized_numbers};

use crate::frame::{Key, Page, Record};
use crate::refusal::Refusal;
use crate::texture_packer_config::{Config, InBounds};
use crate::{frame, texture_packer_config};
use geometry::rect::Size;

// Fixed memory, no heap: 256 places, of which the first `count` stand.
#[derive(Clone, Copy)]
pub struct Layout {
    pub config: Config,
    pub count: usize,
    pub records: [Record; 256],
}

// A layout that was tested: it is well-formed. Whoever makes one proves it.
#[derive(Clone, Copy)]
pub struct WellFormed<'a> {
    pub layout: &'a Layout,
    pub ghost tested: { well_formed layout.now ≡ true },
}

impl Layout {
    pub fn well_formed(&self) -> Option<WellFormed<'_>>
        ensures { MatchOption result (well_formed self.now ≡ false) (λ l. l.layout.now ≡ self.now) }
    {
        let c = self.config.in_bounds()?;
        if (c.config.images as usize) < self.count {
            return None;
        }
        let (standing, unused) = self.records.split_at(self.count);
        if all_blank(unused) && records_ok(c, standing) {
            return Some(WellFormed { layout: self });
        }
        None
    }
}

impl<'a> WellFormed<'a> {
    pub fn config(self) -> InBounds
        ensures { result.config ≡ self.entry.layout.now.config }
    {
        InBounds {
            config: self.layout.config,
        }
    }

    // One record per standing image, in order of acceptance.
    pub fn standing(self) -> &'a [Record]
        ensures { result.now ≡ standing self.entry.layout.now }
    {
        let l = self.layout;
        &l.records[..l.count]
    }

    // The earliest record that has a key.
    pub fn named(self, key: Key) -> Option<&'a Record>
        ensures { MatchOption result (record_of self.entry.layout.now key ≡ none) (λ r. record_of self.entry.layout.now key ≡ some r.now) }
    {
        self.standing().iter().find(|r| r.key == key)
    }

    // The place of that record among those that stand, or how many stand.
    pub fn find_key(self, key: Key) -> usize
        ensures { result ≡ key_place key (standing self.entry.layout.now) }
    {
        let standing = self.standing();
        standing
            .iter()
            .position(|r| r.key == key)
            .unwrap_or(standing.len())
    }

    // One more than the greatest page number, or 0.
    pub fn page_count(self) -> u32
        ensures { result ≡ page_count (standing self.entry.layout.now) }
    {
        let standing = self.standing();
        let mut pages = 0;
        for r in standing {
            pages = pages.max(r.page.0 + 1);
        }
        pages
    }

    // Where the frames of a page end, the border after them included; 0 without frames.
    fn frame_ends(self, page: Page) -> Size
        ensures { result ≡ ends_of self.entry.layout.now.config.border (on_page page.0 (standing self.entry.layout.now)) }
    {
        let border = self.layout.config.border;
        let standing = self.standing();
        let mut w = 0;
        let mut h = 0;
        for r in standing {
            if r.page == page {
                w = w.max(r.frame.x + r.frame.w + border);
                h = h.max(r.frame.y + r.frame.h + border);
            }
        }
        Size { w, h }
    }

    // The maxima if forced; else where the page's frames end.
    #[tactic(auto, unfolding(crate::specs::Layouts::size_of_page))]
    pub fn size_of_page(self, page: Page) -> Size
        ensures { result ≡ size_of_page self.entry.layout.now page }
    {
        let c = self.layout.config;
        if c.forced {
            return Size {
                w: c.maxw,
                h: c.maxh,
            };
        }
        self.frame_ends(page)
    }
}

// An answer, and the layout that goes along.
#[derive(Clone, Copy)]
pub struct Answered<A> {
    pub answer: A,
    pub layout: Layout,
}

pub type Opening = Answered<Result<(), Refusal>>;

#[tactic(auto, unfolding(crate::specs::Settings::empty_layout))]
pub fn empty_layout(c: Config) -> Layout
    ensures { result ≡ empty_layout c }
{
    let blank = frame::blank_record();
    Layout {
        config: c,
        count: 0,
        records: [blank; 256],
    }
}

// open: 1
#[tactic(auto, unfolding(crate::specs::Operations::opened, crate::specs::Operations::open_refusal, crate::specs::Operations::open_row, crate::specs::Refusals::first_refusal))]
pub fn open(c: Config) -> Opening
    ensures value { result ≡ opened c }
    ensures answer_value { opened_numbers result.answer ≡ opened_numbers (opened c).answer }
{
    if c.in_bounds().is_some() {
        return Answered {
            answer: Ok(()),
            layout: empty_layout(c),
        };
    }
    let blank = texture_packer_config::blank_config();
    Answered {
        answer: Err(Refusal::OutOfBounds),
        layout: empty_layout(blank),
    }
}

fn records_ok(c: InBounds, records: &[Record]) -> bool
    ensures { result ≡ all (record_well_formed c.config) records.now }
{
    records.iter().all(|r| frame::record_ok(c, *r))
}

fn all_blank(records: &[Record]) -> bool
    ensures { result ≡ all is_blank records.now }
{
    records.iter().all(|r| frame::is_blank(*r))
}

// page size: 2 11
#[tactic(auto, unfolding(crate::specs::Operations::page_sized, crate::specs::Operations::size_refusal, crate::specs::Operations::size_row, crate::specs::Operations::no_such_page, crate::specs::Refusals::first_refusal))]
pub fn page_size(l: Layout, page: Page) -> Result<Size, Refusal>
    ensures value { result ≡ page_sized l page }
    ensures result_value { sized_numbers result ≡ sized_numbers (page_sized l page) }
{
    let l = l.well_formed().ok_or(Refusal::NotWellFormed)?;
    if l.page_count() <= page.0 {
        return Err(Refusal::NoSuchPage);
    }
    Ok(l.size_of_page(page))
}
