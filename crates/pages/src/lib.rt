// Eight pages, each with its skyline, and the page loop. They are 16 KB, and lent wherever they are used.
#![tactic(auto)]

ghost use Rattle.std.specs.Prelude.{◌≡◌, List, ℕ, ◌≤◌, ◌<◌};
ghost use Rattle.geometry.specs.Placing.{height, spot_for, is_found};
ghost use Rattle.geometry.specs.Fits.{HasPixels};
ghost use Rattle.geometry.specs.declared.rect.Rect.{Rect};
ghost use Rattle.pages.specs.Pages.{Stands, Standing, first_fitting, PutOn, Fresh};

use geometry::rect::Size;
use geometry::spot::Spot;
use skyline::skyline::Skyline;

#[derive(Clone, Copy)]
pub struct Pages {
    pub skylines: [Skyline; 8],
}

impl Pages {
    // Eight empty pages.
    pub fn new(w: u32) -> Pages
        requires { 0 < w }
        ensures { Fresh w result }
    {
        Pages {
            skylines: [Skyline::new(w); 8],
        }
    }

    // The same, written over what they were: a replay begins with them in the pages that it is lent.
    pub fn fresh(&mut self, w: u32)
        requires { 0 < w }
        ensures { Fresh w self.new }
    {
        for p in 0..8 {
            self.skylines[p].clear(w);
        }
    }

    // Whether page p has a spot for a cell.
    pub fn can_pack_on(&self, p: usize, area: Size, rotation: bool, cell: Size) -> bool
        requires by_index { (m : ℕ) × Standing area.w m self.now }
        requires p_bound { (p < 8) × HasPixels cell }
        ensures { (cells : ℕ → List Rect) (m : ℕ) → Stands area.w cells m self.now →
            result ≡ is_found (spot_for (height (cells p)) area rotation cell) }
    {
        self.skylines[p].can_pack(area, rotation, cell)
    }

    // The first of the first `count` pages that has a spot for a cell, else `count`.
    pub fn first_page(&self, count: usize, area: Size, rotation: bool, cell: Size) -> usize
        requires by_index { (m : ℕ) × Standing area.w m self.now }
        requires count_bound { (count ≤ 8) × HasPixels cell }
        ensures { (cells : ℕ → List Rect) (m : ℕ) → Stands area.w cells m self.now →
            result ≡ first_fitting cells area rotation cell count }
    {
        for p in 0..count {
            if self.can_pack_on(p, area, rotation, cell) {
                return p;
            }
        }
        count
    }

    // The best spot for a cell on page p, and the pages with the cell there.
    pub fn pack_on(&mut self, p: usize, area: Size, rotation: bool, cell: Size) -> Option<Spot>
        requires by_index { (m : ℕ) × Standing area.w m self.old × (m < 256) }
        requires p_bound { (p < 8) × HasPixels cell }
        ensures { (cells : ℕ → List Rect) (m : ℕ) → Stands area.w cells m self.old →
            PutOn area rotation cell p m cells result self.new }
    {
        self.skylines[p].pack(area, rotation, cell)
    }
}
