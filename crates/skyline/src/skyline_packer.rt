// One page's skyline, after skyline_packer.rs of texture_packer: the search for the best spot for a cell, and the skyline with
// the cell there, in two lent slices and a count. The area and whether cells may be turned stay two parameters, as the rule's
// definitions take them.
ghost use Rattle.std.specs.Prelude.{◌≡◌, List, [], ℕ, ◌+◌, ◌-◌, ◌≤◌, ◌<◌, length, get_or, leb, MatchOption};
ghost use Rattle.geometry.specs.Words.{any};
ghost use Rattle.geometry.specs.Placing.{rank, top, lying, cell_at, spot_at, inside, orientations, fitting_at, best_of, spot_for, is_found};
ghost use Rattle.geometry.specs.Fits.{HasPixels};
ghost use Rattle.skyline.specs.Skyline.{outline, lent, stored, Whole, fitted, Shape, Level, TooSmall, Limits, Holds, Room, Put};
ghost use Rattle.geometry.specs.declared.rect.Rect.{Rect};

use crate::skyline;
use crate::skyline::{Segments, Skyline};
use geometry::rect::{Rect, Size};
use geometry::spot;
use geometry::spot::{Spot, Turn};

impl<'a> Segments<'a> {
    // Whether no column from segment i's start up to column e is higher than `most`.
    fn stays_under(self, i: usize, e: u32, most: u32) -> bool
        requires shape { (w : ℕ) × Shape w (lent self) × (e ≤ w) }
        requires i_lt_n { (i < self.n) × (get_or self.xs.now i 0 ≤ e) }
        ensures { (f : ℕ → ℕ) → Level f (lent self.entry) →
            result ≡ leb (top f (get_or self.entry.xs.now i 0) (e - get_or self.entry.xs.now i 0)) most }
    {
        for j in i..self.n {
            if e <= self.xs[j] {
                return true;
            }
            if most < self.ys[j] {
                return false;
            }
        }
        true
    }

    // Where a cell that lies as `size` says would end at the start of segment i, and the greatest height that it can stand on there:
    // nothing if the area is too small for it.
    fn limits_at(self, i: usize, area: Size, size: Size) -> Option<(u32, u32)>
        requires shape { Shape area.w (lent self) }
        requires i_lt_n { i < self.n }
        ensures { MatchOption result (TooSmall area size (get_or self.entry.xs.now i 0)) (λ l. Limits area size (get_or self.entry.xs.now i 0) l.0 l.1) }
    {
        let s = self.xs[i];
        if area.w - s < size.w {
            return None;
        }
        Some((s + size.w, area.h.checked_sub(size.h)?))
    }

    // Whether a cell that lies as `size` says fits at the start of segment i.
    fn fits_at(self, i: usize, area: Size, size: Size) -> bool
        requires shape { Shape area.w (lent self) }
        requires i_lt_n { i < self.n }
        ensures { (f : ℕ → ℕ) → Level f (lent self.entry) →
            result ≡ inside area (cell_at f size (get_or self.entry.xs.now i 0)) }
    {
        match self.limits_at(i, area, size) {
            None => false,
            Some((end, most)) => self.stays_under(i, end, most),
        }
    }

    // Whether a cell fits at the start of segment i in an allowed orientation. Most starts end here.
    fn fits_some(self, i: usize, area: Size, rotation: bool, cell: Size) -> bool
        requires shape { Shape area.w (lent self) }
        requires i_lt_n { i < self.n }
        ensures { (f : ℕ → ℕ) → Level f (lent self.entry) →
            result ≡ any (λ t. inside area (cell_at f (lying t cell) (get_or self.entry.xs.now i 0))) (orientations rotation) }
    {
        if self.fits_at(i, area, cell) {
            return true;
        }
        rotation && self.fits_at(i, area, spot::lying_size(Turn::Turned, cell))
    }

    // The greatest height of the columns from segment i's start up to column e.
    fn top_of(self, i: usize, e: u32) -> u32
        requires shape { (w : ℕ) × Shape w (lent self) × (e ≤ w) }
        requires i_lt_n { (i < self.n) × (get_or self.xs.now i 0 ≤ e) }
        ensures { (f : ℕ → ℕ) → Level f (lent self.entry) →
            result ≡ top f (get_or self.entry.xs.now i 0) (e - get_or self.entry.xs.now i 0) }
    {
        let mut y = 0;
        for j in i..self.n {
            if e <= self.xs[j] {
                return y;
            }
            y = self.ys[j].max(y);
        }
        y
    }

    // A cell that lies as `size` says at the start of segment i, if it fits.
    fn can_put(self, i: usize, area: Size, turn: Turn, size: Size) -> Option<Spot>
        requires shape { Shape area.w (lent self) }
        requires i_lt_n { (i < self.n) × (0 < size.h) }
        ensures { (f : ℕ → ℕ) → Level f (lent self.entry) →
            result ≡ fitted area (spot_at f area.w turn size (get_or self.entry.xs.now i 0)) }
    {
        let (end, most) = self.limits_at(i, area, size)?;
        let y = self.top_of(i, end);
        if most < y {
            return None;
        }
        let s = self.xs[i];
        let at = Rect {
            x: s,
            y,
            w: size.w,
            h: size.h,
        };
        Some(Spot {
            at,
            bottom: y + size.h - 1,
            segment: self.xs[i + 1] - s,
            turn,
        })
    }

    // Segment i's start tried upright and, if allowed, turned, after what was found so far.
    fn try_at(
        self,
        i: usize,
        area: Size,
        rotation: bool,
        cell: Size,
        found: Option<Spot>,
    ) -> Option<Spot>
        requires shape { Shape area.w (lent self) }
        requires i_lt_n { (i < self.n) × HasPixels cell }
        ensures { (f : ℕ → ℕ) → Level f (lent self.entry) →
            result ≡ best_of rank found (fitting_at f area rotation cell (get_or self.entry.xs.now i 0)) }
    {
        let a = spot::choose(found, self.can_put(i, area, Turn::Upright, cell));
        if rotation {
            let turned = spot::lying_size(Turn::Turned, cell);
            spot::choose(a, self.can_put(i, area, Turn::Turned, turned))
        } else {
            a
        }
    }

    // The best spot for a cell. A start is tried only where the cell ends no lower than what was found before.
    pub fn find_skyline(self, area: Size, rotation: bool, cell: Size) -> Option<Spot>
        requires { Shape area.w (lent self) × HasPixels cell }
        ensures { (f : ℕ → ℕ) → Level f (lent self.entry) → result ≡ spot_for f area rotation cell }
    {
        let mut found = None;
        let mut low = area.h;
        for i in 0..self.n {
            let above = Size { w: area.w, h: low };
            if self.fits_some(i, above, rotation, cell) {
                found = self.try_at(i, area, rotation, cell, found);
                low = spot::lowest_end(area.h, found);
            }
        }
        found
    }

    // Whether a cell has a spot: the first start where it fits decides.
    pub fn can_pack(self, area: Size, rotation: bool, cell: Size) -> bool
        requires { Shape area.w (lent self) × HasPixels cell }
        ensures { (f : ℕ → ℕ) → Level f (lent self.entry) → result ≡ is_found (spot_for f area rotation cell) }
    {
        for i in 0..self.n {
            if self.fits_some(i, area, rotation, cell) {
                return true;
            }
        }
        false
    }
}

// What was found, and the number of segments that the skyline then has.
#[derive(Clone, Copy)]
pub struct Packed {
    pub found: Option<Spot>,
    pub n: usize,
}

// The skyline of an empty page, of one segment.
pub fn new(xs: &mut [u32], ys: &mut [u32], w: u32)
    requires { (0 < w) × (1 < length xs.old) × (0 < length ys.old) }
    ensures { Holds w [] (outline xs.new ys.new 1) }
{
    xs[0] = 0;
    xs[1] = w;
    ys[0] = 0;
}

// The best spot for a cell, and the skyline with the cell there.
pub fn pack(
    xs: &mut [u32],
    ys: &mut [u32],
    n: usize,
    area: Size,
    rotation: bool,
    cell: Size,
) -> Packed
    requires holds { (cells : List Rect) × Holds area.w cells (outline xs.old ys.old n) × Room cells (outline xs.old ys.old n) }
    requires has_pixels { HasPixels cell }
    ensures { (cells : List Rect) → Holds area.w cells (outline xs.old ys.old n) →
        Put area rotation cell cells result.found (outline xs.new ys.new result.n) }
{
    let found = Segments { xs, ys, n }.find_skyline(area, rotation, cell);
    match found {
        None => Packed { found, n },
        Some(spot) => {
            let at = spot.at;
            let n = skyline::split_and_merge(xs, ys, n, at.x, at.x + at.w, at.y + at.h);
            Packed { found, n }
        }
    }
}

impl Skyline {
    // The best spot for a cell.
    pub fn find_skyline(&self, area: Size, rotation: bool, cell: Size) -> Option<Spot>
        requires { Shape area.w (stored self.now) × HasPixels cell }
        ensures { (f : ℕ → ℕ) → Level f (stored self.now) → result ≡ spot_for f area rotation cell }
    {
        self.segments().find_skyline(area, rotation, cell)
    }

    // Whether a cell has a spot.
    pub fn can_pack(&self, area: Size, rotation: bool, cell: Size) -> bool
        requires { Shape area.w (stored self.now) × HasPixels cell }
        ensures { (f : ℕ → ℕ) → Level f (stored self.now) → result ≡ is_found (spot_for f area rotation cell) }
    {
        self.segments().can_pack(area, rotation, cell)
    }

    // The best spot for a cell, and the skyline with the cell there.
    pub fn pack(&mut self, area: Size, rotation: bool, cell: Size) -> Option<Spot>
        requires holds { (cells : List Rect) × Holds area.w cells (stored self.old) × (length cells + 2 < 258) }
        requires has_pixels { HasPixels cell }
        ensures put { (cells : List Rect) → Holds area.w cells (stored self.old) →
            Put area rotation cell cells result (stored self.new) }
        ensures whole { Whole self.new }
    {
        let packed = pack(&mut self.xs, &mut self.ys, self.n, area, rotation, cell);
        self.n = packed.n;
        packed.found
    }
}
