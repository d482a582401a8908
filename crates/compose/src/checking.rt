// Check rows: the auditor's check. It reads the lent page bytes themselves, and writes nothing.
ghost use Rattle.std.specs.Prelude.{◌≡◌, false, ℕ, ◌+◌, ◌*◌, ◌<◌, ◌≤◌, length, MatchOption};
ghost use Rattle.art.specs.Stores.{lent, pixel_from};
ghost use Rattle.art.specs.declared.memory_rgba8_texture.Pixel.{Pixel};
ghost use Rattle.art.specs.Trimming.{first_seen};
ghost use Rattle.records.specs.Layouts.{standing};
ghost use Rattle.lookup.specs.Looking.{page_past};
ghost use Rattle.paint.specs.Pictures.{composed_at};
ghost use Rattle.paint.specs.Painting.{Shows};
ghost use Rattle.compose.specs.Checking.{same_pixel, compared, checked_rows, checked_numbers};
ghost use Rattle.compose.specs.Comparing.{off_at};

use crate::image_exporter;
use art::memory_rgba8_texture;
use art::memory_rgba8_texture::Stores;
use paint::background::Background;
use paint::painting;
use records::frame::Page;
use records::layout::{Layout, WellFormed};
use records::refusal::Refusal;

// Pixel number i of the one is pixel number j of the other.
fn same_pixel(a: &[u8], i: usize, b: &[u8], j: usize) -> bool
    requires { (4 * i + 4 ≤ length a.now) × (4 * j + 4 ≤ length b.now) }
    ensures { result ≡ same_pixel (pixel_from a.now (4 * i)) (pixel_from b.now (4 * j)) }
{
    memory_rgba8_texture::pixel_from(a, 4 * i) == memory_rgba8_texture::pixel_from(b, 4 * j)
}

// The first of the w pixels from pixel number `base` on that is not the same in both.
fn first_off(shown: &[u8], wanted: &[u8], base: usize, w: u32) -> Option<u32>
    requires { (4 * (base + w) ≤ length shown.now) × (4 * (base + w) ≤ length wanted.now) }
    ensures { MatchOption result (first_seen (off_at shown.now wanted.now base) w ≡ w)
        (λ x. (x < w) × (x ≡ first_seen (off_at shown.now wanted.now base) w)) }
{
    let from = 4 * base;
    let to = from + 4 * w as usize;
    // Most rows are the wanted ones, which all their bytes at once tell faster than pixel after pixel.
    if shown[from..to] == wanted[from..to] {
        return None;
    }
    for x in 0..w {
        let i = base + x as usize;
        if !same_pixel(shown, i, wanted, i) {
            return Some(x);
        }
    }
    None
}

// The lent rows, one after the other, against the wanted ones, which are the page's from row `first` on.
fn compare_rows(shown: &[u8], wanted: &[u8], w: u32, first: u32, rows: u32) -> Option<(u32, u32)>
    requires { (w ≤ 6271) × (first + rows ≤ 6271) × (length shown.now ≡ 4 * (w * rows)) × (length wanted.now ≡ 4 * (w * rows)) }
    ensures { (f : ℕ → ℕ → Pixel) → Shows f w first rows wanted.now → result ≡ compared f w first rows shown.now }
{
    for v in 0..rows {
        let y = first + v;
        let base = v as usize * w as usize;
        if let Some(x) = first_off(shown, wanted, base, w) {
            return Some((x, y));
        }
    }
    None
}

// The lent rows against the page's from `first` on, which are composed in `wanted`.
fn check_part(
    wanted: &mut [u8],
    l: WellFormed<'_>,
    stores: Stores<'_>,
    page: Page,
    background: Background,
    w: u32,
    first: u32,
    rows: u32,
    shown: &[u8],
) -> Option<(u32, u32)>
    requires l_value { page_past (lent stores) page (standing l.layout.now) ≡ false }
    requires w_bound { (w ≤ 6271) × (first + rows ≤ 6271) × (length wanted.old ≡ 4 * (w * rows)) × (length shown.now ≡ 4 * (w * rows)) }
    ensures { result ≡ compared (composed_at l.entry.layout.now (lent stores.entry) page background) w first rows shown.now }
{
    painting::paint_band(wanted, l, stores, page, background, w, first, rows);
    compare_rows(shown, wanted, w, first, rows)
}

// How many rows of a page that is w pixels wide are composed at once; the widest page has 6271 columns.
fn rows_at_once(w: u32, rows: u32) -> u32
    requires { (1 ≤ w) × (w ≤ 6271) × (1 ≤ rows) }
    ensures { (1 ≤ result) × (result ≤ rows) × (w * result ≤ 6271) }
{
    rows.min(6271 / w)
}

// The lent rows, some at a time, against the page's rows from `first` on.
fn check_band(
    room: &mut [u8],
    l: WellFormed<'_>,
    stores: Stores<'_>,
    page: Page,
    background: Background,
    w: u32,
    first: u32,
    rows: u32,
    shown: &[u8],
) -> Option<(u32, u32)>
    requires l_value { page_past (lent stores) page (standing l.layout.now) ≡ false }
    requires le_w { (1 ≤ w) × (w ≤ 6271) × (first + rows ≤ 6271) × (length room.old ≡ 25084) × (length shown.now ≡ 4 * (w * rows)) }
    ensures { result ≡ compared (composed_at l.entry.layout.now (lent stores.entry) page background) w first rows shown.now }
{
    // By hand: `chunks` would give the lent bytes of a part, and its first row and its count of rows would be worked out of them again.
    let mut v: u32 = 0;
    while v < rows {
        let n = rows_at_once(w, rows - v);
        let from = 4 * (v as usize * w as usize);
        let long = 4 * (n as usize * w as usize);
        if let Some(off) = check_part(
            &mut room[..long],
            l,
            stores,
            page,
            background,
            w,
            first + v,
            n,
            &shown[from..from + long],
        ) {
            return Some(off);
        }
        v += n;
    }
    None
}

// Room for a row of the widest page, and for several of a narrower one.
fn new_room() -> [u8; 25084]
    ensures { length result ≡ 25084 }
{
    [0u8; 25084]
}

// check rows: 2 11 12 13 14 5
pub fn check_rows(
    l: Layout,
    stores: Stores<'_>,
    page: Page,
    background: Background,
    first: u32,
    rows: u32,
    shown: &[u8],
) -> Result<Option<(u32, u32)>, Refusal>
    ensures value { result ≡ checked_rows l (lent stores.entry) page background first rows shown.now }
    ensures result_value { checked_numbers result ≡ checked_numbers (checked_rows l (lent stores.entry) page background first rows shown.now) }
{
    let l = image_exporter::band_answer(&l, stores, page, first, rows, shown.len())?;
    let s = l.size_of_page(page);
    let mut room = new_room();
    let off = check_band(
        &mut room, l, stores, page, background, s.w, first, rows, shown,
    );
    Ok(off)
}
