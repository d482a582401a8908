// Compose rows, after image_exporter.rs of texture_packer. There a whole page is made in memory; here any rows of it, into a buffer that the
// caller lends.
ghost use Rattle.std.specs.Prelude.{◌≡◌, MatchResult, ◌≤◌};
ghost use Rattle.std.proofs.Math.Option.{none, some};
ghost use Rattle.art.specs.Stores.{lent};
ghost use Rattle.compose.specs.Composing.{empty_page, bad_rows, bad_length, band_refusal, composed_answer, composed_buffer, composed_numbers};

use art::memory_rgba8_texture::Stores;
use geometry::rect::Size;
use lookup::texture_packer;
use paint::background::Background;
use paint::painting;
use records::frame::Page;
use records::layout::{Layout, WellFormed};
use records::refusal::Refusal;

#[tactic(auto, unfolding(crate::specs::Composing::empty_page))]
fn empty_page(s: Size) -> bool
    ensures { result ≡ empty_page s }
{
    (s.w == 0) | (s.h == 0)
}

// The sum may pass 32 bits.
#[tactic(auto, unfolding(crate::specs::Composing::bad_rows))]
fn bad_rows(s: Size, first: u32, rows: u32) -> bool
    ensures { result ≡ bad_rows s first rows }
{
    let past = first as u64 + rows as u64;
    (rows == 0) | ((s.h as u64) < past)
}

#[tactic(auto, unfolding(crate::specs::Composing::bad_length))]
fn bad_length(s: Size, rows: u32, len: usize) -> bool
    requires { (s.w ≤ 6271) × (rows ≤ 6271) }
    ensures { result ≡ bad_length s rows len }
{
    len != 4 * (s.w as usize * rows as usize)
}

// compose rows, check rows: 2 11 12 13 14 5. The layout, tested, where nothing refuses the rows.
pub fn band_answer<'a>(
    l: &'a Layout,
    stores: Stores<'_>,
    page: Page,
    first: u32,
    rows: u32,
    len: usize,
) -> Result<WellFormed<'a>, Refusal>
    ensures { MatchResult result (λ t. (band_refusal l.now (lent stores.entry) page first rows len ≡ none) × (t.layout.now ≡ l.now))
        (λ r. band_refusal l.now (lent stores.entry) page first rows len ≡ some r) }
{
    let l = l.well_formed().ok_or(Refusal::NotWellFormed)?;
    if l.page_count() <= page.0 {
        return Err(Refusal::NoSuchPage);
    }
    let s = l.size_of_page(page);
    if empty_page(s) {
        return Err(Refusal::EmptyPage);
    }
    if bad_rows(s, first, rows) {
        return Err(Refusal::BadRows);
    }
    if bad_length(s, rows, len) {
        return Err(Refusal::BadLength);
    }
    if texture_packer::page_past(l, stores, page) {
        return Err(Refusal::PastStore);
    }
    Ok(l)
}

// compose rows: the background is none, or a colour with an optional threshold and the discard switch. Nothing is written where it refuses.
pub fn compose_rows(
    l: Layout,
    stores: Stores<'_>,
    page: Page,
    background: Background,
    first: u32,
    rows: u32,
    buffer: &mut [u8],
) -> Result<(), Refusal>
    ensures value { result ≡ composed_answer l (lent stores.entry) page first rows buffer.old }
    ensures result_value { composed_numbers result ≡ composed_numbers (composed_answer l (lent stores.entry) page first rows buffer.old) }
    ensures buffer_after { buffer.new ≡ composed_buffer l (lent stores.entry) page background first rows buffer.old }
{
    let l = band_answer(&l, stores, page, first, rows, buffer.len())?;
    let s = l.size_of_page(page);
    painting::paint_band(buffer, l, stores, page, background, s.w, first, rows);
    Ok(())
}
