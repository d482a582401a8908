// Pixels of a page, after get_frame_at and get of texture_packer.rs of texture_packer. There a frame is looked up in a map, in no order; here
// the earliest accepted wins.
ghost use Rattle.std.specs.Prelude.{◌≡◌, Ok, true, false, ◌&&◌, ◌-◌, ◌≤◌, ◌<◌, eqb};
ghost use Rattle.std.proofs.Math.Option.{none};
ghost use Rattle.art.specs.Stores.{lent, runs_past, InStore, BoxIn};
ghost use Rattle.records.specs.Records.{image_of, box_of, record_well_formed};
ghost use Rattle.records.specs.Layouts.{standing};
ghost use Rattle.lookup.specs.Zones.{zone, reaches, local, box_pixel, red, frame_pixel, pixel_at};
ghost use Rattle.lookup.specs.Looking.{page_past, look_answer, looked, looked_numbers};

use art::memory_rgba8_texture::{Pixel, Stores};
use art::{memory_rgba8_texture, sub_texture, texture};
use geometry::rect::Rect;
use geometry::spot::Turn;
use records::frame;
use records::frame::{Page, Record};
use records::layout::{Layout, WellFormed};
use records::refusal::Refusal;
use records::texture_packer_config::{Config, InBounds};

pub fn zone_of(c: InBounds, r: Record) -> Rect
    requires { record_well_formed c.config r ≡ true }
    ensures { result ≡ zone c.config r }
{
    let f = r.frame;
    let e = c.config.extrusion;
    // The zone's corner is not below 0.
    Rect {
        x: f.x.saturating_sub(e),
        y: f.y.saturating_sub(e),
        w: f.w + 2 * e,
        h: f.h + 2 * e,
    }
}

#[tactic(auto, unfolding(crate::specs::Zones::reaches))]
fn reaches_pixel(c: InBounds, page: Page, r: Record, x: u32, y: u32) -> bool
    requires { record_well_formed c.config r ≡ true }
    ensures { result ≡ reaches c.config page x y r }
{
    let z = zone_of(c, r);
    (r.page == page) & z.contains_point(x, y)
}

#[tactic(auto, unfolding(crate::specs::Zones::local))]
fn local_of(x: u32, corner: u32, side: u32) -> u32
    requires { 1 ≤ side }
    ensures { result ≡ local x corner side }
{
    x.saturating_sub(corner).min(side - 1)
}

fn box_pixel(stores: Stores<'_>, r: Record, x: u32, y: u32) -> Pixel
    requires in_store { InStore (lent stores) (image_of r) × BoxIn (box_of r) r.source.w r.source.h }
    requires x_lt_w { (x < r.frame.w) × (y < r.frame.h) }
    ensures { result ≡ box_pixel r.turn (lent stores.entry) (image_of r) (box_of r) x y }
{
    let image = frame::image_of(r);
    let kept = frame::box_of(r);
    let turn = r.turn;
    match turn {
        Turn::Upright => sub_texture::get(stores, image, kept, x, y),
        Turn::Turned => texture::get_rotated(stores, image, kept, x, y),
    }
}

#[tactic(auto, unfolding(crate::specs::Zones::red))]
fn outline() -> Pixel
    ensures { result ≡ red }
{
    Pixel {
        r: 255,
        g: 0,
        b: 0,
        a: 255,
    }
}

// The pixel that a frame gives a column and a row of its zone.
pub fn frame_pixel(stores: Stores<'_>, c: Config, r: Record, x: u32, y: u32) -> Pixel
    requires { InStore (lent stores) (image_of r) × (record_well_formed c r ≡ true) }
    ensures { result ≡ frame_pixel c (lent stores.entry) r x y }
{
    let f = r.frame;
    if c.outlines & f.is_outline(x, y) {
        return outline();
    }
    let column = local_of(x, f.x, f.w);
    let row = local_of(y, f.y, f.h);
    box_pixel(stores, r, column, row)
}

fn on_page_past(stores: Stores<'_>, page: Page, r: Record) -> bool
    ensures { result ≡ (eqb r.page.0 page.0 && runs_past (lent stores.entry) (image_of r)) }
{
    let image = frame::image_of(r);
    (r.page == page) & memory_rgba8_texture::runs_past(stores, image)
}

// 5: whether any image on that page runs past its store.
pub fn page_past(l: WellFormed<'_>, stores: Stores<'_>, page: Page) -> bool
    ensures { result ≡ page_past (lent stores.entry) page (standing l.entry.layout.now) }
{
    l.standing().iter().any(|r| on_page_past(stores, page, *r))
}

// The earliest frame whose zone holds the pixel shows it.
fn pixel_at(l: WellFormed<'_>, stores: Stores<'_>, page: Page, x: u32, y: u32) -> Option<Pixel>
    requires { page_past (lent stores) page (standing l.layout.now) ≡ false }
    ensures { Ok result ≡ look_answer (pixel_at l.entry.layout.now (lent stores.entry) page x y) none }
{
    let c = l.config();
    let standing = l.standing();
    for r in standing {
        if reaches_pixel(c, page, *r, x, y) {
            return Some(frame_pixel(stores, c.config, *r, x, y));
        }
    }
    None
}

// pixel: 2 11 5
pub fn pixel(
    l: Layout,
    stores: Stores<'_>,
    page: Page,
    x: u32,
    y: u32,
) -> Result<Option<Pixel>, Refusal>
    ensures value { result ≡ looked l (lent stores.entry) page x y }
    ensures result_value { looked_numbers result ≡ looked_numbers (looked l (lent stores.entry) page x y) }
{
    let l = l.well_formed().ok_or(Refusal::NotWellFormed)?;
    if l.page_count() <= page.0 {
        return Err(Refusal::NoSuchPage);
    }
    if page_past(l, stores, page) {
        return Err(Refusal::PastStore);
    }
    Ok(pixel_at(l, stores, page, x, y))
}
