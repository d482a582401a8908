// Rows of a page, painted: the background, then the page's frames from the last accepted to the first, so that the earliest stays on top.
ghost use Rattle.std.specs.Prelude.{◌≡◌, true, false, List, ◌∷◌, ◌+◌, ◌*◌, ◌-◌, ◌≤◌, min, max, length, eqb};
ghost use Rattle.art.specs.Stores.{lent, InStore};
ghost use Rattle.records.specs.Records.{image_of, record_well_formed};
ghost use Rattle.records.specs.Layouts.{standing};
ghost use Rattle.records.specs.declared.frame.Record.{Record};
ghost use Rattle.lookup.specs.Zones.{zone};
ghost use Rattle.lookup.specs.Looking.{page_past};
ghost use Rattle.paint.specs.Pictures.{picture, composed_at};
ghost use Rattle.paint.specs.Painting.{composed_among, composed_frame, with_pixel, SpanPainted, ZonePainted, Shows};

use crate::background;
use crate::background::Background;
use art::memory_rgba8_texture::{Pixel, Stores};
use lookup::texture_packer;
use records::frame::{Page, Record};
use records::layout::WellFormed;
use records::texture_packer_config::{Config, InBounds};

// Pixel number i.
fn put_pixel(bytes: &mut [u8], i: usize, k: Pixel)
    requires { 4 * i + 4 ≤ length bytes.old }
    ensures { bytes.new ≡ with_pixel bytes.old i k }
{
    let at = 4 * i;
    bytes[at..at + 4].copy_from_slice(&[k.r, k.g, k.b, k.a]);
}

fn fill(bytes: &mut [u8], pixels: usize, k: Pixel)
    requires { 4 * pixels ≤ length bytes.old }
    ensures { SpanPainted (λ i. k) 0 pixels bytes.old bytes.new }
{
    for i in 0..pixels {
        put_pixel(bytes, i, k);
    }
}

// A row of a frame's zone: columns `from` to `end`, where pixel number `base` of the band is the row's column 0.
fn paint_span(
    bytes: &mut [u8],
    stores: Stores<'_>,
    c: Config,
    g: Background,
    r: Record,
    y: u32,
    base: usize,
    from: u32,
    end: u32,
)
    requires in_store { InStore (lent stores) (image_of r) × (record_well_formed c r ≡ true) }
    requires end_in_bounds { 4 * (base + end) ≤ length bytes.old }
    ensures { SpanPainted (λ i. composed_frame c (lent stores.entry) g r (i - base) y)
        (base + from) (base + end) bytes.old bytes.new }
{
    for x in from..end {
        let k = texture_packer::frame_pixel(stores, c, r, x, y);
        put_pixel(bytes, base + x as usize, background::with_pixel(g, k));
    }
}

// A frame's zone, as far as it lies in the band: `rows` rows of w pixels, the first of them row `first` of the page.
fn paint_frame(
    bytes: &mut [u8],
    stores: Stores<'_>,
    c: InBounds,
    g: Background,
    r: Record,
    w: u32,
    first: u32,
    rows: u32,
)
    requires in_store { InStore (lent stores) (image_of r) × (record_well_formed c.config r ≡ true) }
    requires rows_bound { (first + rows ≤ 6271) × (length bytes.old ≡ 4 * (w * rows)) }
    ensures { ZonePainted (composed_frame c.config (lent stores.entry) g r)
        (zone c.config r) w first rows bytes.old bytes.new }
{
    let z = texture_packer::zone_of(c, r);
    let end = w.min(z.x + z.w);
    let start = first.max(z.y);
    let stop = (first + rows).min(z.y + z.h);
    for y in start..stop {
        let base = (y - first) as usize * w as usize;
        paint_span(bytes, stores, c.config, g, r, y, base, z.x, end);
    }
}

fn paint_record(
    bytes: &mut [u8],
    stores: Stores<'_>,
    c: InBounds,
    g: Background,
    page: Page,
    r: Record,
    w: u32,
    first: u32,
    rows: u32,
)
    requires in_store { (eqb r.page.0 page.0 ≡ true → InStore (lent stores) (image_of r)) × (record_well_formed c.config r ≡ true) }
    requires rows_bound { (first + rows ≤ 6271) × (length bytes.old ≡ 4 * (w * rows)) }
    ensures { (rs : List Record) → Shows (composed_among c.config (lent stores.entry) page g rs) w first rows bytes.old →
        Shows (composed_among c.config (lent stores.entry) page g (r ∷ rs)) w first rows bytes.new }
{
    if r.page == page {
        paint_frame(bytes, stores, c, g, r, w, first, rows);
    }
}

// `rows` rows of a page that is w pixels wide, from row `first` on.
pub fn paint_band(
    bytes: &mut [u8],
    l: WellFormed<'_>,
    stores: Stores<'_>,
    page: Page,
    g: Background,
    w: u32,
    first: u32,
    rows: u32,
)
    requires l_value { page_past (lent stores) page (standing l.layout.now) ≡ false }
    requires rows_bound { (first + rows ≤ 6271) × (w ≤ 6271) × (length bytes.old ≡ 4 * (w * rows)) }
    ensures { bytes.new ≡ picture (composed_at l.entry.layout.now (lent stores.entry) page g) w first rows }
{
    let c = l.config();
    let k = background::without_pixel(g);
    fill(bytes, w as usize * rows as usize, k);
    for r in l.standing().iter().rev() {
        paint_record(bytes, stores, c, g, page, *r, w, first, rows);
    }
}
