// `set`: any number written to a field of the layout, so that layouts that no offer makes can be driven.
ghost use Rattle.std.specs.Prelude.{◌≡◌};
ghost use Rattle.wire.specs.Fields.{is_on, store_of, turn_of, picked, config_with, frame_with, source_with, record_with, is_field, layout_with};

use art::memory_rgba8_texture::Store;
use geometry::rect::Rect;
use geometry::spot::Turn;
use records::frame::{Key, Page, Record, Source};
use records::layout::Layout;
use records::texture_packer_config::Config;

pub fn is_on(n: u32) -> bool
    ensures { result ≡ is_on n }
{
    n != 0
}

pub fn store_of(n: u32) -> Store
    ensures { result ≡ store_of n }
{
    if n == 0 {
        Store::Symbols
    } else {
        Store::Wording
    }
}

fn turn_of(n: u32) -> Turn
    ensures { result ≡ turn_of n }
{
    if n == 0 { Turn::Upright } else { Turn::Turned }
}

// `new` where `field` is the one asked for, else the old one.
fn pick<A: Copy>(field: u32, is: u32, new: A, old: A) -> A
    ensures { result ≡ picked field is new old }
{
    if field == is { new } else { old }
}

fn config_with(c: Config, field: u32, n: u32) -> Config
    ensures { result ≡ config_with c field n }
{
    Config {
        maxw: pick(field, 0, n, c.maxw),
        maxh: pick(field, 1, n, c.maxh),
        padding: pick(field, 2, n, c.padding),
        border: pick(field, 3, n, c.border),
        extrusion: pick(field, 4, n, c.extrusion),
        pages: pick(field, 5, n, c.pages),
        images: pick(field, 6, n, c.images),
        rotation: pick(field, 7, is_on(n), c.rotation),
        trim: pick(field, 8, is_on(n), c.trim),
        outlines: pick(field, 9, is_on(n), c.outlines),
        forced: pick(field, 10, is_on(n), c.forced),
    }
}

fn frame_with(f: Rect, field: u32, n: u32) -> Rect
    ensures { result ≡ frame_with f field n }
{
    Rect {
        x: pick(field, 18, n, f.x),
        y: pick(field, 19, n, f.y),
        w: pick(field, 20, n, f.w),
        h: pick(field, 21, n, f.h),
    }
}

fn source_with(s: Source, field: u32, n: u32) -> Source
    ensures { result ≡ source_with s field n }
{
    Source {
        x: pick(field, 24, n, s.x),
        y: pick(field, 25, n, s.y),
        w: pick(field, 26, n, s.w),
        h: pick(field, 27, n, s.h),
    }
}

fn record_with(r: Record, field: u32, n: u32) -> Record
    ensures { result ≡ record_with r field n }
{
    let key = Key(pick(field, 16, n, r.key.0));
    let page = Page(pick(field, 17, n, r.page.0));
    let frame = frame_with(r.frame, field, n);
    let turn = pick(field, 22, turn_of(n), r.turn);
    let trimmed = pick(field, 23, is_on(n), r.trimmed);
    let source = source_with(r.source, field, n);
    let store = pick(field, 28, store_of(n), r.store);
    Record {
        key,
        page,
        frame,
        turn,
        trimmed,
        source,
        store,
        offset: pick(field, 29, n, r.offset),
    }
}

// Fields 0 to 11 and 16 to 29.
pub fn is_field(field: u32) -> bool
    ensures { result ≡ is_field field }
{
    (field < 12) | ((16 <= field) & (field < 30))
}

// Fields 0 to 10 are the configuration's, 11 the count, the others the record's in `place`, modulo 256.
pub fn layout_with(l: Layout, field: u32, place: u32, n: u32) -> Layout
    ensures { result ≡ layout_with l field place n }
{
    let mut out = l;
    match field {
        0..11 => out.config = config_with(l.config, field, n),
        11 => out.count = n as usize,
        _ => {
            let at = (place % 256) as usize;
            out.records[at] = record_with(l.records[at], field, n);
        }
    }
    out
}
