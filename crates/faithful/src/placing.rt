// The canvas, cells, the page and the spot that an image gets, and its record there.
ghost use Rattle.std.specs.Prelude.{◌≡◌, List, ℕ, ◌≤◌, ◌<◌, length};
ghost use Rattle.geometry.specs.Fits.{HasPixels};
ghost use Rattle.records.specs.Records.{size_of};
ghost use Rattle.records.specs.declared.frame.Record.{Record};
ghost use Rattle.pages.specs.Pages.{PutOn};
ghost use Rattle.rules.specs.Placing.{canvas, cell_size, cells_on, page_for, record_for};
ghost use Rattle.faithful.specs.Replay.{Sized, Near, Skies, SomeSkies, stood};

use geometry::rect::{Rect, Size};
use geometry::spot;
use geometry::spot::Spot;
use pages::Pages;
use records::frame::{Page, Record, Source};
use records::refusal::Refusal;
use records::texture_packer_config::InBounds;
use rules::placing::Art;

pub fn canvas_of(c: InBounds) -> Size
    ensures { result ≡ canvas c.config }
{
    let c = c.config;
    Size {
        w: c.maxw,
        h: c.maxh - 1,
    }
}

pub fn cell_size(c: InBounds, s: Size) -> Size
    requires { Sized s }
    ensures { (result ≡ cell_size c.config s) × HasPixels result }
{
    let c = c.config;
    let m = c.padding + 2 * c.extrusion;
    Size {
        w: s.w + m,
        h: s.h + m,
    }
}

// The first page that has room for a whole image, else a new one.
pub fn page_for(skies: &Pages, c: InBounds, pages: usize, whole: Size) -> usize
    requires c_value { (pages ≤ 8) × Sized whole }
    requires some_skies { SomeSkies c.config pages skies.now }
    ensures { (rs : List Record) → Skies c.config rs pages skies.now → result ≡ page_for c.config rs whole }
{
    let area = canvas_of(c);
    let cell = cell_size(c, whole);
    skies.first_page(pages, area, c.config.rotation, cell)
}

// The spot that page p gives to what is kept of an image, and the pages with the cell there.
pub fn pack(skies: &mut Pages, c: InBounds, p: usize, kept: Rect) -> Option<Spot>
    requires c_value { (p < 8) × Sized (size_of kept) }
    requires some_skies { (n : ℕ) × SomeSkies c.config n skies.old }
    ensures { (rs : List Record) (n : ℕ) → Skies c.config rs n skies.old →
        PutOn (canvas c.config) c.config.rotation (cell_size c.config (size_of kept)) p (length rs) (cells_on c.config rs) result skies.new }
{
    let area = canvas_of(c);
    let cell = cell_size(
        c,
        Size {
            w: kept.w,
            h: kept.h,
        },
    );
    skies.pack_on(p, area, c.config.rotation, cell)
}

// The record of an image at a spot. Where there is none the image is too large.
pub fn record_for(c: InBounds, a: Art, p: u32, f: Option<Spot>) -> Result<Record, Refusal>
    requires { Near f }
    ensures { result ≡ stood (record_for c.config a p f) }
{
    let c = c.config;
    let k = f.ok_or(Refusal::TooLarge)?;
    let kept = a.kept;
    let whole = a.whole;
    let lies = spot::lying_size(
        k.turn,
        Size {
            w: kept.w,
            h: kept.h,
        },
    );
    let frame = Rect {
        x: k.at.x + c.border,
        y: k.at.y + c.border,
        w: lies.w,
        h: lies.h,
    };
    let source = Source {
        x: kept.x,
        y: kept.y,
        w: whole.w,
        h: whole.h,
    };
    Ok(Record {
        key: a.key,
        page: Page(p),
        frame,
        turn: k.turn,
        trimmed: c.trim,
        source,
        store: a.store,
        offset: a.offset,
    })
}
