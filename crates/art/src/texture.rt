// What holds of every texture, after texture/mod.rs of texture_packer: turned reading, and whether a line of pixels can be seen.
ghost use Rattle.std.specs.Prelude.{◌≡◌, not, ◌<◌};
ghost use Rattle.art.specs.Stores.{lent, InStore, BoxIn, turned_pixel};
ghost use Rattle.art.specs.Search.{any_set, HasRun};
ghost use Rattle.art.specs.Trimming.{column_visible, row_visible};

use crate::memory_rgba8_texture::{Image, Pixel, Stores};
use crate::sub_texture;
use geometry::rect::Rect;

#[tactic(auto, unfolding(crate::specs::Stores::turned_pixel, crate::specs::Stores::turned_point))]
pub fn get_rotated(stores: Stores<'_>, image: Image, part: Rect, x: u32, y: u32) -> Pixel
    requires in_store { InStore (lent stores) image }
    requires box_in { BoxIn part image.w image.h × (x < part.h) × (y < part.w) }
    ensures { result ≡ turned_pixel (lent stores.entry) image part x y }
{
    sub_texture::get(stores, image, part, y, part.h - x - 1)
}

// The alphas of a column or of a row lie one step apart; the first that is not 0 ends the search.
fn all_zero(bytes: &[u8], first: usize, step: usize, count: usize) -> bool
    requires { HasRun bytes.now first step count }
    ensures { result ≡ not (any_set bytes.now first step count) }
{
    let mut at = first;
    for k in 0..count {
        if bytes[at] != 0 {
            return false;
        }
        at += step;
    }
    true
}

pub fn is_column_transparent(stores: Stores<'_>, image: Image, col: u32) -> bool
    requires { InStore (lent stores) image × (col < image.w) }
    ensures { result ≡ not (column_visible (lent stores.entry) image col) }
{
    let bytes = stores.of(image.store);
    let alpha = image.offset as usize + 4 * col as usize + 3;
    all_zero(bytes, alpha, 4 * image.w as usize, image.h as usize)
}

pub fn is_row_transparent(stores: Stores<'_>, image: Image, row: u32) -> bool
    requires { InStore (lent stores) image × (row < image.h) }
    ensures { result ≡ not (row_visible (lent stores.entry) image row) }
{
    let bytes = stores.of(image.store);
    let w = image.w as usize;
    let alpha = image.offset as usize + 4 * (row as usize * w) + 3;
    all_zero(bytes, alpha, 4, w)
}
