// The smallest box that holds all that can be seen, after trim_texture of texture_packer.rs.
ghost use Rattle.std.specs.Prelude.{◌≡◌, ℕ, Bool, ◌<◌};
ghost use Rattle.art.specs.Stores.{lent, InStore};
ghost use Rattle.art.specs.Search.{Tells};
ghost use Rattle.art.specs.Trimming.{first_seen, past_seen, trimmed_to};

use crate::memory_rgba8_texture::{Image, Stores};
use crate::texture::{is_column_transparent, is_row_transparent};
use geometry::rect::Rect;

// Of the numbers below n, the first that `seen` holds of, or n.
fn first_seen<F: Fn(u32) -> bool>(n: u32, seen: F) -> u32
    requires { (k : ℕ) → k < n → F.pre seen k }
    ensures { (t : ℕ → Bool) → Tells (F.post seen) t n → result ≡ first_seen t n }
{
    for k in 0..n {
        if seen(k) {
            return k;
        }
    }
    n
}

// One past the last that it holds of, or 0.
fn past_seen<F: Fn(u32) -> bool>(n: u32, seen: F) -> u32
    requires { (k : ℕ) → k < n → F.pre seen k }
    ensures { (t : ℕ → Bool) → Tells (F.post seen) t n → result ≡ past_seen t n }
{
    for k in (0..n).rev() {
        if seen(k) {
            return k + 1;
        }
    }
    0
}

// What is left of an image when it is trimmed, if anything of it can be seen. Columns first, as the crate does. Each search ends at the
// first line that can be seen, so that art which fills its image costs a few reads.
pub fn trim_texture(stores: Stores<'_>, image: Image) -> Option<Rect>
    requires { InStore (lent stores) image }
    ensures { result ≡ trimmed_to (lent stores.entry) image }
{
    let column = |x: u32| !is_column_transparent(stores, image, x);
    let row = |y: u32| !is_row_transparent(stores, image, y);
    let left = first_seen(image.w, &column);
    if left == image.w {
        return None;
    }
    let right = past_seen(image.w, &column);
    let top = first_seen(image.h, &row);
    let bottom = past_seen(image.h, &row);
    Some(Rect::new(left, top, right - left, bottom - top))
}
