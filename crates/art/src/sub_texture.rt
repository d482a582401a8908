// A pixel of a part of an image, which is its trim box, after sub_texture.rs of texture_packer.
ghost use Rattle.std.specs.Prelude.{◌≡◌, ◌<◌};
ghost use Rattle.art.specs.Stores.{lent, InStore, BoxIn, upright_pixel};

use crate::memory_rgba8_texture;
use crate::memory_rgba8_texture::{Image, Pixel, Stores};
use geometry::rect::Rect;

#[tactic(auto, unfolding(crate::specs::Stores::upright_pixel))]
pub fn get(stores: Stores<'_>, image: Image, part: Rect, x: u32, y: u32) -> Pixel
    requires in_store { InStore (lent stores) image }
    requires box_in { BoxIn part image.w image.h × (x < part.w) × (y < part.h) }
    ensures { result ≡ upright_pixel (lent stores.entry) image part x y }
{
    memory_rgba8_texture::get(stores, image, part.x + x, part.y + y)
}
