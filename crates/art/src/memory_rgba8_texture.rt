// Images of RGBA8 pixels in two lent stores, after memory_rgba8_texture.rs of texture_packer. There a texture owns its pixels; here an image
// says where they lie, and whoever reads has asked first whether the image runs past its store.
ghost use Rattle.std.specs.Prelude.{◌≡◌, ◌+◌, ◌<◌, length};
ghost use Rattle.art.specs.Stores.{lent, of_store, runs_past, pixel_from, pixel_in, InStore};

// Fixed symbols, and wording of one language.
#[derive(Clone, Copy, PartialEq, Eq)]
pub enum Store {
    Symbols,
    Wording,
}

// The bytes of both, lent.
#[derive(Clone, Copy)]
pub struct Stores<'a> {
    pub symbols: &'a [u8],
    pub wording: &'a [u8],
}

// Rows follow each other from the offset on, 4 bytes a pixel.
#[derive(Clone, Copy, PartialEq, Eq)]
pub struct Image {
    pub store: Store,
    pub offset: u32,
    pub w: u32,
    pub h: u32,
}

#[derive(Clone, Copy, PartialEq, Eq)]
pub struct Pixel {
    pub r: u8,
    pub g: u8,
    pub b: u8,
    pub a: u8,
}

impl<'a> Stores<'a> {
    // The lent slice itself, so that a part of it is a part of that store.
    pub fn of(self, store: Store) -> &'a [u8]
        ensures { result ≡ of_store store self.entry.symbols self.entry.wording }
    {
        match store {
            Store::Symbols => self.symbols,
            Store::Wording => self.wording,
        }
    }
}

// Four times the area may pass 64 bits: what the store has left is divided instead.
pub fn runs_past(stores: Stores<'_>, image: Image) -> bool
    ensures { result ≡ runs_past (lent stores.entry) image }
{
    let size = stores.of(image.store).len();
    let offset = image.offset as usize;
    if size < offset {
        return true;
    }
    let area = image.w as usize * image.h as usize;
    (size - offset) / 4 < area
}

// R G B A, for a caller that has the place already and steps from pixel to pixel.
#[tactic(auto, unfolding(crate::specs::Stores::pixel_from))]
pub fn pixel_from(bytes: &[u8], at: usize) -> Pixel
    requires { at + 3 < length bytes.now }
    ensures { result ≡ pixel_from bytes.now at }
{
    Pixel {
        r: bytes[at],
        g: bytes[at + 1],
        b: bytes[at + 2],
        a: bytes[at + 3],
    }
}

// The caller has asked `runs_past`, once for an image and not for each pixel.
pub fn get(stores: Stores<'_>, image: Image, x: u32, y: u32) -> Pixel
    requires { InStore (lent stores) image × (x < image.w) × (y < image.h) }
    ensures { result ≡ pixel_in (lent stores.entry) image x y }
{
    let bytes = stores.of(image.store);
    let before = y as usize * image.w as usize + x as usize;
    pixel_from(bytes, image.offset as usize + 4 * before)
}
