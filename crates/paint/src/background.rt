// Backgrounds, after BackgroundColorSettings and image_exporter.rs of texture_packer.
ghost use Rattle.std.specs.Prelude.{◌≡◌, Some};
ghost use Rattle.std.proofs.Math.Option.{none, some};
ghost use Rattle.paint.specs.Backgrounds.{solid, composed};

use art::memory_rgba8_texture::Pixel;

// A colour, an optional threshold, and the discard switch.
#[derive(Clone, Copy)]
pub struct Colour {
    pub pixel: Pixel,
    pub threshold: Option<u8>,
    pub discard: bool,
}

pub type Background = Option<Colour>;

#[tactic(auto, unfolding(crate::specs::Backgrounds::clear_pixel, crate::specs::Backgrounds::composed))]
pub fn without_pixel(g: Background) -> Pixel
    ensures { result ≡ composed g none }
{
    match g {
        None => Pixel {
            r: 0,
            g: 0,
            b: 0,
            a: 0,
        },
        Some(colour) => colour.pixel,
    }
}

#[tactic(auto, unfolding(crate::specs::Backgrounds::solid))]
fn solid_if(discard: bool, k: Pixel) -> Pixel
    ensures { result ≡ solid discard k }
{
    if discard {
        return Pixel {
            r: k.r,
            g: k.g,
            b: k.b,
            a: 255,
        };
    }
    k
}

#[tactic(auto, unfolding(crate::specs::Backgrounds::composed))]
fn over_colour(colour: Colour, k: Pixel) -> Pixel
    ensures { result ≡ composed (Some colour) (some k) }
{
    match colour.threshold {
        None => k,
        Some(t) => {
            if k.a <= t {
                return colour.pixel;
            }
            solid_if(colour.discard, k)
        }
    }
}

#[tactic(auto, unfolding(crate::specs::Backgrounds::composed))]
pub fn with_pixel(g: Background, k: Pixel) -> Pixel
    ensures { result ≡ composed g (some k) }
{
    match g {
        None => k,
        Some(colour) => over_colour(colour, k),
    }
}
