// The commands whose answer is words alone. Each takes the words that it reads.
#![tactic(auto)]

ghost use Rattle.std.specs.Prelude.{◌≡◌, ◌+◌, ◌≤◌, length};
ghost use Rattle.std.specs.Float.{binary32};
ghost use Rattle.std.specs.Float.Ieee.{of_bits};
ghost use Rattle.art.specs.Stores.{lent};
ghost use Rattle.commands.specs.Reading.{config_at, request_of, colour_of, threshold_of, background_at};
ghost use Rattle.commands.specs.Telling.{open_told, ask_told, offer_told, withdraw_told, size_told, pixel_told, locate_told, Tells};

use crate::command::Words;
use art::memory_rgba8_texture::{Image, Pixel, Stores};
use coords::locate;
use coords::locate::Request;
use geometry::rect::Size;
use layout::multi_texture_packer;
use lookup::texture_packer;
use paint::background::{Background, Colour};
use records::frame::{Key, Page};
use records::layout as layouts;
use records::layout::{Answered, Layout};
use records::texture_packer_config::Config;
use wire::answers::Answer;
use wire::{answers, fields};

pub mod command;

fn config_at(words: Words<'_, 11>) -> Config
    ensures { result ≡ config_at words.entry.script.now words.entry.at }
{
    let rotation = fields::is_on(words.word(8));
    let trim = fields::is_on(words.word(9));
    let outlines = fields::is_on(words.word(10));
    let forced = fields::is_on(words.word(11));
    Config {
        maxw: words.word(1),
        maxh: words.word(2),
        padding: words.word(3),
        border: words.word(4),
        extrusion: words.word(5),
        pages: words.word(6),
        images: words.word(7),
        rotation,
        trim,
        outlines,
        forced,
    }
}

pub fn open(words: Words<'_, 11>) -> Answered<Answer>
    ensures { Tells (open_told words.entry.script.now words.entry.at) result }
{
    let o = layouts::open(config_at(words));
    Answered {
        answer: answers::opened(o.answer),
        layout: o.layout,
    }
}

pub fn ask(words: Words<'_, 3>, l: Layout) -> Answered<Answer>
    ensures { Tells (ask_told words.entry.script.now words.entry.at l) result }
{
    let page = Page(words.word(1));
    let w = words.word(2);
    let h = words.word(3);
    let answer = answers::asked(multi_texture_packer::ask(l, page, Size { w, h }));
    Answered { answer, layout: l }
}

pub fn offer(words: Words<'_, 5>, stores: Stores<'_>, l: Layout) -> Answered<Answer>
    ensures { Tells (offer_told words.entry.script.now words.entry.at (lent stores.entry) l) result }
{
    let key = Key(words.word(1));
    let store = fields::store_of(words.word(2));
    let offset = words.word(3);
    let w = words.word(4);
    let h = words.word(5);
    let image = Image {
        store,
        offset,
        w,
        h,
    };
    let o = multi_texture_packer::offer(l, stores, key, image);
    Answered {
        answer: answers::offered(o.answer),
        layout: o.layout,
    }
}

pub fn withdraw(l: Layout) -> Answered<Answer>
    ensures { Tells (withdraw_told l) result }
{
    let gone = multi_texture_packer::withdraw(l);
    Answered {
        answer: answers::withdrawn(gone.answer),
        layout: gone.layout,
    }
}

pub fn page_size(words: Words<'_, 1>, l: Layout) -> Answered<Answer>
    ensures { Tells (size_told words.entry.script.now words.entry.at l) result }
{
    let page = Page(words.word(1));
    let answer = answers::sized(layouts::page_size(l, page));
    Answered { answer, layout: l }
}

pub fn pixel(words: Words<'_, 3>, stores: Stores<'_>, l: Layout) -> Answered<Answer>
    ensures { Tells (pixel_told words.entry.script.now words.entry.at (lent stores.entry) l) result }
{
    let page = Page(words.word(1));
    let x = words.word(2);
    let y = words.word(3);
    let answer = answers::looked(texture_packer::pixel(l, stores, page, x, y));
    Answered { answer, layout: l }
}

// The language makes no NaN of a pattern; every pattern of a NaN stands for the one that 0 / 0 gives.
fn number_of_bits(bits: u32) -> f32
    ensures { result ≡ of_bits binary32 bits }
{
    let exponent = bits % 2147483648 / 8388608;
    let digits = bits % 8388608;
    if (exponent == 255) & (digits != 0) {
        return 0.0 / 0.0;
    }
    f32::from_bits(bits)
}

fn request_of(request: u32, bits: u32) -> Request
    ensures { result ≡ request_of request bits }
{
    match request {
        0 => Request::Pixels,
        1 => Request::Edges,
        _ => Request::Inset(number_of_bits(bits)),
    }
}

pub fn coordinates(words: Words<'_, 3>, l: Layout) -> Answered<Answer>
    ensures { Tells (locate_told words.entry.script.now words.entry.at l) result }
{
    let key = Key(words.word(1));
    let request = words.word(2);
    let bits = words.word(3);
    let answer = answers::located(locate::coordinates(l, key, request_of(request, bits)));
    Answered { answer, layout: l }
}

fn threshold_of(n: u32) -> Option<u8>
    ensures { result ≡ threshold_of n }
{
    u8::try_from(n).ok()
}

// The bytes of a word, the least first, are R G B A.
fn colour_of(n: u32) -> Pixel
    ensures { result ≡ colour_of n }
{
    let [r, g, b, a] = n.to_le_bytes();
    Pixel { r, g, b, a }
}

// Four words: 0 for none or anything else for a colour, the colour, the threshold, the discard switch.
pub fn background_at(words: Words<'_, 3>) -> Background
    ensures { result ≡ background_at words.entry.script.now words.entry.at }
{
    if words.word(0) == 0 {
        return None;
    }
    Some(Colour {
        pixel: colour_of(words.word(1)),
        threshold: threshold_of(words.word(2)),
        discard: fields::is_on(words.word(3)),
    })
}
