// What a line of a job says.
ghost use Rattle.std.specs.Prelude.{◌≡◌, Some};
ghost use Rattle.job.specs.Meanings.{meaning};
ghost use Rattle.job.specs.Words.{split};
ghost use Rattle.job.specs.Steps.{config_in, colour_in, image_in};
ghost use Rattle.job.specs.Lines.{config_line, clear_ok, ground_line, image_line, said, line_in};

use crate::{values, words};
use art::memory_rgba8_texture::{Image, Pixel};
use paint::background::{Background, Colour};
use records::frame::Key;
use records::texture_packer_config::Config;
use std::fmt;

// Why a job is refused.
#[derive(Clone, Copy)]
pub enum Trouble {
    // The first word is none of config, background and image.
    UnknownWord,
    // Too few or too many words, or a word of the wrong kind.
    BadConfig,
    BadBackground,
    BadImage,
    // Another line comes before the config line, or there is none.
    NoConfig,
    SecondConfig,
    // A second background, or one after an image.
    LateBackground,
    TooManyImages,
}

impl fmt::Display for Trouble {
    ghost output = { λ trouble. Some (meaning trouble) };

    fn fmt<W: fmt::Write>(&self, f: &mut fmt::Formatter<W>) -> fmt::Result {
        f.write_str(match self {
            Trouble::UnknownWord => "a line begins with config, background or image",
            Trouble::BadConfig => {
                "a config line has 7 numbers (maxw maxh padding border extrusion pages images) and 4 switches, on or off (rotation trim outlines forced)"
            }
            Trouble::BadBackground => {
                "a background line has none; or r g b a to 255, a threshold to 255 or none, and discard on or off"
            }
            Trouble::BadImage => "an image line has key, symbols or wording, offset, width, height",
            Trouble::NoConfig => "the first line with words has to be a config line",
            Trouble::SecondConfig => "there is a config line already",
            Trouble::LateBackground => "a background line comes once, before the images",
            Trouble::TooManyImages => "a job has at most 256 images",
        })
    }
}

#[derive(Clone, Copy)]
pub enum Line {
    Empty,
    Settings(Config),
    Ground(Background),
    Picture(Key, Image),
}

// The functions on `line` up to `plain_line` take a line without its comment.

#[tactic(auto, unfolding(crate::specs::Steps::config_in))]
fn config_in(line: &[u8]) -> Option<Config>
    ensures { result ≡ config_in (split line.now) }
{
    if words::word_count(line) != 12 {
        return None;
    }
    Some(Config {
        maxw: values::number_at(line, 1)?,
        maxh: values::number_at(line, 2)?,
        padding: values::number_at(line, 3)?,
        border: values::number_at(line, 4)?,
        extrusion: values::number_at(line, 5)?,
        pages: values::number_at(line, 6)?,
        images: values::number_at(line, 7)?,
        rotation: values::switch_at(line, 8)?,
        trim: values::switch_at(line, 9)?,
        outlines: values::switch_at(line, 10)?,
        forced: values::switch_at(line, 11)?,
    })
}

fn config_line(line: &[u8]) -> Result<Line, Trouble>
    ensures { result ≡ config_line (split line.now) }
{
    config_in(line)
        .map(Line::Settings)
        .ok_or(Trouble::BadConfig)
}

#[tactic(auto, unfolding(crate::specs::Lines::clear_ok, crate::specs::Bytes::bytes_of))]
fn clear_ok(line: &[u8]) -> bool
    ensures { result ≡ clear_ok (split line.now) }
{
    words::word_count(line) == 2 && values::is_word(line, 1, b"none")
}

#[tactic(auto, unfolding(crate::specs::Steps::colour_in))]
fn colour_in(line: &[u8]) -> Option<Colour>
    ensures { result ≡ colour_in (split line.now) }
{
    if words::word_count(line) != 7 {
        return None;
    }
    let pixel = Pixel {
        r: values::part_at(line, 1)?,
        g: values::part_at(line, 2)?,
        b: values::part_at(line, 3)?,
        a: values::part_at(line, 4)?,
    };
    Some(Colour {
        pixel,
        threshold: values::threshold_at(line, 5)?,
        discard: values::switch_at(line, 6)?,
    })
}

fn ground_line(line: &[u8]) -> Result<Line, Trouble>
    ensures { result ≡ ground_line (split line.now) }
{
    if clear_ok(line) {
        return Ok(Line::Ground(None));
    }
    colour_in(line)
        .map(|colour| Line::Ground(Some(colour)))
        .ok_or(Trouble::BadBackground)
}

// The key and the image.
#[tactic(auto, unfolding(crate::specs::Steps::image_in))]
fn image_in(line: &[u8]) -> Option<(u32, Image)>
    ensures { result ≡ image_in (split line.now) }
{
    if words::word_count(line) != 6 {
        return None;
    }
    let key = values::number_at(line, 1)?;
    let image = Image {
        store: values::store_at(line, 2)?,
        offset: values::number_at(line, 3)?,
        w: values::number_at(line, 4)?,
        h: values::number_at(line, 5)?,
    };
    Some((key, image))
}

fn image_line(line: &[u8]) -> Result<Line, Trouble>
    ensures { result ≡ image_line (split line.now) }
{
    image_in(line)
        .map(|(key, image)| Line::Picture(Key(key), image))
        .ok_or(Trouble::BadImage)
}

fn plain_line(line: &[u8]) -> Result<Line, Trouble>
    ensures { result ≡ said (split line.now) }
{
    if words::word_count(line) == 0 {
        return Ok(Line::Empty);
    }
    if values::is_word(line, 0, b"config") {
        return config_line(line);
    }
    if values::is_word(line, 0, b"background") {
        return ground_line(line);
    }
    if values::is_word(line, 0, b"image") {
        return image_line(line);
    }
    Err(Trouble::UnknownWord)
}

#[tactic(auto, unfolding(crate::specs::Lines::line_in, crate::specs::Words::words_in))]
pub fn line_of(line: &[u8]) -> Result<Line, Trouble>
    ensures { result ≡ line_in line.now }
{
    plain_line(words::before_hash(line))
}
