// Why an operation refuses, one case for each number of document 01.
use std::fmt;

#[derive(Clone, Copy, PartialEq, Eq)]
pub enum Refusal {
    OutOfBounds = 1,
    NotWellFormed = 2,
    NotFaithful = 3,
    BadSize = 4,
    PastStore = 5,
    KeyStands = 6,
    AllClear = 7,
    TooLarge = 8,
    ImageLimit = 9,
    PageLimit = 10,
    NoSuchPage = 11,
    EmptyPage = 12,
    BadRows = 13,
    BadLength = 14,
    NoSuchKey = 15,
    PastPage = 16,
    BadInset = 17,
    NothingStands = 18,
}

impl From<Refusal> for u32 {
    ghost use Rattle.std.specs.Prelude.{◌≡◌};
    ghost use Rattle.records.specs.Refusals.{number_of};

    ghost from_gives = { λ r n. n ≡ number_of r };

    fn from(r: Refusal) -> u32 {
        r as u32
    }
}

// Document 01's meaning of the number.
impl fmt::Display for Refusal {
    ghost use Rattle.std.specs.Prelude.{Some};
    ghost use Rattle.records.specs.Refusals.{meaning_of};

    ghost output = { λ r. Some (meaning_of r) };

    fn fmt<W: fmt::Write>(&self, f: &mut fmt::Formatter<W>) -> fmt::Result {
        f.write_str(match self {
            Refusal::OutOfBounds => "the configuration is out of bounds",
            Refusal::NotWellFormed => "the layout is not well-formed",
            Refusal::NotFaithful => "the layout is not faithful",
            Refusal::BadSize => "a width or height is outside 1 to 2048",
            Refusal::PastStore => "an image runs past the end of its store",
            Refusal::KeyStands => "an image with this key stands already",
            Refusal::AllClear => "trimming leaves nothing: every pixel's alpha is 0",
            Refusal::TooLarge => "the image is too large for an empty page",
            Refusal::ImageLimit => "the limit of images is reached",
            Refusal::PageLimit => "it fits on no page, and the limit of pages is reached",
            Refusal::NoSuchPage => "there is no such page",
            Refusal::EmptyPage => "the page's width or height is 0",
            Refusal::BadRows => "these rows are not on the page",
            Refusal::BadLength => "the buffer does not have the rows' length",
            Refusal::NoSuchKey => "no image has this key",
            Refusal::PastPage => "the frame runs past the page",
            Refusal::BadInset => "the inset is not between 0 and 0.5",
            Refusal::NothingStands => "no image stands",
        })
    }
}
