// Coordinates of a standing image: in pixels, at texel edges, or inset by a stated distance. Added by design, not the crate's.
ghost use Rattle.std.specs.Prelude.{◌≡◌, ◌<◌};
ghost use Rattle.coords.specs.Coordinates.{low_edge, corners, between, past_edge, located, located_numbers};
ghost use Rattle.coords.specs.Parts.{Countable, texel_answer, requested};

use geometry::rect::{Rect, Size};
use records::frame::Key;
use records::layout::Layout;
use records::refusal::Refusal;

#[derive(Clone, Copy, PartialEq)]
pub struct Corners {
    pub left: f32,
    pub top: f32,
    pub right: f32,
    pub bottom: f32,
}

#[derive(Clone, Copy, PartialEq)]
pub enum Request {
    Pixels,
    Edges,
    Inset(f32),
}

// Where an image is, in what was asked for.
#[derive(Clone, Copy, PartialEq)]
pub enum Position {
    Pixels(Rect),
    Texels(Corners),
}

pub type Located = Result<Position, Refusal>;

// One of the four numbers, with what moves it in: (at + by) / side, each operation rounded once.
#[tactic(auto, using(crate::proofs::Casts::in_float_lem))]
fn edge(at: u32, by: f32, side: u32) -> f32
    requires { (at < 16777216) × (side < 16777216) }
    ensures { result ≡ low_edge at by side }
{
    (at as f32 + by) / side as f32
}

// The inset moves left and top by itself, right and bottom by its negative: the sum is then the difference.
fn corners_of(f: Rect, s: Size, i: f32) -> Corners
    requires { Countable f s }
    ensures { result ≡ corners f s i }
{
    let left = edge(f.x, i, s.w);
    let top = edge(f.y, i, s.h);
    let right = edge(f.x + f.w, -i, s.w);
    let bottom = edge(f.y + f.h, -i, s.h);
    Corners {
        left,
        top,
        right,
        bottom,
    }
}

// Both ends are in; a NaN is between nothing.
fn is_between(i: f32) -> bool
    ensures { result ≡ between i }
{
    (0.0..=0.5).contains(&i)
}

#[tactic(auto, unfolding(crate::specs::Coordinates::past_edge))]
fn past_edge(f: Rect, s: Size) -> bool
    requires { Countable f s }
    ensures { result ≡ past_edge f s }
{
    s.w < f.x + f.w || s.h < f.y + f.h
}

// 16, then the corners.
#[tactic(auto, using(crate::proofs::Answers::texels_past, crate::proofs::Answers::texels_in))]
fn texels(f: Rect, s: Size, i: f32) -> Located
    requires { Countable f s }
    ensures { result ≡ texel_answer f s i }
{
    if past_edge(f, s) {
        return Err(Refusal::PastPage);
    }
    Ok(Position::Texels(corners_of(f, s, i)))
}

// 17, then 16, then the answer, for the frame and its page's size.
fn answer_request(q: Request, f: Rect, s: Size) -> Located
    requires { Countable f s }
    ensures { result ≡ requested q f s }
{
    match q {
        Request::Pixels => Ok(Position::Pixels(f)),
        Request::Edges => texels(f, s, 0.0),
        Request::Inset(i) => {
            if !is_between(i) {
                return Err(Refusal::BadInset);
            }
            texels(f, s, i)
        }
    }
}

// coordinates: 2 15 17 16
pub fn coordinates(l: Layout, key: Key, request: Request) -> Located
    ensures value { result ≡ located l key request }
    ensures result_value { located_numbers result ≡ located_numbers (located l key request) }
{
    let l = l.well_formed().ok_or(Refusal::NotWellFormed)?;
    let Some(r) = l.named(key) else {
        return Err(Refusal::NoSuchKey);
    };
    let s = l.size_of_page(r.page);
    answer_request(request, r.frame, s)
}
