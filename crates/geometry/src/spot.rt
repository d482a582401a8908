// Where a cell goes, and which of two places is better.
ghost use Rattle.std.specs.Prelude.{◌≡◌};
ghost use Rattle.geometry.specs.Words.{before};
ghost use Rattle.geometry.specs.Placing.{turn_number, rank, lying};
ghost use Rattle.geometry.specs.Choice.{choice, lowest};

use crate::rect::{Rect, Size};

#[derive(Clone, Copy, PartialEq, Eq, PartialOrd, Ord)]
pub enum Turn {
    Upright = 0,
    Turned = 1,
}

impl From<Turn> for u32 {
    ghost from_gives = { λ t n. n ≡ turn_number t };

    fn from(t: Turn) -> u32 {
        t as u32
    }
}

// Where a cell goes: its rectangle, its bottom row, the width of the segment that it starts at, and how it lies.
#[derive(Clone, Copy, PartialEq, Eq)]
pub struct Spot {
    pub at: Rect,
    pub bottom: u32,
    pub segment: u32,
    pub turn: Turn,
}

// A size as it lies.
#[tactic(auto, unfolding(crate::specs::Placing::lying))]
pub fn lying_size(t: Turn, s: Size) -> Size
    ensures { result ≡ lying t s }
{
    match t {
        Turn::Upright => s,
        Turn::Turned => Size { w: s.h, h: s.w },
    }
}

#[tactic(auto, unfolding(crate::specs::Placing::rank, crate::specs::Words::before))]
fn ranks_before(a: Spot, b: Spot) -> bool
    ensures { result ≡ before (rank a) (rank b) }
{
    (a.bottom, a.segment, a.at.x, a.turn) < (b.bottom, b.segment, b.at.x, b.turn)
}

// The better of two answers, the earlier first.
#[tactic(auto, unfolding(crate::specs::Choice::choice, crate::specs::Placing::better))]
pub fn choose(a: Option<Spot>, b: Option<Spot>) -> Option<Spot>
    ensures { result ≡ choice a b }
{
    match (a, b) {
        (Some(j), Some(k)) => { if ranks_before(k, j) { b } else { a } }
        _ => a.or(b),
    }
}

// How many rows of an area h high are left to a cell that is to rank before what was found.
#[tactic(auto, unfolding(crate::specs::Choice::lowest))]
pub fn lowest_end(h: u32, found: Option<Spot>) -> u32
    ensures { result ≡ lowest h found }
{
    found.map_or(h, |k| h.min(k.bottom.saturating_add(1)))
}
