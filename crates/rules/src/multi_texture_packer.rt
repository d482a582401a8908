// The answers of ask, offer and withdraw; where a layout goes along, it stands beside the answer.
use geometry::rect::Rect;
use geometry::spot::Turn;
use records::frame::{Key, Page};
use records::layout::Answered;
use records::refusal::Refusal;

// Where an offered image is placed.
#[derive(Clone, Copy, PartialEq, Eq)]
pub struct Place {
    pub page: Page,
    pub frame: Rect,
    pub turn: Turn,
}

pub type Asked = Result<bool, Refusal>;

pub type Offered = Result<Place, Refusal>;

pub type Withdrawn = Result<Key, Refusal>;

pub type Offering = Answered<Offered>;

pub type Withdrawing = Answered<Withdrawn>;
