// Where a cell goes on one page: rectangles, and the better of two places.
#![tactic(auto)]

pub mod rect;
pub mod spot;
