// Rectangles, after rect.rs of texture_packer, arithmetic only. A last column or row is a u64, so that it is there for
// every rectangle of u32 numbers.
ghost use Rattle.std.specs.Prelude.{◌≡◌, ◌+◌, ◌-◌, ◌*◌};
ghost use Rattle.geometry.specs.Rects.{on_span, in_span, at_end, right_of, bottom_of, holds_point, holds_rect, on_outline, Spanned};

#[derive(Clone, Copy, PartialEq, Eq)]
pub struct Size {
    pub w: u32,
    pub h: u32,
}

#[derive(Clone, Copy, PartialEq, Eq)]
pub struct Rect {
    pub x: u32,
    pub y: u32,
    pub w: u32,
    pub h: u32,
}

// The last of the n numbers from a on.
fn last(a: u32, n: u32) -> u64
    ensures { result ≡ a + n - 1 }
{
    (u64::from(a) + u64::from(n)).saturating_sub(1)
}

#[tactic(auto, unfolding(crate::specs::Rects::on_span))]
fn on_span(a: u32, n: u32, x: u32) -> bool
    ensures { result ≡ on_span a n x }
{
    a <= x && x - a < n
}

#[tactic(auto, unfolding(crate::specs::Rects::in_span))]
fn in_span(a: u32, n: u32, b: u32, m: u32) -> bool
    ensures { result ≡ in_span a n b m }
{
    a <= b && b - a <= n && m <= n - (b - a)
}

#[tactic(auto, unfolding(crate::specs::Rects::at_end))]
fn at_end(a: u32, n: u32, x: u32) -> bool
    ensures { result ≡ at_end a n x }
{
    x == a || u64::from(x) == last(a, n)
}

impl Rect {
    pub fn new(x: u32, y: u32, w: u32, h: u32) -> Rect
        ensures { result ≡ record { x = x; y = y; w = w; h = h } }
    {
        Rect { x, y, w, h }
    }

    // The rectangle from a first point to a last one, both in it.
    pub fn new_with_points(x1: u32, y1: u32, x2: u32, y2: u32) -> Rect
        requires { Spanned x1 x2 × Spanned y1 y2 }
        ensures { result ≡ record { x = x1; y = y1; w = x2 - x1 + 1; h = y2 - y1 + 1 } }
    {
        Rect {
            x: x1,
            y: y1,
            w: x2 - x1 + 1,
            h: y2 - y1 + 1,
        }
    }

    pub fn top(self) -> u32
        ensures { result ≡ self.y }
    {
        self.y
    }

    pub fn bottom(self) -> u64
        ensures { result ≡ bottom_of self }
    {
        last(self.y, self.h)
    }

    pub fn left(self) -> u32
        ensures { result ≡ self.x }
    {
        self.x
    }

    pub fn right(self) -> u64
        ensures { result ≡ right_of self }
    {
        last(self.x, self.w)
    }

    pub fn area(self) -> u64
        ensures { result ≡ self.w * self.h }
    {
        u64::from(self.w) * u64::from(self.h)
    }

    #[tactic(auto, unfolding(crate::specs::Rects::holds_rect))]
    pub fn contains(self, other: Rect) -> bool
        ensures { result ≡ holds_rect self other }
    {
        in_span(self.x, self.w, other.x, other.w) && in_span(self.y, self.h, other.y, other.h)
    }

    #[tactic(auto, unfolding(crate::specs::Rects::holds_point))]
    pub fn contains_point(self, x: u32, y: u32) -> bool
        ensures { result ≡ holds_point self x y }
    {
        on_span(self.x, self.w, x) && on_span(self.y, self.h, y)
    }

    // Whether a point lies in the left or right column, or in the top or bottom row.
    #[tactic(auto, unfolding(crate::specs::Rects::on_outline))]
    pub fn is_outline(self, x: u32, y: u32) -> bool
        ensures { result ≡ on_outline self x y }
    {
        at_end(self.x, self.w, x) || at_end(self.y, self.h, y)
    }
}
