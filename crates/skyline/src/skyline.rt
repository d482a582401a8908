// A page's skyline in two lent slices, and that skyline with a cell more, written over the old one: the crate's split and merge
// in one walk. And the skyline that a page keeps, in places of its own.
ghost use Rattle.std.specs.Prelude.{◌≡◌, List, [], ℕ, ◌+◌, ◌≤◌, ◌<◌, ◌≢◌, length, get_or, slice_index, EachIndex, MatchOption};
ghost use Rattle.skyline.specs.declared.skyline.Skyline.{Skyline};
ghost use Rattle.skyline.specs.Skyline.{Outline, outline, lent, stored, Whole, Shape, edge, Pushed, Kept, Starts, Raised, Walked, Holds};

use crate::skyline_packer;

// Segment i has the columns from xs[i] up to xs[i + 1] and the height ys[i]; xs[n] is the area's edge. The slices are of any
// length that has these places: n + 1 in xs, n in ys. Where a segment may come to be, a place more in each.
#[derive(Clone, Copy)]
pub struct Segments<'a> {
    pub xs: &'a [u32],
    pub ys: &'a [u32],
    pub n: usize,
}

// The same in places of its own, which it lends to the functions on slices. The packing core has no heap, so there are as many
// as a page of 256 images needs: 257 segments, and the edge. A skyline is 2 KB, and lent wherever it is used.
#[derive(Clone, Copy)]
pub struct Skyline {
    pub xs: [u32; 258],
    pub ys: [u32; 258],
    pub n: usize,
}

// The columns from the skyline's edge up to e added at height y: the last segment made longer if it has that height, or
// one segment more. The answer is the number of segments.
fn push(xs: &mut [u32], ys: &mut [u32], n: usize, y: u32, e: u32) -> usize
    requires shape { Shape (get_or xs.old n 0) (outline xs.old ys.old n) }
    requires room { (get_or xs.old n 0 < e) × (n + 1 < length xs.old) × (n < length ys.old) }
    ensures { Pushed (outline xs.old ys.old n) y e (outline xs.new ys.new result) }
{
    if 0 < n && ys[n - 1] == y {
        xs[n] = e;
        n
    } else {
        ys[n] = y;
        xs[n + 1] = e;
        n + 1
    }
}

// The place of a column among some, if it is there.
fn place_of(xs: &[u32], s: u32) -> Option<usize>
    ensures { MatchOption result (EachIndex xs.now (λ k. slice_index xs.now k ≢ s)) (λ j. (j < length xs.now) × (slice_index xs.now j ≡ s)) }
{
    xs.iter().position(|x| *x == s)
}

impl<'a> Segments<'a> {
    // The segment that starts at column s.
    fn segment_at(self, s: u32) -> usize
        requires starts { Starts (lent self) s × (self.n ≤ length self.xs.now) }
        ensures { (result < self.entry.n) × (get_or self.entry.xs.now result 0 ≡ s) }
    {
        place_of(&self.xs[..self.n], s).unwrap_or(0)
    }
}

// What is left, right of column e, of an old segment of height y that ends at column x, added to the skyline.
fn keep(xs: &mut [u32], ys: &mut [u32], n: usize, y: u32, x: u32, e: u32) -> usize
    requires shape { Shape (get_or xs.old n 0) (outline xs.old ys.old n) }
    requires edge_left { e < x → get_or xs.old n 0 < x }
    requires room { (n + 1 < length xs.old) × (n < length ys.old) }
    ensures { Kept (outline xs.old ys.old n) y x e (outline xs.new ys.new result) }
{
    if e < x { push(xs, ys, n, y, x) } else { n }
}

// What is left of the old n segments from segment `from` on, added to the new skyline of `count` segments that is written over
// them; that segment itself, of height `height` up to column `end`, is taken out already. The walk writes at most one segment
// ahead of the one that it keeps, so the next one is read first.
fn keep_rest(
    xs: &mut [u32],
    ys: &mut [u32],
    n: usize,
    from: usize,
    count: usize,
    height: u32,
    end: u32,
    e: u32,
) -> usize
    requires { (w : ℕ) × (old : Outline) × (s : ℕ) × (t : ℕ) × (old.n ≡ n) ×
        Walked w old s e t from height end (outline xs.old ys.old count) }
    ensures { (w : ℕ) (old : Outline) (s t : ℕ) → old.n ≡ n →
        Walked w old s e t from height end (outline xs.old ys.old count) →
        Raised w old s e t (outline xs.new ys.new result) }
{
    let mut k = count;
    let mut y = height;
    let mut x = end;
    for j in from..n {
        let next_y = ys[j + 1];
        let next_x = xs[j + 2];
        k = keep(xs, ys, k, y, x, e);
        y = next_y;
        x = next_x;
    }
    k
}

// The skyline with the columns from s up to e at height t. The answer is the number of segments.
pub fn split_and_merge(xs: &mut [u32], ys: &mut [u32], n: usize, s: u32, e: u32, t: u32) -> usize
    requires shape { (w : ℕ) × Shape w (outline xs.old ys.old n) × (e ≤ w) }
    requires starts { Starts (outline xs.old ys.old n) s }
    requires room { (s < e) × (n + 1 < length xs.old) × (n < length ys.old) }
    ensures { (w : ℕ) → Shape w (outline xs.old ys.old n) → e ≤ w →
        Raised w (outline xs.old ys.old n) s e t (outline xs.new ys.new result) }
{
    let j = Segments { xs, ys, n }.segment_at(s);
    let y = ys[j];
    let x = xs[j + 1];
    let k = push(xs, ys, j, t, e);
    keep_rest(xs, ys, n, j, k, y, x, e)
}

impl Skyline {
    // The skyline of an empty page, of one segment.
    pub fn new(w: u32) -> Skyline
        requires { 0 < w }
        ensures holds { Holds w [] (stored result) }
        ensures whole { Whole result }
    {
        let mut xs = [0; 258];
        let mut ys = [0; 258];
        skyline_packer::new(&mut xs, &mut ys, w);
        Skyline { xs, ys, n: 1 }
    }

    // The same, written over what it was.
    pub fn clear(&mut self, w: u32)
        requires { 0 < w }
        ensures holds { Holds w [] (stored self.new) }
        ensures whole { Whole self.new }
    {
        skyline_packer::new(&mut self.xs, &mut self.ys, w);
        self.n = 1;
    }

    // Its segments, lent.
    pub(crate) fn segments(&self) -> Segments<'_>
        ensures { (result.xs.now ≡ self.now.xs) × (result.ys.now ≡ self.now.ys) × (result.n ≡ self.now.n) }
    {
        Segments {
            xs: &self.xs,
            ys: &self.ys,
            n: self.n,
        }
    }

    // The skyline with the columns from s up to e at height t.
    pub fn split_and_merge(&mut self, s: u32, e: u32, t: u32)
        requires shape { (w : ℕ) × Shape w (stored self.old) × (e ≤ w) }
        requires starts { Starts (stored self.old) s }
        requires room { (s < e) × (self.old.n + 1 < 258) }
        ensures raised { (w : ℕ) → Shape w (stored self.old) → e ≤ w → Raised w (stored self.old) s e t (stored self.new) }
        ensures whole { Whole self.new }
    {
        self.n = split_and_merge(&mut self.xs, &mut self.ys, self.n, s, e, t);
    }
}
