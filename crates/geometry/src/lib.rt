// Rectangles and their cut to rows of pixels.
#![tactic(auto)]

ghost use Rattle.std.specs.Prelude.{◌≡◌, ◌+◌};
ghost use Rattle.geometry.specs.Rectangle.{span_below, cut_of, cut_to, cut_copy};

// The pixel of column x and row y.
#[derive(Clone, Copy, PartialEq, Eq)]
pub struct Point {
    pub x: u32,
    pub y: u32,
}

// Rows of width pixels, one after the other.
#[derive(Clone, Copy, PartialEq, Eq)]
pub struct Grid {
    pub width: u32,
    pub rows: u32,
}

// w by h pixels, of which (x, y) is the top left one. Any four numbers are a rectangle.
#[derive(Clone, Copy, PartialEq, Eq)]
pub struct Rect {
    pub x: u32,
    pub y: u32,
    pub w: u32,
    pub h: u32,
}

// What painters reach of a screen: the mode is width by height, and rows are all that its columns go on for, the mode's and those behind it.
#[derive(Clone, Copy, PartialEq, Eq)]
pub struct Frame {
    pub width: u32,
    pub height: u32,
    pub rows: u32,
}

impl Frame {
    // The mode.
    // Rules out: all rows; a grid as wide as the mode is high.
    pub fn mode(self) -> Grid
        ensures { result ≡ record { width = self.width; rows = self.height } }
    {
        Grid {
            width: self.width,
            rows: self.height,
        }
    }

    // All rows.
    // Rules out: the mode's rows alone; a grid without those of the mode.
    pub fn all_rows(self) -> Grid
        ensures { result ≡ record { width = self.width; rows = self.rows } }
    {
        Grid {
            width: self.width,
            rows: self.rows,
        }
    }
}

// The first place behind the n places from at on, as a whole number.
fn end_of(at: u32, n: u32) -> u64
    ensures { result ≡ at + n }
{
    at as u64 + n as u64
}

// How many of the n places from at on lie below limit.
fn span_below(limit: u32, at: u32, n: u32) -> u32
    ensures { result ≡ span_below limit at n }
{
    if limit <= at {
        return 0;
    }
    let end = end_of(at, n);
    if end <= limit as u64 {
        return n;
    }
    limit - at
}

// A rectangle that may have no pixel.
fn cut_of(x: u32, y: u32, w: u32, h: u32) -> Option<Rect>
    ensures { result ≡ cut_of x y w h }
{
    if w == 0 || h == 0 {
        return None;
    }
    Some(Rect { x, y, w, h })
}

impl Rect {
    // What is left of a rectangle in a grid.
    // Rules out: a wide rectangle that vanishes because x + w wrapped; an empty rectangle handed on as one that has pixels.
    #[tactic(auto, unfolding(crate::specs::Rectangle::cut_to))]
    pub fn cut_to(self, grid: Grid) -> Option<Rect>
        ensures { result ≡ cut_to self grid.width grid.rows }
    {
        let w = span_below(grid.width, self.x, self.w);
        let h = span_below(grid.rows, self.y, self.h);
        cut_of(self.x, self.y, w, h)
    }

    // What is left of a copy's destination once the source at from is cut as well.
    // Rules out: destinations whose source lies outside; a source that is cut while its destination is not.
    #[tactic(auto, unfolding(crate::specs::Rectangle::cut_copy))]
    pub fn cut_copy(self, from: Point, grid: Grid) -> Option<Rect>
        ensures { result ≡ cut_copy from.x from.y self grid.width grid.rows }
    {
        let w = span_below(grid.width, self.x, self.w);
        let h = span_below(grid.rows, self.y, self.h);
        let moved_w = span_below(grid.width, from.x, w);
        let moved_h = span_below(grid.rows, from.y, h);
        cut_of(self.x, self.y, moved_w, moved_h)
    }
}
