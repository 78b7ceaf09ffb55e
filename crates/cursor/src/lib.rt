// The cursor plane: where a cursor stands over a picture, and its pixels blended there.
#![tactic(auto)]

ghost use Rattle.std.specs.Prelude.{◌≡◌, ◌≤◌, length, get_or};
ghost use Rattle.geometry.specs.Pixels.{tabulate};
ghost use Rattle.geometry.specs.Parts.{Inside};
ghost use Rattle.pixel.specs.Blend.{blend_pixel};
ghost use Rattle.cursor.specs.Plane.{shape_good, signed, corner_of, overlay_fits, overlaid};
ghost use Rattle.cursor.specs.Spans.{span_at, span_from, overlaid_visible};

use geometry::{Grid, Point};

// The largest side of a cursor.
pub const MAX_SIDE: u32 = 64;

// The words of a cursor image: the largest cursor's pixels.
pub const IMAGE_WORDS: usize = 4096;

// A defined cursor: its id, hotspot and size.
#[derive(Clone, Copy, PartialEq, Eq, Default)]
pub struct Shape {
    pub id: u32,
    pub hotx: u32,
    pub hoty: u32,
    pub w: u32,
    pub h: u32,
}

// The part of a cursor's columns or rows that lies in the picture: n of them, from column at of the picture and column skip of the cursor on.
#[derive(Clone, Copy, Default)]
struct Span {
    at: u32,
    skip: u32,
    n: u32,
}

// Whether a command may define such a cursor.
// Rules out: a cursor of 65 by 1 or of 0 by 1; a hotspot on the edge behind the last column.
#[tactic(auto, unfolding(crate::specs::Plane::shape_good))]
pub fn shape_good(shape: Shape) -> bool
    ensures { result ≡ shape_good shape }
{
    (1..=MAX_SIDE).contains(&shape.w)
        && (1..=MAX_SIDE).contains(&shape.h)
        && shape.hotx < shape.w
        && shape.hoty < shape.h
}

// ---- where the cursor stands

// A register's value, read as two's complement.
fn signed_of(x: u32) -> i64
    ensures { result ≡ signed x }
{
    i64::from(x.cast_signed())
}

fn corner_of(position: u32, hot: u32) -> i64
    ensures { result ≡ corner_of position hot }
{
    signed_of(position) - i64::from(hot)
}

// Of the cursor's columns from skip to below size, those that fit from column at of the picture to below limit.
fn span_at(at: u64, skip: u64, size: u32, limit: u32) -> Span
    ensures { result ≡ span_at at skip size limit }
{
    if u64::from(limit) <= at || u64::from(size) <= skip {
        return Span::default();
    }
    let at = at as u32;
    let skip = skip as u32;
    Span {
        at,
        skip,
        n: (size - skip).min(limit - at),
    }
}

// Of size columns from the corner on, those from 0 to below limit.
#[tactic(auto, using(crate::proofs::Spans::before, crate::proofs::Spans::beyond), unfolding(crate::specs::Spans::span_from))]
fn span_of(position: u32, hot: u32, size: u32, limit: u32) -> Span
    ensures { result ≡ span_from (corner_of position hot) size limit }
{
    let corner = corner_of(position, hot);
    let distance = corner.unsigned_abs();
    if corner < 0 {
        span_at(0, distance, size, limit)
    } else {
        span_at(distance, 0, size, limit)
    }
}

// ---- its pixels

// One row: each cursor pixel blended over the picture's. By an index, since an iterator that lends pixels to write says nothing to a proof.
#[tactic(auto, using(geometry::proofs::Tabulate::is_tabulate))]
fn blend_row(row: &mut [u32], pixels: &[u32])
    requires { length row.old ≤ length pixels.now }
    ensures { row.new ≡ tabulate (length row.old) (λ i. blend_pixel (get_or pixels.now i 0) (get_or row.old i 0)) }
{
    for i in 0..row.len() {
        row[i] = pixel::blend(pixels[i], row[i]);
    }
}

// The columns and rows of a cursor of w columns that are visible.
fn overlay_visible(
    picture: &mut [u32],
    width: usize,
    image: &[u32],
    w: usize,
    columns: Span,
    lines: Span,
)
    requires in_picture { Inside width columns.at lines.at columns.n lines.n (length picture.old) }
    requires in_image { Inside w columns.skip lines.skip columns.n lines.n (length image.now) }
    ensures { picture.new ≡ overlaid_visible width w columns lines image.now picture.old }
{
    let n = columns.n as usize;
    for j in 0..lines.n as usize {
        let at = (lines.at as usize + j) * width + columns.at as usize;
        let from = (lines.skip as usize + j) * w + columns.skip as usize;
        blend_row(&mut picture[at..at + n], &image[from..from + n]);
    }
}

#[tactic(auto, unfolding(crate::specs::Plane::overlay_fits))]
fn overlay_fits(grid: Grid, shape: Shape, pixels: usize, words: usize) -> bool
    ensures { result ≡ overlay_fits grid.width grid.rows shape pixels words }
{
    0 < grid.width
        && grid.width as usize * grid.rows as usize <= pixels
        && shape.w as usize * shape.h as usize <= words
}

// The cursor's pixels over a picture in a grid, the hotspot at a point.
// Rules out: a hotspot that is added; a cursor half outside that is dropped, or that comes in again at the other edge.
#[tactic(auto, using(crate::proofs::Spans::overlay_refused, crate::proofs::Spans::overlay_by_spans))]
pub fn overlay(picture: &mut [u32], grid: Grid, image: &[u32], shape: Shape, at: Point)
    ensures { picture.new ≡ overlaid grid.width grid.rows shape at.x at.y image.now picture.old }
{
    if !overlay_fits(grid, shape, picture.len(), image.len()) {
        return;
    }
    let columns = span_of(at.x, shape.hotx, shape.w, grid.width);
    let lines = span_of(at.y, shape.hoty, shape.h, grid.rows);
    overlay_visible(
        picture,
        grid.width as usize,
        image,
        shape.w as usize,
        columns,
        lines,
    );
}
