// The painters: fill, copy and update of a rectangle, on a lent screen of rows of width pixels.
// A public painter cuts its rectangle; the functions below it paint what is left, row by row.
#![tactic(auto)]

ghost use Rattle.std.specs.Prelude.{◌≡◌, ℕ, Bool, ◌+◌, ◌-◌, ◌*◌, ◌^◌, ◌≤◌, ◌<◌, length, get_or};
ghost use Rattle.geometry.specs.Pixels.{tabulate};
ghost use Rattle.geometry.specs.Parts.{moved, next, Inside, Ordered, after};
ghost use Rattle.pixel.specs.Masks.{reduce_pixel, merge_pixel};
ghost use Rattle.raster.specs.Painters.{max_width, rows_fit, filled, updated, copied};
ghost use Rattle.raster.specs.CutPainters.{InRows, CopyInRows, BothFit, filled_by, filled_cut, updated_cut, copied_by, copied_cut};

use geometry::{Grid, Point, Rect};
use pixel::{Masks, Reduced};

// The largest width of a mode, and so of a row.
pub const MAX_WIDTH: u32 = 2560;

// Whether a grid's rows lie in a lent memory of len words, and are as wide as those of a mode can be.
// Rules out: a grid of no columns taken; rows that fill the memory refused.
#[tactic(auto, unfolding(crate::specs::Painters::rows_fit))]
pub fn lies_in(grid: Grid, len: usize) -> bool
    ensures { result ≡ rows_fit grid.width grid.rows len }
{
    0 < grid.width && grid.width <= MAX_WIDTH && grid.width as usize * grid.rows as usize <= len
}

// The place of column x of a row.
fn place_of(width: u32, x: u32, row: usize) -> usize
    requires { row * width + x < 2 ^ 64 }
    ensures { result ≡ row * width + x }
{
    row * width as usize + x as usize
}

// The top left pixel.
fn corner_of(area: Rect) -> Point
    ensures { result ≡ record { x = area.x; y = area.y } }
{
    Point {
        x: area.x,
        y: area.y,
    }
}

// ---- fill

// What a fill makes of each pixel.
trait Paint: Copy {
    ghost makes: { Self → ℕ → ℕ };

    // One row, which begins at place at of the screen.
    fn row(self, row: &mut [u32], at: usize)
        ensures { row.new ≡ tabulate (length row.old) (λ i. makes self (get_or row.old i 0)) };
}

// A fill that keeps nothing: it need not be read.
#[derive(Clone, Copy)]
struct Colour {
    colour: u32,
}

impl Paint for Colour {
    ghost makes = { λ f d. f.colour };

    fn row(self, row: &mut [u32], at: usize) {
        if row.len() < 32 {
            store_short(row, (4 - at % 4) % 4, self.colour);
        } else {
            store_row(row, self.colour);
        }
    }
}

// Any fill: of each pixel the bits of keep, then those of flip turned over.
impl Paint for Reduced {
    ghost makes = { λ f d. reduce_pixel f.keep f.flip d };

    #[tactic(auto, using(geometry::proofs::Tabulate::front_loop))]
    fn row(self, row: &mut [u32], _at: usize) {
        for p in row.iter_mut() {
            *p = self.apply(*p);
        }
    }
}

// By a loop: `fill` took 1.2 to 1.3 of its time in rows of 32 to 64 pixels.
#[tactic(auto, using(geometry::proofs::Tabulate::front_loop))]
fn store_row(row: &mut [u32], colour: u32)
    ensures { row.new ≡ tabulate (length row.old) (λ i. colour) }
{
    for p in row.iter_mut() {
        *p = colour;
    }
}

// A row of fewer than 32 pixels, four at a time: the first four, those from pixel first on, and the last four. Stores that begin at a multiple of four
// pixels cross no cache line where the screen's memory begins at one; the first and the last overlap them.
fn store_short(row: &mut [u32], first: usize, colour: u32)
    requires { first < 4 }
    ensures { row.new ≡ tabulate (length row.old) (λ i. colour) }
{
    let n = row.len();
    if n < 4 {
        store_row(row, colour);
        return;
    }
    store_row(&mut row[..4], colour);
    // A `for` over the numbers of the fours took 1.1 to 1.4 of the time of this loop.
    let mut i = first;
    while 4 <= n - i {
        store_row(&mut row[i..i + 4], colour);
        i += 4;
    }
    store_row(&mut row[n - 4..], colour);
}

// A single pixel: no loop.
fn store_pixel(screen: &mut [u32], width: u32, at: Point, colour: u32)
    requires { Inside width at.x at.y 1 1 (length screen.old) }
    ensures { screen.new ≡ filled_by width (record { x = at.x; y = at.y; w = 1; h = 1 }) (λ d. colour) screen.old }
{
    screen[place_of(width, at.x, at.y as usize)] = colour;
}

// That a rectangle lies in the rows of a lent slice (`InRows`, `CopyInRows`) is a clause here and below: no type holds both.
// The rows of a fill, from place to place and not by a product for each row: that brought a stream of 16x16 fills back under its target
// (bench/RESULTS.md).
#[tactic(auto, using(crate::proofs::Stored::row_begun, crate::proofs::Stored::turns, geometry::proofs::Loops::rows_end), unfolding(crate::specs::CutPainters::filled_by))]
fn fill_rows<P: Paint>(screen: &mut [u32], width: u32, area: Rect, paint: P)
    requires { InRows width area screen.old }
    ensures { screen.new ≡ filled_by width area (P.makes paint) screen.old }
{
    let step = width as usize;
    let n = area.w as usize;
    let mut at = place_of(width, area.x, area.y as usize);
    for _j in 0..area.h as usize {
        paint.row(&mut screen[at..at + n], at);
        at += step;
    }
}

// A fill by the masks of its operation.
#[tactic(auto, using(crate::proofs::ByMasks::masked_filled))]
fn reduce_cut(screen: &mut [u32], width: u32, area: Rect, colour: u32, rop: u32)
    requires { InRows width area screen.old }
    ensures { screen.new ≡ filled_cut width area colour rop screen.old }
{
    let masks = Reduced::of(rop, colour);
    if masks.keep == 0 {
        fill_rows(screen, width, area, Colour { colour: masks.flip });
    } else {
        fill_rows(screen, width, area, masks);
    }
}

fn fill_cut(screen: &mut [u32], width: u32, area: Rect, colour: u32, rop: u32)
    requires { InRows width area screen.old }
    ensures { screen.new ≡ filled_cut width area colour rop screen.old }
{
    if rop != pixel::COPY {
        reduce_cut(screen, width, area, colour, rop);
    } else if area.w == 1 && area.h == 1 {
        store_pixel(screen, width, corner_of(area), colour);
    } else {
        fill_rows(screen, width, area, Colour { colour });
    }
}

// Each pixel of the rectangle in the rows gets the raster operation of the colour and what stood there. Any rectangle will do.
// Rules out: a fill one pixel too wide; a wide bar that vanishes because x + w wrapped.
#[tactic(auto, using(crate::proofs::Cuts::fill_refused, crate::proofs::Cuts::fill_nothing, crate::proofs::Cuts::fill_cut))]
pub fn fill(screen: &mut [u32], grid: Grid, area: Rect, colour: u32, rop: u32)
    ensures { screen.new ≡ filled grid.width grid.rows area colour rop screen.old }
{
    if !lies_in(grid, screen.len()) {
        return;
    }
    if let Some(left) = area.cut_to(grid) {
        fill_cut(screen, grid.width, left, colour, rop);
    }
}

// ---- update

// The row becomes src. By a loop: `copy_from_slice` took 1.1 to 1.3 of its time in an update's rows. By an index, since of a slice that
// `zip` writes to a proof knows only the length; so in `merge_line`.
#[tactic(auto, using(geometry::proofs::Tabulate::front_loop))]
fn put_row(row: &mut [u32], src: &[u32])
    requires { length row.old ≡ length src.now }
    ensures { row.new ≡ src.now }
{
    for i in 0..row.len() {
        row[i] = src[i];
    }
}

#[tactic(auto, using(geometry::proofs::Rows::row_room))]
fn update_cut(framebuffer: &[u32], screen: &mut [u32], width: u32, area: Rect)
    requires inside { InRows width area screen.old }
    requires inside_2 { InRows width area framebuffer.now }
    ensures { screen.new ≡ updated_cut width area framebuffer.now screen.old }
{
    let w = area.w as usize;
    for j in 0..area.h as usize {
        let at = place_of(width, area.x, area.y as usize + j);
        put_row(&mut screen[at..at + w], &framebuffer[at..at + w]);
    }
}

// The framebuffer's pixels of the rectangle, in the rows, come to the screen.
// Rules out: pixels beyond the rows brought along; a rectangle dropped whole because it reaches one pixel outside.
#[tactic(auto, using(crate::proofs::Cuts::update_refused, crate::proofs::Cuts::update_unlent, crate::proofs::Cuts::update_nothing, crate::proofs::Cuts::update_cut))]
pub fn update(framebuffer: &[u32], screen: &mut [u32], grid: Grid, area: Rect)
    ensures { screen.new ≡ updated grid.width grid.rows area framebuffer.now screen.old }
{
    if !lies_in(grid, screen.len()) || !lies_in(grid, framebuffer.len()) {
        return;
    }
    if let Some(left) = area.cut_to(grid) {
        update_cut(framebuffer, screen, grid.width, left);
    }
}

// ---- copy

// What a copy makes of a source pixel and of the destination pixel that it covers.
trait Operation: Copy {
    ghost makes: { Self → ℕ → ℕ → ℕ };

    fn merge(self, s: u32, d: u32) -> u32
        ensures { result ≡ makes self s d };
}

// How a row of a copy moves: n pixels from place from to place to, where the two may overlap. They stay three numbers: each call below has
// others, and would make a struct of them anew. `inline(always)` keeps a copy's rows
// without calls: with one for each row XOR copies took up to 1.8 of the time.
trait Move: Operation {
    fn row(self, screen: &mut [u32], from: usize, to: usize, n: usize, back: bool)
        requires narrow { n ≤ max_width }
        requires fits { BothFit from to n screen.old }
        requires ordered { Ordered back from to }
        ensures { screen.new ≡ moved from to n (Self.makes self) screen.old };
}

// A plain copy: the source.
#[derive(Clone, Copy)]
struct Plain;

impl Operation for Plain {
    ghost makes = { λ f s d. s };

    fn merge(self, s: u32, _d: u32) -> u32 {
        s
    }
}

// A memmove, but a row of so few pixels takes less than its call. One of two or three would take longer for the pieces' tests: 31
// instructions for 20 in a mode three pixels wide.
impl Move for Plain {
    fn row(self, screen: &mut [u32], from: usize, to: usize, n: usize, back: bool) {
        match n {
            1 | 4..=31 => copy_row(screen, from, to, n, back, self),
            _ => move_row(screen, from, to, n),
        }
    }
}

impl Operation for Masks {
    ghost makes = { merge_pixel };

    fn merge(self, s: u32, d: u32) -> u32 {
        self.apply(s, d)
    }
}

impl Move for Masks {
    #[inline(always)]
    fn row(self, screen: &mut [u32], from: usize, to: usize, n: usize, back: bool) {
        copy_row(screen, from, to, n, back, self);
    }
}

// N pixels from place from to place to: all sources are read before a pixel is written. N is fixed, so they stay in registers.
#[inline(always)]
fn copy_piece<O: Operation, const N: usize>(screen: &mut [u32], from: usize, to: usize, op: O)
    requires small { N ≤ 32 }
    requires fits { BothFit from to N screen.old }
    ensures { screen.new ≡ moved from to N (O.makes op) screen.old }
{
    let mut line = [0; N];
    put_row(&mut line, &screen[from..from + N]);
    merge_line(&mut screen[to..to + N], &line, op);
}

// The operation of the line and the row, in the row.
#[tactic(auto, using(geometry::proofs::Tabulate::front_loop))]
fn merge_line<O: Operation>(row: &mut [u32], line: &[u32], op: O)
    requires { length row.old ≡ length line.now }
    ensures { row.new ≡ tabulate (length row.old) (λ i. O.makes op (get_or line.now i 0) (get_or row.old i 0)) }
{
    for i in 0..row.len() {
        row[i] = op.merge(line[i], row[i]);
    }
}

// One row of a plain copy, n pixels. The two parts may overlap: the source is read whole before a pixel is written.
// It compiles to one memmove; `copy_within` is a loop and took up to 1.7 of its time.
fn move_row(screen: &mut [u32], from: usize, to: usize, n: usize)
    requires narrow { n ≤ max_width }
    requires fits { BothFit from to n screen.old }
    ensures { screen.new ≡ moved from to n (λ s d. s) screen.old }
{
    let mut line = [0; MAX_WIDTH as usize];
    line[..n].copy_from_slice(&screen[from..from + n]);
    screen[to..to + n].copy_from_slice(&line[..n]);
}

// The next N of n pixels, of which some are done, where so many are left; and how many are done then.
#[inline(always)]
fn copy_next<O: Operation, const BACK: bool, const N: usize>(
    screen: &mut [u32],
    from: usize,
    to: usize,
    n: usize,
    done: usize,
    op: O,
) -> usize
    requires small { N ≤ 32 }
    requires part { done ≤ n }
    requires fits { BothFit from to n screen.old }
    ensures left { done + N ≤ n → result ≡ done + N }
    ensures too_few { n < done + N → result ≡ done }
    ensures moves { screen.new ≡ moved (from + next BACK n done (result - done)) (to + next BACK n done (result - done)) (result - done) (O.makes op) screen.old }
{
    if n - done < N {
        return done;
    }
    let i = next(BACK, n, done, N);
    copy_piece::<O, N>(screen, from + i, to + i, op);
    done + N
}

// A row of any length, 32 pixels at a time and then what is left in halves, from the back for a destination that is not before its
// source, and from the front for one that is not behind it.
fn copy_pieces<O: Operation, const BACK: bool>(
    screen: &mut [u32],
    from: usize,
    to: usize,
    n: usize,
    op: O,
)
    requires fits { BothFit from to n screen.old }
    requires ordered { Ordered BACK from to }
    ensures { screen.new ≡ moved from to n (O.makes op) screen.old }
{
    // A `for` over the numbers of the pieces took 1.06 to 1.13 of the time of this loop.
    let mut done = 0;
    while 32 <= n - done {
        done = copy_next::<O, BACK, 32>(screen, from, to, n, done, op);
    }
    let done_16 = copy_next::<O, BACK, 16>(screen, from, to, n, done, op);
    let done_8 = copy_next::<O, BACK, 8>(screen, from, to, n, done_16, op);
    let done_4 = copy_next::<O, BACK, 4>(screen, from, to, n, done_8, op);
    let done_2 = copy_next::<O, BACK, 2>(screen, from, to, n, done_4, op);
    let _all = copy_next::<O, BACK, 1>(screen, from, to, n, done_2, op);
}

// A row of one pixel, as a column has them, goes without the pieces.
#[inline(always)]
fn copy_row<O: Operation>(screen: &mut [u32], from: usize, to: usize, n: usize, back: bool, op: O)
    requires fits { BothFit from to n screen.old }
    requires ordered { Ordered back from to }
    ensures { screen.new ≡ moved from to n (O.makes op) screen.old }
{
    if n == 1 {
        copy_piece::<O, 1>(screen, from, to, op);
    } else if back {
        copy_pieces::<O, true>(screen, from, to, n, op);
    } else {
        copy_pieces::<O, false>(screen, from, to, n, op);
    }
}

// Whether the pixel to comes after the pixel from, row by row.
fn comes_after(from: Point, to: Point) -> bool
    ensures { result ≡ after from.x from.y to.x to.y }
{
    (from.y, from.x) < (to.y, to.x)
}

// The next k of n, of which some are done: those behind them, or, from the back, those before them.
fn next(back: bool, n: usize, done: usize, k: usize) -> usize
    requires { done + k ≤ n }
    ensures { result ≡ next back n done k }
{
    if back { n - done - k } else { done }
}

// Rows from the top, or from the bottom where the destination comes after the source: no pixel is painted before it is read.
#[tactic(auto, using(geometry::proofs::Loops::copy_loop), unfolding(crate::specs::CutPainters::copied_by))]
fn copy_rows<O: Move, const BACK: bool>(
    screen: &mut [u32],
    width: u32,
    from: Point,
    area: Rect,
    op: O,
)
    requires in_rows { CopyInRows width from.x from.y area screen.old }
    requires ordered { BACK ≡ after from.x from.y area.x area.y }
    ensures { screen.new ≡ copied_by width from.x from.y area (O.makes op) screen.old }
{
    let w = area.w as usize;
    let h = area.h as usize;
    for done in 0..h {
        let j = next(BACK, h, done, 1);
        let source = place_of(width, from.x, from.y as usize + j);
        let place = place_of(width, area.x, area.y as usize + j);
        op.row(screen, source, place, w, BACK);
    }
}

// The order is a const parameter: each has loops of its own.
fn copy_by<O: Move>(screen: &mut [u32], width: u32, from: Point, area: Rect, op: O)
    requires { CopyInRows width from.x from.y area screen.old }
    ensures { screen.new ≡ copied_by width from.x from.y area (O.makes op) screen.old }
{
    let to = corner_of(area);
    if comes_after(from, to) {
        copy_rows::<O, true>(screen, width, from, area, op);
    } else {
        copy_rows::<O, false>(screen, width, from, area, op);
    }
}

#[tactic(auto, using(crate::proofs::ByMasks::plain_copied, crate::proofs::ByMasks::masked_copied))]
fn copy_cut(screen: &mut [u32], width: u32, from: Point, area: Rect, rop: u32)
    requires { CopyInRows width from.x from.y area screen.old }
    ensures { screen.new ≡ copied_cut width from.x from.y area rop screen.old }
{
    if rop == pixel::COPY {
        copy_by(screen, width, from, area, Plain);
    } else {
        copy_by(screen, width, from, area, Masks::of(rop));
    }
}

// The pixels at from move to the rectangle by the raster operation: offset (i, j) exactly if its source and its destination
// lie in the rows. Sources and destinations may overlap.
// Rules out: a copy that cuts its destination and forgets the source; overlapping rows read after they were painted.
#[tactic(auto, using(crate::proofs::Cuts::copy_refused, crate::proofs::Cuts::copy_nothing, crate::proofs::Cuts::copy_cut))]
pub fn copy(screen: &mut [u32], grid: Grid, from: Point, area: Rect, rop: u32)
    ensures { screen.new ≡ copied grid.width grid.rows from.x from.y area rop screen.old }
{
    if !lies_in(grid, screen.len()) {
        return;
    }
    if let Some(left) = area.cut_copy(from, grid) {
        copy_cut(screen, grid.width, from, left, rop);
    }
}
