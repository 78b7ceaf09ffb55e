// The painters for C: a slice is a pointer and a number of words, a rectangle is four numbers.
#![tactic(auto)]

ghost use Rattle.std.specs.Prelude.{◌≡◌};
ghost use Rattle.raster.specs.Painters.{filled, updated, copied};

use geometry::{Grid, Point, Rect};

// Rules out: a fill of the rectangle with x and y exchanged; one that ignores the raster operation.
#[unsafe(no_mangle)]
pub extern "C" fn raster_fill(
    screen: &mut [u32],
    width: u32,
    rows: u32,
    x: u32,
    y: u32,
    w: u32,
    h: u32,
    colour: u32,
    rop: u32,
)
    ensures { screen.new ≡ filled width rows (record { x = x; y = y; w = w; h = h }) colour rop screen.old }
{
    let grid = Grid { width, rows };
    raster::fill(screen, grid, Rect { x, y, w, h }, colour, rop);
}

// Rules out: an update of the whole screen whatever the rectangle; one that paints where the framebuffer is too short for the rows.
#[unsafe(no_mangle)]
pub extern "C" fn raster_update(
    framebuffer: &[u32],
    screen: &mut [u32],
    width: u32,
    rows: u32,
    x: u32,
    y: u32,
    w: u32,
    h: u32,
)
    ensures { screen.new ≡ updated width rows (record { x = x; y = y; w = w; h = h }) framebuffer.now screen.old }
{
    let grid = Grid { width, rows };
    raster::update(framebuffer, screen, grid, Rect { x, y, w, h });
}

// Rules out: a copy from (x, y) to (sx, sy); one that is always plain, whatever the raster operation.
#[unsafe(no_mangle)]
pub extern "C" fn raster_copy(
    screen: &mut [u32],
    width: u32,
    rows: u32,
    sx: u32,
    sy: u32,
    x: u32,
    y: u32,
    w: u32,
    h: u32,
    rop: u32,
)
    ensures { screen.new ≡ copied width rows sx sy (record { x = x; y = y; w = w; h = h }) rop screen.old }
{
    let grid = Grid { width, rows };
    let from = Point { x: sx, y: sy };
    raster::copy(screen, grid, from, Rect { x, y, w, h }, rop);
}
