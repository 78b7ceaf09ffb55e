// A finished picture: the screen's rows, with the cursor over them.
#![tactic(auto)]

ghost use Rattle.std.specs.Prelude.{◌≡◌};
ghost use Rattle.picture.specs.Picture.{composed};

use cursor::Shape;
use geometry::{Grid, Point, Rect};

// The cursor that is visible, at a position: x and y are registers, read as two's complement by the cursor plane.
#[derive(Clone, Copy, PartialEq, Eq)]
pub struct VisibleCursor {
    pub shape: Shape,
    pub x: u32,
    pub y: u32,
}

// The screen's rows in the output, and the cursor over them.
// Rules out: the bare screen where a cursor covers it; words of the output behind the rows changed.
#[tactic(auto, using(crate::proofs::Laws::outside_output, crate::proofs::Laws::outside_screen, crate::proofs::Laws::bare, crate::proofs::Laws::with_cursor))]
pub fn compose(
    screen: &[u32],
    image: &[u32],
    output: &mut [u32],
    grid: Grid,
    over: Option<VisibleCursor>,
)
    ensures { output.new ≡ composed grid.width grid.rows over screen.now image.now output.old }
{
    if !raster::lies_in(grid, output.len()) || !raster::lies_in(grid, screen.len()) {
        return;
    }
    let all = Rect {
        x: 0,
        y: 0,
        w: grid.width,
        h: grid.rows,
    };
    raster::update(screen, output, grid, all);
    if let Some(shown) = over {
        let at = Point {
            x: shown.x,
            y: shown.y,
        };
        cursor::overlay(output, grid, image, shown.shape, at);
    }
}
