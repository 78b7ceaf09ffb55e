// What an executed command does: to the screen, to the fence and to the defined cursor. The cursor's pixels come from the ring and are the run's to copy; ring
// word 6 is the run's to write.
#![tactic(auto)]

ghost use Rattle.std.specs.Prelude.{◌≡◌, Bool};
ghost use Rattle.raster.specs.Painters.{filled, copied};
ghost use Rattle.effect.specs.Effects.{scene, screen_after, fence_after, defined_after, marks_after};

use command::Action;
use cursor::Shape;
use geometry::{Frame, Grid, Point, Rect};

// The last fence executed and the defined cursor, if one is.
#[derive(Clone, Copy, PartialEq, Eq)]
pub struct Marks {
    pub fence: u32,
    pub defined: Option<Shape>,
}

// A fill. A plain one has a call of its own, with the constant: docs/DECISIONS.md, under what is executed.
fn fill(screen: &mut [u32], grid: Grid, area: Rect, colour: u32, rop: u32)
    ensures { screen.new ≡ filled grid.width grid.rows area colour rop screen.old }
{
    match rop {
        pixel::COPY => raster::fill(screen, grid, area, colour, pixel::COPY),
        _ => raster::fill(screen, grid, area, colour, rop),
    }
}

fn copy(screen: &mut [u32], grid: Grid, from: Point, area: Rect, rop: u32)
    ensures { screen.new ≡ copied grid.width grid.rows from.x from.y area rop screen.old }
{
    match rop {
        pixel::COPY => raster::copy(screen, grid, from, area, pixel::COPY),
        _ => raster::copy(screen, grid, from, area, rop),
    }
}

// The screen's part of an action, whether fences are posted or not. An update keeps to the mode; fills and copies reach all rows.
// Rules out: a fill that reads the framebuffer; an update that paints offscreen rows; a copy that ends at the mode's last row.
#[tactic(auto, using(crate::proofs::ByRows::fill_by_rows, crate::proofs::ByRows::copy_by_rows), unfolding(crate::specs::Effects::screen_after))]
pub fn draw(action: Action, framebuffer: &[u32], screen: &mut [u32], frame: Frame)
    ensures { (posts : Bool) → screen.new ≡ screen_after (scene frame framebuffer.now posts) action screen.old }
{
    match action {
        Action::Update(area) => raster::update(framebuffer, screen, frame.mode(), area),
        Action::Fill(area, colour, rop) => fill(screen, frame.all_rows(), area, colour, rop),
        Action::Copy(from, area, rop) => copy(screen, frame.all_rows(), from, area, rop),
        Action::Define(_) | Action::Fence(_) | Action::Nothing => {}
    }
}

// The last fence after an action.
// Rules out: a fence of 0 left out; an update that clears it.
#[tactic(auto, unfolding(crate::specs::Effects::fence_after))]
pub fn fence_after(action: Action, fence: u32) -> u32
    ensures { result ≡ fence_after action fence }
{
    match action {
        Action::Fence(number) => number,
        _ => fence,
    }
}

// The defined cursor after an action.
#[tactic(auto, unfolding(crate::specs::Effects::defined_after))]
fn defined_after(action: Action, defined: Option<Shape>) -> Option<Shape>
    ensures { result ≡ defined_after action defined }
{
    match action {
        Action::Define(shape) => Some(shape),
        _ => defined,
    }
}

impl Marks {
    // The fence and the defined cursor after an action.
    // Rules out: a defined cursor that keeps the old hotspot; a cursor that clears the fence.
    pub fn after(self, action: Action) -> Marks
        ensures { result ≡ marks_after action self }
    {
        Marks {
            fence: fence_after(action, self.fence),
            defined: defined_after(action, self.defined),
        }
    }
}
