// The usable offscreen rectangle: what lies behind the mode in the device's pixels.
#![tactic(auto)]

ghost use Rattle.std.specs.Prelude.{◌≡◌, ◌*◌, ◌/◌, ◌≤◌};
ghost use Rattle.offscreen.specs.Offscreen.{ceiling, offscreen_of};

use device::{Device, is_well_formed};

// The edges of a rectangle; right and bottom are excluded.
#[derive(Clone, Copy, PartialEq, Eq, Default)]
pub struct Edges {
    pub left: u32,
    pub top: u32,
    pub right: u32,
    pub bottom: u32,
}

// The edges of a mode, by the bytes of a line, of the mode and of all pixels.
fn edges_of(width: u32, height: u32, pixels: u32) -> Edges
    requires { (1 ≤ width) × (width ≤ 2560) × (4 * width * height ≤ 16384000) × (pixels ≤ 4096000) }
    ensures { result ≡ record { left = 0; top = ceiling (4 * width * height) (4 * width); right = 8 * (4 * width) / 32; bottom = 4 * pixels / (4 * width) } }
{
    let line = 4 * width;
    Edges {
        left: 0,
        top: (4 * width * height + line - 1) / line,
        right: 8 * line / 32,
        bottom: 4 * pixels / line,
    }
}

// The usable offscreen rectangle. It may be empty.
// Rules out: a bottom edge rounded up; a right edge that divides by the depth; four zeros for an empty rectangle.
#[tactic(auto, unfolding(crate::specs::Offscreen::offscreen_of, register_read::specs::Registers::read_only_value))]
pub fn offscreen(d: Device) -> Edges
    ensures { result ≡ offscreen_of d }
{
    if !is_well_formed(d) {
        return Edges::default();
    }
    edges_of(d.registers.width, d.registers.height, d.sizes.pixels)
}
