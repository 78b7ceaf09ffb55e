// The device: making, registers, run, picture, offscreen rectangle, fences.
#![tactic(auto)]

ghost use Rattle.std.specs.Prelude.{◌≡◌, Err};
ghost use Rattle.device.specs.Device.{defined_of};
ghost use Rattle.adapter.specs.Picture.{picture_number, pictured, cursor_over, lengths_good, picture_of};
ghost use Rattle.adapter.specs.Fence.{fence_of, fence_passed};

use cursor::IMAGE_WORDS;
use picture::VisibleCursor;

// The types and calls of the crates below: callers name this crate alone.
pub use device::{
    BadSizes, Condition, Device, Plane, Registers, Sizes, condition_of, is_well_formed, make,
    mode_fits,
};
pub use device_run::{Memories, Ran, RunError, is_ready, run, run_number};
pub use offscreen::{Edges, offscreen};
pub use register_read::{NoRegister, read};
pub use register_write::{WriteError, write};

// Why a picture is refused.
#[derive(Clone, Copy, PartialEq, Eq)]
pub enum PictureError {
    WrongLength,
    TooLarge,
}

impl From<PictureError> for u32 {
    ghost from_gives = { λ e number. number ≡ picture_number (Err e) };

    // Rules out: 20 and 24 exchanged; 0 for a picture that is refused.
    fn from(e: PictureError) -> u32 {
        match e {
            PictureError::WrongLength => 20,
            PictureError::TooLarge => 24,
        }
    }
}

// ---- picture

// The cursor that appears in a picture: shown, and its remembered id is that of the defined cursor.
#[tactic(auto, unfolding(crate::specs::Picture::cursor_over))]
fn cursor_over(d: Device) -> Option<VisibleCursor>
    ensures { result ≡ cursor_over d (defined_of d) }
{
    let shape = d.marks.defined?;
    if !d.plane.shown || d.plane.id != shape.id {
        return None;
    }
    Some(VisibleCursor {
        shape,
        x: d.plane.x,
        y: d.plane.y,
    })
}

#[tactic(auto, unfolding(crate::specs::Picture::lengths_good))]
fn lengths_good(pixels: usize, screen: usize, image: usize, output: usize) -> bool
    ensures { result ≡ lengths_good pixels screen image output }
{
    screen == pixels && image == IMAGE_WORDS && output == pixels
}

// The mode's pixels in the output, with the cursor over them. A picture that is refused leaves the output as it was.
// Rules out: the bare screen always; a cursor at the registers' X and Y of now; output beyond the mode changed.
#[tactic(auto, unfolding(crate::specs::Picture::picture_of))]
pub fn picture(
    d: Device,
    screen: &[u32],
    image: &[u32],
    output: &mut [u32],
) -> Result<(), PictureError>
    ensures { pictured result output.new ≡ picture_of d screen.now image.now output.old }
{
    if !is_well_formed(d) {
        return Err(PictureError::TooLarge);
    }
    let pixels = d.sizes.pixels as usize;
    if !lengths_good(pixels, screen.len(), image.len(), output.len()) {
        return Err(PictureError::WrongLength);
    }
    if !mode_fits(d) {
        return Err(PictureError::TooLarge);
    }
    let mode = device::frame_of(d).mode();
    picture::compose(screen, image, output, mode, cursor_over(d));
    Ok(())
}

// ---- fences

// The last fence number executed; 0 at first.
// Rules out: 0 always; the fence that was asked about last.
pub fn fence(d: Device) -> u32
    ensures { result ≡ fence_of d }
{
    d.marks.fence
}

// Whether a fence has passed: numbers wrap, and half of them lie behind the last.
// Rules out: a comparison that does not wrap (last 1 has passed 4294967295); a fence 2^31 ahead counted as passed.
pub fn fence_passed(d: Device, number: u32) -> bool
    ensures { result ≡ fence_passed (fence_of d) number }
{
    d.marks.fence.wrapping_sub(number) < 0x8000_0000
}
