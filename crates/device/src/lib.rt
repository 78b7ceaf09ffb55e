// The device: its parts, the test of a well-formed one, making.
#![tactic(auto)]

ghost use Rattle.std.specs.Prelude.{◌≡◌, Err};
ghost use Rattle.device.specs.Device.{frame_of, sizes_good, mode_good, condition_good, defined_good, well_formed, mode_fits, condition_of};
ghost use Rattle.device.specs.Making.{creation, made_of};

use cursor::Shape;
use effect::Marks;
use execution::Cause;
use geometry::Frame;
use ring::Ring;

// M is from MIN_MEMORY to MAX_MEMORY bytes, P at most MAX_PIXELS.
pub const MIN_MEMORY: u32 = 10256;

pub const MAX_MEMORY: u32 = 2097152;

pub const MAX_PIXELS: u32 = 4096000;

// The largest mode.
pub use raster::MAX_WIDTH;

pub const MAX_HEIGHT: u32 = 1600;

// M, the bytes of the ring memory, and P, the pixels of framebuffer and screen.
#[derive(Clone, Copy, PartialEq, Eq)]
pub struct Sizes {
    pub memory: u32,
    pub pixels: u32,
}

// The writable registers' values last taken. The mode is width by height.
#[derive(Clone, Copy, PartialEq, Eq)]
pub struct Registers {
    pub id: u32,
    pub enable: bool,
    pub width: u32,
    pub height: u32,
    pub config: bool,
    pub guest: u32,
    pub cursorid: u32,
    pub cursorx: u32,
    pub cursory: u32,
    pub cursoron: u32,
}

// The cursor plane: whether it is shown, and what CURSOR_ON 1 remembered. That stays while it is hidden (`plane_on`), so `shown` is no Option's.
#[derive(Clone, Copy, PartialEq, Eq)]
pub struct Plane {
    pub shown: bool,
    pub id: u32,
    pub x: u32,
    pub y: u32,
}

#[derive(Clone, Copy, PartialEq, Eq)]
pub enum Condition {
    Idle,
    Running(Ring),
    Faulted(Cause),
}

#[derive(Clone, Copy, PartialEq, Eq)]
pub struct Device {
    pub sizes: Sizes,
    pub registers: Registers,
    pub plane: Plane,
    pub marks: Marks,
    pub busy: bool,
    pub condition: Condition,
}

// Why making is refused: M or P is outside its limits.
#[derive(Clone, Copy, PartialEq, Eq)]
pub struct BadSizes;

impl From<BadSizes> for u32 {
    ghost from_gives = { λ e number. number ≡ (creation (Err e)).answer };

    // Rules out: 20, which is a lent length's.
    fn from(_e: BadSizes) -> u32 {
        34
    }
}

// ---- well-formed devices

#[tactic(auto, unfolding(crate::specs::Device::sizes_good))]
fn sizes_good(sizes: Sizes) -> bool
    ensures { result ≡ sizes_good sizes.memory sizes.pixels }
{
    let Sizes { memory, pixels } = sizes;
    memory % 4 == 0
        && MIN_MEMORY <= memory
        && memory <= MAX_MEMORY
        && 1 <= pixels
        && pixels <= MAX_PIXELS
}

#[tactic(auto, unfolding(crate::specs::Device::mode_good))]
fn mode_good(width: u32, height: u32) -> bool
    ensures { result ≡ mode_good width height }
{
    1 <= width && width <= MAX_WIDTH && 1 <= height && height <= MAX_HEIGHT
}

#[tactic(auto, unfolding(crate::specs::Device::condition_good))]
fn condition_good(memory: u32, config: bool, condition: Condition) -> bool
    ensures { result ≡ condition_good memory config condition }
{
    match condition {
        Condition::Idle => !config,
        Condition::Running(ring) => config && ring::is_placed(ring, (memory / 4) as usize),
        Condition::Faulted(_) => true,
    }
}

#[tactic(auto, unfolding(crate::specs::Device::defined_good))]
fn defined_good(defined: Option<Shape>) -> bool
    ensures { result ≡ defined_good defined }
{
    match defined {
        None => true,
        Some(shape) => cursor::shape_good(shape),
    }
}

// Whether a device has what every call keeps: sizes, mode, ring, condition and cursor in their ranges and agreeing.
// Rules out: a device with CONFIG_DONE 1 and no ring; a mode of 2,561 pixels to a row.
#[tactic(auto, unfolding(crate::specs::Device::well_formed))]
pub fn is_well_formed(d: Device) -> bool
    ensures { result ≡ well_formed d }
{
    sizes_good(d.sizes)
        && mode_good(d.registers.width, d.registers.height)
        && condition_good(d.sizes.memory, d.registers.config, d.condition)
        && defined_good(d.marks.defined)
}

// ---- making, asking

// A fresh device for a ring memory of memory bytes and pixels pixels.
// Rules out: a device for a memory of 10,252 bytes; a fresh device that is enabled.
#[tactic(auto, unfolding(crate::specs::Making::made_of))]
pub fn make(memory: u32, pixels: u32) -> Result<Device, BadSizes>
    ensures { creation result ≡ made_of memory pixels }
{
    let sizes = Sizes { memory, pixels };
    if !sizes_good(sizes) {
        return Err(BadSizes);
    }
    Ok(Device {
        sizes,
        registers: Registers {
            id: 0x90000000,
            enable: false,
            width: 640,
            height: 480,
            config: false,
            guest: 0,
            cursorid: 0,
            cursorx: 0,
            cursory: 0,
            cursoron: 0,
        },
        plane: Plane {
            shown: false,
            id: 0,
            x: 0,
            y: 0,
        },
        marks: Marks {
            fence: 0,
            defined: None,
        },
        busy: false,
        condition: Condition::Idle,
    })
}

// Whether the mode's pixels are at most P.
// Rules out: a mode of 65,536 by 65,536 that fits since its product wraps; a mode of exactly P pixels that does not.
pub fn mode_fits(d: Device) -> bool
    ensures { result ≡ mode_fits d }
{
    d.registers.width as u64 * d.registers.height as u64 <= d.sizes.pixels as u64
}

// What commands reach of the screen: the mode, and behind it the rows that still lie whole in P pixels.
// Rules out: a row that lies in P pixels in part only; the mode's height for all rows.
pub fn frame_of(d: Device) -> Frame
    ensures { result ≡ frame_of d }
{
    let width = d.registers.width;
    Frame {
        width,
        height: d.registers.height,
        rows: d.sizes.pixels.checked_div(width).unwrap_or(0),
    }
}

// The condition: idle, running with the remembered ring, or the fault that stands.
// Rules out: a fault that is told as idle; a ring that is not the remembered one.
pub fn condition_of(d: Device) -> Condition
    ensures { result ≡ condition_of d }
{
    d.condition
}
