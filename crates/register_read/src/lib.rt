// What registers read.
#![tactic(auto)]

ghost use Rattle.std.specs.Prelude.{◌≡◌, true, Err};
ghost use Rattle.device.specs.Device.{well_formed, width_of, height_of};
ghost use Rattle.register_read.specs.Answers.{reading};
ghost use Rattle.register_read.specs.Registers.{writable_value, read_only_value, read_of};

use device::{Device, MAX_HEIGHT, MAX_WIDTH, Registers, is_well_formed};
use register::{ReadOnly, Register, Writable};

// There is no register with that index.
#[derive(Clone, Copy, PartialEq, Eq)]
pub struct NoRegister;

impl From<NoRegister> for u32 {
    ghost from_gives = { λ e number. number ≡ (reading (Err e)).answer };

    // Rules out: 31, which is a read-only register's.
    fn from(_e: NoRegister) -> u32 {
        30
    }
}

#[tactic(auto, unfolding(crate::specs::Registers::writable_value))]
fn writable_value(g: Registers, w: Writable) -> u32
    ensures { result ≡ writable_value g w }
{
    match w {
        Writable::Id => g.id,
        Writable::Enable => u32::from(g.enable),
        Writable::Width => g.width,
        Writable::Height => g.height,
        Writable::ConfigDone => u32::from(g.config),
        Writable::Sync => 0,
        Writable::GuestId => g.guest,
        Writable::CursorId => g.cursorid,
        Writable::CursorX => g.cursorx,
        Writable::CursorY => g.cursory,
        Writable::CursorOn => g.cursoron,
    }
}

#[tactic(auto, using(device::proofs::Laws::well_formed_lem, device::proofs::Laws::fb_size_fits), unfolding(crate::specs::Registers::read_only_value))]
fn read_only_value(d: Device, r: ReadOnly) -> u32
    requires { well_formed d ≡ true }
    ensures { result ≡ read_only_value d.sizes (width_of d) (height_of d) d.busy r }
{
    let g = d.registers;
    match r {
        ReadOnly::MaxWidth => MAX_WIDTH,
        ReadOnly::MaxHeight => MAX_HEIGHT,
        ReadOnly::Depth => 24,
        ReadOnly::BitsPerPixel => 32,
        ReadOnly::HostBitsPerPixel => 32,
        ReadOnly::Pseudocolor => 0,
        ReadOnly::RedMask => 0xFF0000,
        ReadOnly::GreenMask => 0xFF00,
        ReadOnly::BlueMask => 0xFF,
        ReadOnly::BytesPerLine => 4 * g.width,
        ReadOnly::FbStart => 0,
        ReadOnly::FbOffset => 0,
        ReadOnly::MemStart => 0,
        ReadOnly::VramSize => 4 * d.sizes.pixels,
        ReadOnly::FbSize => 4 * g.width * g.height,
        ReadOnly::Capabilities => 0x12D3,
        ReadOnly::MemSize => d.sizes.memory,
        ReadOnly::Busy => u32::from(d.busy),
    }
}

// What a register reads.
// Rules out: BYTES_PER_LINE of the mode before WIDTH was written; a value for a palette register.
#[tactic(auto, unfolding(crate::specs::Registers::read_of, crate::specs::Registers::read_by))]
pub fn read(d: Device, index: u32) -> Result<u32, NoRegister>
    ensures { reading result ≡ read_of d index }
{
    if !is_well_formed(d) {
        return Err(NoRegister);
    }
    match Register::from(index) {
        Register::Writes(w) => Ok(writable_value(d.registers, w)),
        Register::Reads(r) => Ok(read_only_value(d, r)),
        Register::Absent => Err(NoRegister),
    }
}
