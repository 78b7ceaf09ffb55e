// Register numbers, as svga_reg.h has them.
#![tactic(auto)]

ghost use Rattle.std.specs.Prelude.{◌≡◌};
ghost use Rattle.register.specs.Numbers.{register_of};

#[derive(Clone, Copy, PartialEq, Eq)]
pub enum Writable {
    Id,
    Enable,
    Width,
    Height,
    ConfigDone,
    Sync,
    GuestId,
    CursorId,
    CursorX,
    CursorY,
    CursorOn,
}

#[derive(Clone, Copy, PartialEq, Eq)]
pub enum ReadOnly {
    MaxWidth,
    MaxHeight,
    Depth,
    BitsPerPixel,
    Pseudocolor,
    RedMask,
    GreenMask,
    BlueMask,
    BytesPerLine,
    FbStart,
    FbOffset,
    VramSize,
    FbSize,
    Capabilities,
    MemStart,
    MemSize,
    Busy,
    HostBitsPerPixel,
}

#[derive(Clone, Copy, PartialEq, Eq)]
pub enum Register {
    Writes(Writable),
    Reads(ReadOnly),
    Absent,
}

impl From<u32> for Register {
    ghost from_gives = { λ index register. register ≡ register_of index };

    // The register with a number.
    // Rules out: 28 taken for absent; a palette register (1024 and on) taken for one that is there.
    #[tactic(auto, using(crate::proofs::Laws::absent), unfolding(crate::specs::Numbers::numbers, crate::specs::Numbers::register_of))]
    fn from(index: u32) -> Register {
        match index {
            0 => Register::Writes(Writable::Id),
            1 => Register::Writes(Writable::Enable),
            2 => Register::Writes(Writable::Width),
            3 => Register::Writes(Writable::Height),
            4 => Register::Reads(ReadOnly::MaxWidth),
            5 => Register::Reads(ReadOnly::MaxHeight),
            6 => Register::Reads(ReadOnly::Depth),
            7 => Register::Reads(ReadOnly::BitsPerPixel),
            8 => Register::Reads(ReadOnly::Pseudocolor),
            9 => Register::Reads(ReadOnly::RedMask),
            10 => Register::Reads(ReadOnly::GreenMask),
            11 => Register::Reads(ReadOnly::BlueMask),
            12 => Register::Reads(ReadOnly::BytesPerLine),
            13 => Register::Reads(ReadOnly::FbStart),
            14 => Register::Reads(ReadOnly::FbOffset),
            15 => Register::Reads(ReadOnly::VramSize),
            16 => Register::Reads(ReadOnly::FbSize),
            17 => Register::Reads(ReadOnly::Capabilities),
            18 => Register::Reads(ReadOnly::MemStart),
            19 => Register::Reads(ReadOnly::MemSize),
            20 => Register::Writes(Writable::ConfigDone),
            21 => Register::Writes(Writable::Sync),
            22 => Register::Reads(ReadOnly::Busy),
            23 => Register::Writes(Writable::GuestId),
            24 => Register::Writes(Writable::CursorId),
            25 => Register::Writes(Writable::CursorX),
            26 => Register::Writes(Writable::CursorY),
            27 => Register::Writes(Writable::CursorOn),
            28 => Register::Reads(ReadOnly::HostBitsPerPixel),
            29..=4294967295 => Register::Absent,
        }
    }
}
