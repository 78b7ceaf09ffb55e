// One pixel: the sixteen raster operations, their masks, and the blend of a cursor pixel.
#![tactic(auto)]

ghost use Rattle.std.specs.Prelude.{◌≡◌, ◌≤◌};
ghost use Rattle.pixel.specs.RasterOperation.{raster_op};
ghost use Rattle.pixel.specs.Blend.{blend_colour, blend_pixel};
ghost use Rattle.pixel.specs.Masks.{Reduces, PixelReduced, Merges, PixelMerged};

// The X protocol's raster operations, by name and number.
pub const CLEAR: u32 = 0;

pub const AND: u32 = 1;

pub const AND_REVERSE: u32 = 2;

pub const COPY: u32 = 3;

pub const AND_INVERTED: u32 = 4;

pub const NOOP: u32 = 5;

pub const XOR: u32 = 6;

pub const OR: u32 = 7;

pub const NOR: u32 = 8;

pub const EQUIV: u32 = 9;

pub const INVERT: u32 = 10;

pub const OR_REVERSE: u32 = 11;

pub const COPY_INVERTED: u32 = 12;

pub const OR_INVERTED: u32 = 13;

pub const NAND: u32 = 14;

pub const SET: u32 = 15;

// An operation on words, s the source and d the destination. A number above 15 is none of them and leaves d: C and the contracts of the
// painters take any (`raster/Laws.fill_no_operation`), so it is a number and no enum.
// Rules out: an operation with s and d exchanged (AND_REVERSE for AND_INVERTED); one that treats 16 as 0.
#[tactic(auto, using(crate::proofs::Named::spelled_out, crate::proofs::Laws::no_operation))]
pub fn raster_op(rop: u32, s: u32, d: u32) -> u32
    ensures { result ≡ raster_op rop s d }
{
    match rop {
        CLEAR => 0,
        AND => s & d,
        AND_REVERSE => s & !d,
        COPY => s,
        AND_INVERTED => !s & d,
        NOOP => d,
        XOR => s ^ d,
        OR => s | d,
        NOR => !(s | d),
        EQUIV => !(s ^ d),
        INVERT => !d,
        OR_REVERSE => s | !d,
        COPY_INVERTED => !s,
        OR_INVERTED => !s | d,
        NAND => !(s & d),
        SET => 0xFFFF_FFFF,
        _ => d,
    }
}

// An operation at one source: of the destination the bits of keep, then those of flip turned over.
#[derive(Clone, Copy, PartialEq, Eq)]
pub struct Reduced {
    pub keep: u32,
    pub flip: u32,
}

impl Reduced {
    // The masks give the operation's result for every destination.
    // Rules out: masks that hold for a destination of 0 alone; keep and flip exchanged.
    #[tactic(auto, using(crate::proofs::ByMasks::reduced))]
    pub fn of(rop: u32, s: u32) -> Reduced
        ensures { Reduces rop s result.keep result.flip }
    {
        let flip = raster_op(rop, s, 0);
        let full = raster_op(rop, s, 0xFFFF_FFFF);
        Reduced {
            keep: full ^ flip,
            flip,
        }
    }

    // With the masks of an operation, its result.
    // Rules out: the flip before the keep; the destination left as it was.
    #[tactic(auto, unfolding(crate::specs::Masks::reduce_pixel))]
    pub fn apply(self, d: u32) -> u32
        ensures { PixelReduced self.keep self.flip d result }
    {
        d & self.keep ^ self.flip
    }
}

// An operation at any source and destination: at each bit it is product·s·d + source·s + dest·d + constant, sums being exclusive-or.
// Each mask is 0 or all ones.
#[derive(Clone, Copy, PartialEq, Eq)]
pub struct Masks {
    pub product: u32,
    pub source: u32,
    pub dest: u32,
    pub constant: u32,
}

impl Masks {
    // The masks give the operation's result for every source and destination.
    // Rules out: masks of the operation with source and destination exchanged; masks of operation rop % 8.
    #[tactic(auto, using(crate::proofs::ByMasks::merged), unfolding(crate::proofs::ByMasks::masks_of))]
    pub fn of(rop: u32) -> Masks
        ensures { Merges rop result }
    {
        let constant = raster_op(rop, 0, 0);
        let source = raster_op(rop, 0xFFFF_FFFF, 0) ^ constant;
        let dest = raster_op(rop, 0, 0xFFFF_FFFF) ^ constant;
        let both = raster_op(rop, 0xFFFF_FFFF, 0xFFFF_FFFF);
        Masks {
            product: both ^ source ^ dest ^ constant,
            source,
            dest,
            constant,
        }
    }

    // With the masks of an operation, its result: four operations for a pixel, with the product or without it.
    // The test is the same for a whole copy, so it leaves the loops.
    // Rules out: the masks of source and destination exchanged; the product left out.
    #[tactic(auto, unfolding(crate::specs::Masks::merge_pixel))]
    pub fn apply(self, s: u32, d: u32) -> u32
        ensures { PixelMerged self s d result }
    {
        if self.product == 0 {
            d & self.dest ^ (s & self.source ^ self.constant)
        } else {
            (s ^ self.dest) & (d ^ self.source) ^ (self.dest & self.source ^ self.constant)
        }
    }
}

// One colour of a cursor pixel with top byte a, over one colour of the pixel below.
fn blend_colour(a: u8, cursor: u8, below: u8) -> u32
    ensures { result ≡ blend_colour a cursor below }
{
    (u32::from(a) * u32::from(cursor) + u32::from(255 - a) * u32::from(below) + 127) / 255
}

// A cursor pixel over a screen pixel.
// Rules out: rounding down (a 128, 1 over 0 gives 1); the screen's top byte kept.
#[tactic(auto, unfolding(crate::specs::Blend::blend_pixel))]
pub fn blend(cursor: u32, below: u32) -> u32
    ensures { result ≡ blend_pixel cursor below }
{
    let [a, red, green, blue] = cursor.to_be_bytes();
    let [_, below_red, below_green, below_blue] = below.to_be_bytes();
    let red = blend_colour(a, red, below_red);
    let green = blend_colour(a, green, below_green);
    let blue = blend_colour(a, blue, below_blue);
    red * 65536 + green * 256 + blue
}
