// A device as 64 words: what a host in another language keeps between calls, and lends for each.
#![tactic(auto)]

ghost use Rattle.std.specs.Prelude.{◌≡◌, length, replicate};
ghost use Rattle.device_words.specs.Words.{defined_parts, condition_parts, setting_words, words_of, defined_from, condition_from, device_from, same, spelled_in, put_in};

use adapter::{Condition, Device, Plane, Registers, Sizes};
use cursor::Shape;
use effect::Marks;
use execution::Cause;
use ring::Ring;

// The words of the defined cursor as C has them: 1 and its id, hotspot and size, or all 0.
#[derive(Clone, Copy, Default)]
struct DefinedWords {
    tag: u32,
    shape: Shape,
}

// The words of a condition as C has them: 0 idle, 1 with the remembered ring, or the number of the fault that stands.
#[derive(Clone, Copy, Default)]
struct ConditionWords {
    tag: u32,
    ring: Ring,
}

// ---- from a device to its words

#[tactic(auto, unfolding(crate::specs::Words::defined_parts))]
fn defined_words(defined: Option<Shape>) -> DefinedWords
    ensures { result ≡ defined_parts defined }
{
    match defined {
        None => DefinedWords::default(),
        Some(shape) => DefinedWords { tag: 1, shape },
    }
}

#[tactic(auto, unfolding(crate::specs::Words::condition_parts))]
fn condition_words(condition: Condition) -> ConditionWords
    ensures { result ≡ condition_parts condition }
{
    match condition {
        Condition::Idle => ConditionWords::default(),
        Condition::Running(ring) => ConditionWords { tag: 1, ring },
        Condition::Faulted(cause) => ConditionWords {
            tag: u32::from(cause),
            ..ConditionWords::default()
        },
    }
}

// The words of the sizes, the registers and the cursor plane; the others are 0.
fn settings_of(d: Device) -> [u32; 64]
    ensures { result ≡ setting_words d (replicate 48 0) }
{
    let g = d.registers;
    let plane = d.plane;
    let mut w = [0u32; 64];
    w[0] = d.sizes.memory;
    w[1] = d.sizes.pixels;
    w[2] = g.id;
    w[3] = u32::from(g.enable);
    w[4] = g.width;
    w[5] = g.height;
    w[6] = u32::from(g.config);
    w[7] = g.guest;
    w[8] = g.cursorid;
    w[9] = g.cursorx;
    w[10] = g.cursory;
    w[11] = g.cursoron;
    w[12] = u32::from(plane.shown);
    w[13] = plane.id;
    w[14] = plane.x;
    w[15] = plane.y;
    w
}

#[tactic(auto, unfolding(crate::specs::Words::words_of))]
fn words_of(d: Device) -> [u32; 64]
    ensures { result ≡ words_of d }
{
    let cursor = defined_words(d.marks.defined);
    let shape = cursor.shape;
    let state = condition_words(d.condition);
    let ring = state.ring;
    let mut w = settings_of(d);
    w[16] = cursor.tag;
    w[17] = shape.id;
    w[18] = shape.hotx;
    w[19] = shape.hoty;
    w[20] = shape.w;
    w[21] = shape.h;
    w[22] = d.marks.fence;
    w[23] = u32::from(d.busy);
    w[24] = state.tag;
    w[25] = ring.min;
    w[26] = ring.max;
    w[27] = ring.stop;
    w
}

// ---- from words to a device

#[tactic(auto, unfolding(crate::specs::Words::defined_from))]
fn defined_from(tag: u32, shape: Shape) -> Option<Shape>
    ensures { result ≡ defined_from tag shape }
{
    (tag == 1).then_some(shape)
}

// From C's words. Of a tag that none has nothing is to be said here: `spelled_in` compares the words.
#[tactic(auto, unfolding(crate::specs::Words::condition_from))]
fn condition_from(tag: u32, ring: Ring) -> Condition
    ensures { result ≡ condition_from tag ring }
{
    match tag {
        1 => Condition::Running(ring),
        10 => Condition::Faulted(Cause::NotOffered),
        11 => Condition::Faulted(Cause::BadOperand),
        12 => Condition::Faulted(Cause::TooLong),
        13 => Condition::Faulted(Cause::BadNext),
        _ => Condition::Idle,
    }
}

#[tactic(auto, unfolding(crate::specs::Words::device_from))]
fn device_from(w: &[u32]) -> Device
    requires { length w.now ≡ 64 }
    ensures { result ≡ device_from w.now }
{
    let sizes = Sizes {
        memory: w[0],
        pixels: w[1],
    };
    let registers = Registers {
        id: w[2],
        enable: w[3] == 1,
        width: w[4],
        height: w[5],
        config: w[6] == 1,
        guest: w[7],
        cursorid: w[8],
        cursorx: w[9],
        cursory: w[10],
        cursoron: w[11],
    };
    let plane = Plane {
        shown: w[12] == 1,
        id: w[13],
        x: w[14],
        y: w[15],
    };
    let shape = Shape {
        id: w[17],
        hotx: w[18],
        hoty: w[19],
        w: w[20],
        h: w[21],
    };
    let marks = Marks {
        fence: w[22],
        defined: defined_from(w[16], shape),
    };
    let ring = Ring {
        min: w[25],
        max: w[26],
        stop: w[27],
    };
    Device {
        sizes,
        registers,
        plane,
        marks,
        busy: w[23] == 1,
        condition: condition_from(w[24], ring),
    }
}

// ---- the device in lent words

// Whether the lent words are these. All are looked at: the loop then takes several at a time. With `==` of arrays the calls of C took 1.1
// to 1.3 of their time, with `==` of slices more.
fn are_same(own: &[u32], lent: &[u32]) -> bool
    requires { (length own.now ≡ 64) × (length lent.now ≡ 64) }
    ensures { result ≡ same own.now lent.now }
{
    let mut n = 0;
    for i in 0..64 {
        n += u32::from(own[i] != lent[i]);
    }
    n == 0
}

// The device that the lent words spell. Whether it is well-formed its callers test.
// Rules out: a device in 63 words; a device where a spare word is not 0.
#[tactic(auto, using(crate::proofs::Laws::spelled_if), unfolding(crate::specs::Words::spelled_in))]
pub fn spelled_in(w: &[u32]) -> Option<Device>
    ensures { result ≡ spelled_in w.now }
{
    if w.len() != 64 {
        return None;
    }
    let d = device_from(w);
    // With a return of its own: an `if` for both values chose each field of them by itself.
    if !are_same(&words_of(d), w) {
        return None;
    }
    Some(d)
}

// The device's words into the lent ones.
// Rules out: spare words left as they were; a wrong length written to.
#[tactic(auto, unfolding(crate::specs::Words::put_in))]
pub fn put_in(w: &mut [u32], d: Device)
    ensures { w.new ≡ put_in w.old d }
{
    if w.len() == 64 {
        w.copy_from_slice(&words_of(d));
    }
}
