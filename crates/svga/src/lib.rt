// The device for hosts in Rust and, by `svga_c`, in C. Its state is 64 words that the host keeps and lends for each call, as it lends the
// memories; any words and any lengths may be lent. A length other than 64 is answer 20, and words that hold no device are refused.
#![tactic(auto)]

ghost use Rattle.std.specs.Prelude.{◌≡◌, length};
ghost use Rattle.device_words.specs.Words.{held_in};
ghost use Rattle.ring.specs.Append.{append_of};
ghost use Rattle.writer.specs.Writing.{command, write_of};
ghost use Rattle.device_run.specs.Run.{lent, ran_of, run_of};
ghost use Rattle.svga.specs.Calls.{packed, call, svga_make, svga_write, svga_read, run_call, svga_run, svga_picture};
ghost use Rattle.svga.specs.Calls.{edges_call, edge_words, svga_offscreen, svga_fence, svga_passed};

use adapter::{Device, Edges, Memories, Ran, RunError};

// Answer numbers of these calls' own, as C has them: a lent length, and words that hold no device.
const LENT_LENGTH: u32 = 20;

const NOT_CONFIGURED: u32 = 22;

const TOO_LARGE: u32 = 24;

const NO_REGISTER: u32 = 30;

// For C one number has both.
fn pack(answer: u32, value: u32) -> u64
    ensures { result ≡ packed answer value }
{
    answer as u64 * 4294967296 + value as u64
}

// The well-formed device that the words hold. The calls that test it themselves go by `device_words::spelled_in`.
// Inlined, since a device is returned by way of memory: a call for it took as long as the rest.
#[inline(always)]
#[tactic(auto, unfolding(device_words::specs::Words::held_in))]
fn held(device: &[u32]) -> Option<Device>
    ensures { result ≡ held_in device.now }
{
    let d = device_words::spelled_in(device)?;
    if !adapter::is_well_formed(d) {
        return None;
    }
    Some(d)
}

// A device for a ring memory of memory bytes and pixels pixels.
// Rules out: words written where M or P is refused; a device of 63 words.
#[tactic(auto, unfolding(crate::specs::Calls::svga_make))]
pub fn svga_make(device: &mut [u32], memory: u32, pixels: u32) -> u32
    ensures { call result device.new ≡ svga_make device.old memory pixels }
{
    if device.len() != 64 {
        return LENT_LENGTH;
    }
    match adapter::make(memory, pixels) {
        Ok(d) => {
            device_words::put_in(device, d);
            0
        }
        Err(e) => u32::from(e),
    }
}

// A register write.
// Rules out: a refused write that changes a word; 20 for a ring that CONFIG_DONE 1 does not look at.
#[tactic(auto, unfolding(crate::specs::Calls::svga_write))]
pub fn svga_write(device: &mut [u32], ring: &[u32], index: u32, value: u32) -> u32
    ensures { call result device.new ≡ svga_write device.old ring.now index value }
{
    if device.len() != 64 {
        return LENT_LENGTH;
    }
    let Some(d) = device_words::spelled_in(device) else {
        return NO_REGISTER;
    };
    match adapter::write(d, ring, index, value) {
        Ok(written) => {
            device_words::put_in(device, written);
            0
        }
        Err(e) => u32::from(e),
    }
}

// A register read: the answer in the high half, the value in the low.
// Rules out: a value for words that hold no device; answer and value exchanged.
#[tactic(auto, unfolding(crate::specs::Calls::svga_read))]
pub fn svga_read(device: &[u32], index: u32) -> u64
    ensures { result ≡ svga_read device.now index }
{
    if device.len() != 64 {
        return pack(LENT_LENGTH, 0);
    }
    let Some(d) = device_words::spelled_in(device) else {
        return pack(NO_REGISTER, 0);
    };
    match adapter::read(d, index) {
        Ok(value) => pack(0, value),
        Err(e) => pack(u32::from(e), 0),
    }
}

// A run on memories that are lent one by one, as C lends them.
fn run_lent(
    d: Device,
    ring: &mut [u32],
    framebuffer: &[u32],
    screen: &mut [u32],
    cursor: &mut [u32],
    budget: u32,
) -> Result<Ran, RunError>
    ensures { ran_of d result (lent ring.new framebuffer.now screen.new cursor.new)
        ≡ run_of d (lent ring.old framebuffer.now screen.old cursor.old) budget }
{
    let mut memories = Memories {
        ring,
        framebuffer,
        screen,
        cursor,
    };
    adapter::run(d, &mut memories, budget)
}

// A run: the answer in the high half, the commands consumed in the low.
// Rules out: a run whose device is not written back; a count in the high half.
#[tactic(auto, unfolding(crate::specs::Calls::svga_run))]
pub fn svga_run(
    device: &mut [u32],
    ring: &mut [u32],
    framebuffer: &[u32],
    screen: &mut [u32],
    cursor: &mut [u32],
    budget: u32,
) -> u64
    ensures { run_call result device.new (lent ring.new framebuffer.now screen.new cursor.new)
        ≡ svga_run device.old (lent ring.old framebuffer.now screen.old cursor.old) budget }
{
    if device.len() != 64 {
        return pack(LENT_LENGTH, 0);
    }
    let Some(d) = device_words::spelled_in(device) else {
        return pack(NOT_CONFIGURED, 0);
    };
    match run_lent(d, ring, framebuffer, screen, cursor, budget) {
        Ok(ran) => {
            device_words::put_in(device, ran.device);
            pack(adapter::run_number(ran.end), ran.count)
        }
        Err(e) => pack(u32::from(e), 0),
    }
}

// A finished picture.
// Rules out: an output written by a refused call; 20 for words that hold no device.
#[tactic(auto, unfolding(crate::specs::Calls::svga_picture))]
pub fn svga_picture(device: &[u32], screen: &[u32], cursor: &[u32], output: &mut [u32]) -> u32
    ensures { record { answer = result; output = output.new }
        ≡ svga_picture device.now screen.now cursor.now output.old }
{
    if device.len() != 64 {
        return LENT_LENGTH;
    }
    let Some(d) = device_words::spelled_in(device) else {
        return TOO_LARGE;
    };
    match adapter::picture(d, screen, cursor, output) {
        Ok(()) => 0,
        Err(e) => u32::from(e),
    }
}

fn put_edges(edges: &mut [u32], e: Edges)
    requires { length edges.old ≡ 4 }
    ensures { edges.new ≡ edge_words e }
{
    edges.copy_from_slice(&[e.left, e.top, e.right, e.bottom]);
}

// The usable offscreen rectangle: left, top, right, bottom.
// Rules out: width and height in place of right and bottom; four zeros and answer 0 for words that hold no device.
#[tactic(auto, unfolding(crate::specs::Calls::svga_offscreen, crate::specs::Calls::edges_held))]
pub fn svga_offscreen(device: &[u32], edges: &mut [u32]) -> u32
    ensures { edges_call result edges.new ≡ svga_offscreen device.now edges.old }
{
    if device.len() != 64 || edges.len() != 4 {
        return LENT_LENGTH;
    }
    match held(device) {
        Some(d) => {
            put_edges(edges, adapter::offscreen(d));
            0
        }
        None => NO_REGISTER,
    }
}

// The last fence executed, in the low half.
// Rules out: a fence of words that hold no device; 0 always.
#[tactic(auto, unfolding(crate::specs::Calls::svga_fence, crate::specs::Calls::fence_held))]
pub fn svga_fence(device: &[u32]) -> u64
    ensures { result ≡ svga_fence device.now }
{
    if device.len() != 64 {
        return pack(LENT_LENGTH, 0);
    }
    match held(device) {
        Some(d) => pack(0, adapter::fence(d)),
        None => pack(NO_REGISTER, 0),
    }
}

// Whether a fence has passed: 1 or 0, in the low half.
// Rules out: fence 2 passed when the last is 1; a refusal that reads as passed.
#[tactic(auto, unfolding(crate::specs::Calls::svga_passed, crate::specs::Calls::passed_held))]
pub fn svga_fence_passed(device: &[u32], fence: u32) -> u64
    ensures { result ≡ svga_passed device.now fence }
{
    if device.len() != 64 {
        return pack(LENT_LENGTH, 0);
    }
    match held(device) {
        Some(d) => pack(0, u32::from(adapter::fence_passed(d, fence))),
        None => pack(NO_REGISTER, 0),
    }
}

// What a guest does: one word more at NEXT_CMD. 0 taken, 1 refused.
// Rules out: a word taken by a full ring; NEXT_CMD moved by a refused append.
pub fn svga_append(ring: &mut [u32], word: u32) -> u32
    ensures { record { answer = result; ring = ring.new } ≡ append_of ring.old word }
{
    match ring::append(ring, word) {
        Ok(()) => 0,
        Err(e) => u32::from(e),
    }
}

// A whole command, appended as a guest does, or nothing: its number and arguments, its pixels, its data.
// Rules out: a part of a command appended; NEXT_CMD moved by a command that is refused; pixels taken for data.
pub fn svga_append_command(ring: &mut [u32], head: &[u32], pixels: &[u32], bytes: &[u8]) -> u32
    ensures { record { answer = result; ring = ring.new }
        ≡ write_of ring.old (command head.now pixels.now bytes.now) }
{
    match writer::write(ring, head, pixels, bytes) {
        Ok(()) => 0,
        Err(e) => u32::from(e),
    }
}
