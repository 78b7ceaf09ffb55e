// The device for C: each call of `svga` exported under its own name. A slice is a pointer and a length.
#![tactic(auto)]

ghost use Rattle.std.specs.Prelude.{◌≡◌};
ghost use Rattle.ring.specs.Append.{append_of};
ghost use Rattle.writer.specs.Writing.{command, write_of};
ghost use Rattle.device_run.specs.Run.{lent};
ghost use Rattle.svga.specs.Calls.{call, svga_make, svga_write, svga_read, run_call, svga_run, svga_picture};
ghost use Rattle.svga.specs.Calls.{edges_call, svga_offscreen, svga_fence, svga_passed};

// A device for a ring memory of memory bytes and pixels pixels.
#[unsafe(no_mangle)]
pub extern "C" fn svga_make(device: &mut [u32], memory: u32, pixels: u32) -> u32
    ensures { call result device.new ≡ svga_make device.old memory pixels }
{
    svga::svga_make(device, memory, pixels)
}

// A register write.
#[unsafe(no_mangle)]
pub extern "C" fn svga_write(device: &mut [u32], ring: &[u32], index: u32, value: u32) -> u32
    ensures { call result device.new ≡ svga_write device.old ring.now index value }
{
    svga::svga_write(device, ring, index, value)
}

// A register read: the answer in the high half, the value in the low.
#[unsafe(no_mangle)]
pub extern "C" fn svga_read(device: &[u32], index: u32) -> u64
    ensures { result ≡ svga_read device.now index }
{
    svga::svga_read(device, index)
}

// A run: the answer in the high half, the commands consumed in the low.
#[unsafe(no_mangle)]
pub extern "C" fn svga_run(
    device: &mut [u32],
    ring: &mut [u32],
    framebuffer: &[u32],
    screen: &mut [u32],
    cursor: &mut [u32],
    budget: u32,
) -> u64
    ensures { run_call result device.new (lent ring.new framebuffer.now screen.new cursor.new)
        ≡ svga_run device.old (lent ring.old framebuffer.now screen.old cursor.old) budget }
{
    svga::svga_run(device, ring, framebuffer, screen, cursor, budget)
}

// A finished picture.
#[unsafe(no_mangle)]
pub extern "C" fn svga_picture(
    device: &[u32],
    screen: &[u32],
    cursor: &[u32],
    output: &mut [u32],
) -> u32
    ensures { record { answer = result; output = output.new }
        ≡ svga_picture device.now screen.now cursor.now output.old }
{
    svga::svga_picture(device, screen, cursor, output)
}

// The usable offscreen rectangle: left, top, right, bottom.
#[unsafe(no_mangle)]
pub extern "C" fn svga_offscreen(device: &[u32], edges: &mut [u32]) -> u32
    ensures { edges_call result edges.new ≡ svga_offscreen device.now edges.old }
{
    svga::svga_offscreen(device, edges)
}

// The last fence executed, in the low half.
#[unsafe(no_mangle)]
pub extern "C" fn svga_fence(device: &[u32]) -> u64
    ensures { result ≡ svga_fence device.now }
{
    svga::svga_fence(device)
}

// Whether a fence has passed: 1 or 0, in the low half.
#[unsafe(no_mangle)]
pub extern "C" fn svga_fence_passed(device: &[u32], fence: u32) -> u64
    ensures { result ≡ svga_passed device.now fence }
{
    svga::svga_fence_passed(device, fence)
}

// What a guest does: one word more at NEXT_CMD. 0 taken, 1 refused.
#[unsafe(no_mangle)]
pub extern "C" fn svga_append(ring: &mut [u32], word: u32) -> u32
    ensures { record { answer = result; ring = ring.new } ≡ append_of ring.old word }
{
    svga::svga_append(ring, word)
}

// A whole command, appended as a guest does, or nothing.
#[unsafe(no_mangle)]
pub extern "C" fn svga_append_command(
    ring: &mut [u32],
    head: &[u32],
    pixels: &[u32],
    bytes: &[u8],
) -> u32
    ensures { record { answer = result; ring = ring.new }
        ≡ write_of ring.old (command head.now pixels.now bytes.now) }
{
    svga::svga_append_command(ring, head, pixels, bytes)
}
