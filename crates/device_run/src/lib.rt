// A run of a device: its refusals, and what it leaves.
#![tactic(auto)]

ghost use Rattle.std.specs.Prelude.{◌≡◌, true, Ok};
ghost use Rattle.run.specs.Run.{answer_of};
ghost use Rattle.device.specs.declared.Condition.TheVariants.{Running};
ghost use Rattle.device.specs.Device.{mode_fits, well_formed};
ghost use Rattle.device_run.specs.Run.{run_number, run_error_number, lent, contents, SameMemories, ran_of, lent_good, ready};
ghost use Rattle.device_run.specs.Run.{condition_after, busy_after, run_by, run_of};
ghost use Rattle.device_run.specs.Settling.{Settles};

use cursor::IMAGE_WORDS;
use device::{Condition, Device, is_well_formed, mode_fits};
use execution::End;
use ring::Ring;
use run::RingRun;

// What is lent for a run: the ring memory, the framebuffer, the screen and the cursor image.
#[derive(Drop)]
pub struct Memories<'a> {
    pub ring: &'a mut [u32],
    pub framebuffer: &'a [u32],
    pub screen: &'a mut [u32],
    pub cursor: &'a mut [u32],
}

// How a run ended, none where its budget was spent first; the commands that it consumed, and the device then.
#[derive(Clone, Copy, PartialEq, Eq)]
pub struct Ran {
    pub end: Option<End>,
    pub count: u32,
    pub device: Device,
}

// Why a run is refused: nothing is done.
#[derive(Clone, Copy, PartialEq, Eq)]
pub enum RunError {
    WrongLength,
    Disabled,
    NotConfigured,
    FaultStands,
    TooLarge,
}

// ---- answer numbers

// The number of how a run ended. An Option is std's, so this is no `From`.
// Rules out: 1 for a spent budget; 23 for a fault that this run met.
pub fn run_number(end: Option<End>) -> u32
    ensures { result ≡ run_number end }
{
    match end {
        None => 2,
        Some(end) => u32::from(end),
    }
}

impl From<RunError> for u32 {
    ghost from_gives = { λ e number. number ≡ run_error_number e };

    // Rules out: 21 and 22 exchanged; 13 for a fault that stands.
    fn from(e: RunError) -> u32 {
        match e {
            RunError::WrongLength => 20,
            RunError::Disabled => 21,
            RunError::NotConfigured => 22,
            RunError::FaultStands => 23,
            RunError::TooLarge => 24,
        }
    }
}

// ---- run

#[tactic(auto, unfolding(crate::specs::Run::lent_good))]
fn lent_good(d: Device, ring: &[u32], framebuffer: &[u32], screen: &[u32], cursor: &[u32]) -> bool
    ensures { result ≡ lent_good d (lent ring.now framebuffer.now screen.now cursor.now) }
{
    let pixels = d.sizes.pixels as usize;
    ring.len() == (d.sizes.memory / 4) as usize
        && framebuffer.len() == pixels
        && screen.len() == pixels
        && cursor.len() == IMAGE_WORDS
}

// Of memories that travel together: behind a shared reference their fields can be lent.
fn memories_good(d: Device, memories: &Memories<'_>) -> bool
    ensures { result ≡ lent_good d (contents memories.now) }
{
    lent_good(
        d,
        memories.ring,
        memories.framebuffer,
        memories.screen,
        memories.cursor,
    )
}

// A fault stands, or the ring is remembered with STOP as the run left it.
#[tactic(auto, unfolding(crate::specs::Run::condition_after))]
fn condition_after(end: Option<End>, ring: Ring) -> Condition
    ensures { result ≡ condition_after (answer_of end) ring }
{
    match end {
        Some(End::Fault(cause)) => Condition::Faulted(cause),
        Some(End::Drained | End::Waiting) | None => Condition::Running(ring),
    }
}

#[tactic(auto, unfolding(crate::specs::Run::busy_after))]
fn busy_after(end: Option<End>, busy: bool) -> bool
    ensures { result ≡ busy_after (answer_of end) busy }
{
    end.is_none() && busy
}

// The device after a run.
fn settle(d: Device, left: RingRun) -> Ran
    ensures { Settles d left result }
{
    Ran {
        end: left.end,
        count: left.count,
        device: Device {
            marks: left.marks,
            busy: busy_after(left.end, d.busy),
            condition: condition_after(left.end, left.ring),
            ..d
        },
    }
}

// A run of a device that has a ring and is not refused. Its pixels in the mode or offscreen are those of its rows.
fn run_ring(d: Device, at: Ring, memories: &mut Memories<'_>, budget: u32) -> Ran
    requires good { well_formed d ≡ true }
    requires fits { mode_fits d ≡ true }
    ensures ran { ran_of d (Ok result) (contents memories.new) ≡ run_by d (contents memories.old) budget (Running at) }
    ensures same { SameMemories memories.new memories.old }
{
    let left = run::run(
        at,
        d.marks,
        budget,
        memories.ring,
        memories.framebuffer,
        memories.screen,
        memories.cursor,
        device::frame_of(d),
    );
    settle(d, left)
}

// Commands out of the ring, at most budget of them. A run that is refused changes nothing.
// Rules out: a run that refuses everything; "drained, 0" to everything; 21 before 22; a fault that clears nothing of BUSY.
#[tactic(auto, unfolding(crate::specs::Run::run_of))]
pub fn run(d: Device, memories: &mut Memories<'_>, budget: u32) -> Result<Ran, RunError>
    ensures ran { ran_of d result (contents memories.new) ≡ run_of d (contents memories.old) budget }
    ensures same { SameMemories memories.new memories.old }
{
    if !is_well_formed(d) {
        return Err(RunError::NotConfigured);
    }
    if !memories_good(d, memories) {
        return Err(RunError::WrongLength);
    }
    if !d.registers.config {
        return Err(RunError::NotConfigured);
    }
    if !d.registers.enable {
        return Err(RunError::Disabled);
    }
    if !mode_fits(d) {
        return Err(RunError::TooLarge);
    }
    match d.condition {
        Condition::Idle => Err(RunError::NotConfigured),
        Condition::Running(at) => Ok(run_ring(d, at, memories, budget)),
        Condition::Faulted(_) => Err(RunError::FaultStands),
    }
}

// Whether a run with these lent memories is refused with neither 20, 21, 22 nor 24. It only reads, so they come one by one: `Memories` would ask callers for `&mut`, and so for more.
// Rules out: a disabled device that is ready; a device whose mode is larger than the screen.
#[tactic(auto, unfolding(crate::specs::Run::ready))]
pub fn is_ready(
    d: Device,
    ring: &[u32],
    framebuffer: &[u32],
    screen: &[u32],
    cursor: &[u32],
) -> bool
    ensures { result ≡ ready d (lent ring.now framebuffer.now screen.now cursor.now) }
{
    is_well_formed(d)
        && lent_good(d, ring, framebuffer, screen, cursor)
        && d.registers.config
        && d.registers.enable
        && mode_fits(d)
}
