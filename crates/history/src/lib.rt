// Lists of appends and runs through the public calls, with demand 3 as the contract.
#![tactic(auto)]

ghost use Rattle.std.specs.Prelude.{◌≡◌};
ghost use Rattle.device.specs.declared.Condition.TheVariants.{Running};
ghost use Rattle.device_run.specs.Run.{lent, contents, SameMemories};
ghost use Rattle.history.specs.Demand.{ring_at_start, is_start};
ghost use Rattle.history.specs.Replay.{world, walk, walk_of, ReplayResult};
ghost use Rattle.history.specs.Pairs.{performed, pair_of};

use adapter::{Condition, Device, Memories};
use ring::Ring;

// Whether the ring words say what is remembered, with nothing waiting.
#[tactic(auto, using(ring::proofs::Laws::usable_when), unfolding(crate::specs::Demand::ring_at_start))]
fn ring_at_start(ring: &[u32], g: Ring) -> bool
    ensures { result ≡ ring_at_start ring.now (Running g) }
{
    let &[min, max, next, stop, ..] = ring else {
        return false;
    };
    ring::is_usable(ring)
        && min / 4 == g.min
        && max / 4 == g.max
        && stop / 4 == g.stop
        && next == stop
}

#[tactic(auto, unfolding(crate::specs::Demand::ring_at_start))]
fn condition_at_start(ring: &[u32], condition: Condition) -> bool
    ensures { result ≡ ring_at_start ring.now condition }
{
    match condition {
        Condition::Running(g) => ring_at_start(ring, g),
        Condition::Idle | Condition::Faulted(_) => false,
    }
}

// Whether a device and its memories are a start of demand 3. It only reads, so the memories come one by one, as in `device_run::is_ready`.
// Rules out: a start with a word waiting; a start with a fault that stands.
#[tactic(auto, using(crate::proofs::StartTest::start_parts))]
pub fn is_start(
    d: Device,
    ring: &[u32],
    framebuffer: &[u32],
    screen: &[u32],
    cursor: &[u32],
) -> bool
    ensures { result ≡ is_start (world d (lent ring.now framebuffer.now screen.now cursor.now)) }
{
    adapter::is_ready(d, ring, framebuffer, screen, cursor)
        && condition_at_start(ring, adapter::condition_of(d))
}

fn can_start(d: Device, memories: &Memories<'_>) -> bool
    ensures { result ≡ is_start (world d (contents memories.now)) }
{
    is_start(
        d,
        memories.ring,
        memories.framebuffer,
        memories.screen,
        memories.cursor,
    )
}

// The two numbers that replace a pair in the list, and the device then.
#[derive(Clone, Copy)]
struct Performed {
    answer: u32,
    count: u32,
    device: Device,
}

// The kind is a number and no enum, since it is a word of the lent list, in which every number stands for an operation.
#[tactic(auto, unfolding(crate::specs::Pairs::pair_of, crate::specs::Replay::op_of, crate::specs::Calls::perform))]
fn perform_pair(kind: u32, operand: u32, d: Device, memories: &mut Memories<'_>) -> Performed
    ensures performed { performed result (contents memories.new) ≡ pair_of kind operand (world d (contents memories.old)) }
    ensures same { SameMemories memories.new memories.old }
{
    if kind == 0 {
        let answer = match ring::append(memories.ring, operand) {
            Ok(()) => 0,
            Err(refused) => u32::from(refused),
        };
        return Performed {
            answer,
            count: 0,
            device: d,
        };
    }
    match adapter::run(d, memories, operand) {
        Ok(ran) => Performed {
            answer: adapter::run_number(ran.end),
            count: ran.count,
            device: ran.device,
        },
        Err(refused) => Performed {
            answer: u32::from(refused),
            count: 0,
            device: d,
        },
    }
}

// Every pair of the list is performed and replaced by its number and count. By their places: of what chunks_exact_mut lends a proof knows the length alone.
fn walk(list: &mut [u32], device: Device, memories: &mut Memories<'_>) -> Device
    ensures walked { walk list.new (world result (contents memories.new)) ≡ walk_of list.old (world device (contents memories.old)) }
    ensures same { SameMemories memories.new memories.old }
{
    let mut d = device;
    for i in 0..list.len() / 2 {
        let p = perform_pair(list[2 * i], list[2 * i + 1], d, memories);
        list[2 * i] = p.answer;
        list[2 * i + 1] = p.count;
        d = p.device;
    }
    d
}

// A list of pairs of words, kind and operand, from a start of demand 3: kind 0 appends the operand, every other runs with that budget. Each pair is
// replaced by the number that its call answered and its count, an append's 0; a last word without a partner stays. The answer is the device then, or none
// where the list was not begun.
// Rules out: a run that counts without executing; a list whose answers are those of another order of work.
pub fn replay(list: &mut [u32], device: Device, memories: &mut Memories<'_>) -> Option<Device>
    ensures replayed { ReplayResult (world device (contents memories.old)) list.old result list.new (contents memories.new) }
    ensures same { SameMemories memories.new memories.old }
{
    if !can_start(device, memories) {
        return None;
    }
    Some(walk(list, device, memories))
}
