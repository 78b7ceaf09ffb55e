// The command ring's words 0 to 3, MIN, MAX, NEXT_CMD and STOP: when they are accepted, what is then remembered, and the guest's append.
#![tactic(auto)]

ghost use Rattle.std.specs.Prelude.{◌≡◌, ◌+◌, ◌≤◌, Err};
ghost use Rattle.ring.specs.Acceptance.{offset_usable, bounds_usable, usable, accepted};
ghost use Rattle.ring.specs.Waiting.{placed, next_good};
ghost use Rattle.ring.specs.Append.{moved_on, append_number, appended, append_of};

// The largest ring memory, in words.
pub const MAX_WORDS: u32 = 524288;

// The least size of a ring, in bytes and in words.
pub const LEAST_BYTES: u64 = 10240;

pub const LEAST_WORDS: u64 = 2560;

// The remembered ring, in words of the ring memory: from min to below max, the next command at stop.
#[derive(Clone, Copy, PartialEq, Eq, Default)]
pub struct Ring {
    pub min: u32,
    pub max: u32,
    pub stop: u32,
}

// Why an append is refused: the ring is full, or its words are not usable.
#[derive(Clone, Copy, PartialEq, Eq)]
pub struct AppendRefused;

impl From<AppendRefused> for u32 {
    ghost from_gives = { λ e number. number ≡ append_number (Err e) };

    // Rules out: 0, which is a taken append's; 33, which is a register write's.
    fn from(_e: AppendRefused) -> u32 {
        1
    }
}

// MIN, MAX and offsets in bytes here and below, as the ring words have them: a `Ring` counts in words.
#[tactic(auto, unfolding(crate::specs::Acceptance::offset_usable))]
fn offset_usable(min: u32, max: u32, offset: u32) -> bool
    ensures { result ≡ offset_usable min max offset }
{
    offset % 4 == 0 && (min..max).contains(&offset)
}

#[tactic(auto, unfolding(crate::specs::Acceptance::bounds_usable))]
fn bounds_usable(words: usize, min: u32, max: u32) -> bool
    ensures { result ≡ bounds_usable words min max }
{
    min % 4 == 0
        && max % 4 == 0
        && 16 <= min
        && (max / 4) as usize <= words
        && min as u64 + LEAST_BYTES <= max as u64
}

// Whether ring words 0 to 3 describe a ring in this memory.
// Rules out: a ring of 10,236 bytes; a NEXT_CMD or STOP equal to MAX.
#[tactic(auto, unfolding(crate::specs::Acceptance::usable))]
pub fn is_usable(ring: &[u32]) -> bool
    ensures { result ≡ usable ring.now }
{
    let &[min, max, next, stop, ..] = ring else {
        return false;
    };
    bounds_usable(ring.len(), min, max)
        && offset_usable(min, max, next)
        && offset_usable(min, max, stop)
}

// What CONFIG_DONE 1 remembers of the ring words, or none where they are refused.
// Rules out: NEXT_CMD remembered for STOP; a refused ring remembered in part.
#[tactic(auto, using(crate::proofs::Laws::usable_when), unfolding(crate::specs::Acceptance::accepted))]
pub fn accept(ring: &[u32]) -> Option<Ring>
    ensures { result ≡ accepted ring.now }
{
    match ring {
        &[min, max, _, stop, ..] if is_usable(ring) => Some(Ring {
            min: min / 4,
            max: max / 4,
            stop: stop / 4,
        }),
        _ => None,
    }
}

// Whether a remembered ring lies in a memory of so many words as acceptance asks.
// Rules out: a STOP equal to MAX; a ring over words 0 to 3; a ring of 2,559 words.
#[tactic(auto, unfolding(crate::specs::Waiting::placed))]
pub fn is_placed(g: Ring, words: usize) -> bool
    ensures { result ≡ placed g words }
{
    4 <= g.min
        && g.max as usize <= words
        && g.min as u64 + LEAST_WORDS <= g.max as u64
        && g.min <= g.stop
        && g.stop < g.max
}

// Whether a run can go by NEXT_CMD: a multiple of 4 inside the remembered ring.
// Rules out: a NEXT_CMD equal to MAX; one that is no multiple of 4.
#[tactic(auto, unfolding(crate::specs::Waiting::next_good))]
pub fn next_good(g: Ring, next: u32) -> bool
    ensures { result ≡ next_good g next }
{
    next % 4 == 0 && g.min <= next / 4 && next / 4 < g.max
}

#[tactic(auto, unfolding(crate::specs::Append::moved_on))]
fn moved_on(min: u32, max: u32, offset: u32) -> u32
    requires { offset + 4 ≤ max }
    ensures { result ≡ moved_on min max offset }
{
    let moved = offset + 4;
    if moved == max { min } else { moved }
}

// The guest's append: its word at NEXT_CMD, and NEXT_CMD moved on; refused where the ring is full or its words are not usable.
// Rules out: a full ring that takes one word more; NEXT_CMD moved on to MAX instead of MIN; a word stored by an append that is refused.
#[tactic(auto, using(crate::proofs::Laws::usable_when, crate::proofs::AppendLaws::append_of_unusable, crate::proofs::AppendLaws::append_of_full, crate::proofs::AppendLaws::append_of_taken, std::proofs::lemmas::Grind::elements))]
pub fn append(ring: &mut [u32], word: u32) -> Result<(), AppendRefused>
    ensures { appended result ring.new ≡ append_of ring.old word }
{
    if !is_usable(ring) {
        return Err(AppendRefused);
    }
    let next = ring[2];
    let moved = moved_on(ring[0], ring[1], next);
    if moved == ring[3] {
        return Err(AppendRefused);
    }
    ring[(next / 4) as usize] = word;
    ring[2] = moved;
    Ok(())
}
