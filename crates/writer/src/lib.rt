// The guest's side of the ring: a command with its arguments, pixels and bytes, appended whole by the published rule, or not at all.
#![tactic(auto)]

ghost use Rattle.std.specs.Prelude.{◌≡◌, true, cond, not, ◌&&◌, ◌++◌, eqb, leb, ℕ, ◌+◌, ◌*◌, ◌/◌, ◌≤◌, ◌<◌, length, get_or, set, drop, Err};
ghost use Rattle.std.proofs.Math.Seq.{paste};
ghost use Rattle.command.specs.declared.Kind.TheVariants.{DefineAlphaCursor, Escape};
ghost use Rattle.command.specs.Commands.{entry, kind_in};
ghost use Rattle.command.specs.Findings.{kind_with};
ghost use Rattle.cursor.specs.Plane.{image_words};
ghost use Rattle.ring.specs.Acceptance.{min_of, max_of, next_of, usable};
ghost use Rattle.ring.specs.Waiting.{after, ahead, words};
ghost use Rattle.writer.specs.Writing.{command, command_words, word_from, data_words, free_words, writer_number, written, write_of};
ghost use Rattle.writer.specs.Laying.{InPlace, behind, laid, asked};

use command::{Data, Kind, Step};

// Why a command is not written.
#[derive(Clone, Copy, PartialEq, Eq)]
pub enum WriterError {
    LentLength,
    RingRefused,
    NoRoom,
    NotACommand,
}

impl From<WriterError> for u32 {
    ghost from_gives = { λ error number. number ≡ writer_number (Err error) };

    // Rules out: 0 for a full ring; 33 and 41 exchanged.
    fn from(error: WriterError) -> u32 {
        match error {
            WriterError::LentLength => 20,
            WriterError::RingRefused => 33,
            WriterError::NoRoom => 40,
            WriterError::NotACommand => 41,
        }
    }
}

// ---- what a head asks for

// All words of its command, its pixels and its bytes.
#[derive(Clone, Copy, PartialEq, Eq)]
struct Asked {
    words: u64,
    pixels: u64,
    bytes: u64,
}

// The words of the head of a command with such data.
fn head_words(tail: Data) -> usize
    ensures { result ≡ (entry (kind_with tail)).head }
{
    match tail {
        Data::Cursor => Kind::DefineAlphaCursor.head_words(),
        Data::Escape => Kind::Escape.head_words(),
    }
}

// A command with data behind its head, by the device's own turn in a ring full of words: none where that would fault, or with another number of words.
fn long_asked(tail: Data, head: &[u32], carries: u64) -> Option<Asked>
    requires { (10 ≤ carries) × (kind_in head.now ≡ kind_with tail) }
    ensures { result ≡ asked carries head.now }
{
    if head.len() != head_words(tail) {
        return None;
    }
    let Ok((_, words)) = command::data_turn(tail, head, carries, carries) else {
        return None;
    };
    match tail {
        Data::Cursor => Some(Asked {
            words,
            pixels: words - 6,
            bytes: 0,
        }),
        Data::Escape => Some(Asked {
            words,
            pixels: 0,
            bytes: head[2] as u64,
        }),
    }
}

// By the device's own step: none where that would fault, or the head has another number of words than its command.
fn asked_by(head: &[u32], carries: u64) -> Option<Asked>
    requires { 10 ≤ carries }
    ensures { result ≡ asked carries head.now }
{
    match command::step_in(head) {
        Step::Does(_, words) => {
            if words != head.len() {
                return None;
            }
            Some(Asked {
                words: words as u64,
                pixels: 0,
                bytes: 0,
            })
        }
        Step::Long(tail) => long_asked(tail, head, carries),
        Step::Short | Step::Faults(_) => None,
    }
}

// ---- words into the ring

// A place in a ring that lies from word lo to below word hi.
// That it lies in the ring memory (`InPlace`) is a clause: a place holds no memory.
#[derive(Clone, Copy, PartialEq, Eq)]
struct Place {
    lo: usize,
    hi: usize,
    at: usize,
}

// A row of words into the ring from a place on: up to its end, and from its begin on. Answers the place behind them.
// No words, as an ESCAPE has no pixels, need no call of memcpy.
fn lay(ring: &mut [u32], place: Place, row: &[u32]) -> usize
    requires held { InPlace place (length ring.old) }
    requires room { length row.now + place.lo < place.hi }
    ensures ring_after { ring.new ≡ laid place.lo place.hi place.at row.now ring.old }
    ensures value { result ≡ behind place (length row.now) }
{
    if row.is_empty() {
        return place.at;
    }
    let first = place.hi - place.at;
    if row.len() < first {
        let past = place.at + row.len();
        ring[place.at..past].copy_from_slice(row);
        return past;
    }
    let (front, rest) = row.split_at(first);
    let past = place.lo + rest.len();
    ring[place.at..place.hi].copy_from_slice(front);
    ring[place.lo..past].copy_from_slice(rest);
    past
}

// A byte of bytes, or 0 behind its end.
fn byte_at(bytes: &[u8], i: usize) -> u8
    ensures { result ≡ get_or bytes.now i 0 }
{
    bytes.get(i).copied().unwrap_or(0)
}

// Four bytes from byte k on, lowest first.
fn word_from(bytes: &[u8], k: usize) -> u32
    requires { k ≤ 4294967296 }
    ensures { result ≡ word_from bytes.now k }
{
    u32::from_le_bytes([
        byte_at(bytes, k),
        byte_at(bytes, k + 1),
        byte_at(bytes, k + 2),
        byte_at(bytes, k + 3),
    ])
}

// The place behind place p. By numbers: of a place only one moves on.
#[tactic(auto, unfolding(ring::specs::Waiting::after))]
fn after(lo: usize, hi: usize, p: usize) -> usize
    requires { p < hi }
    ensures { result ≡ after lo hi p }
{
    if p + 1 < hi { p + 1 } else { lo }
}

// Data as words, into the ring from a place on. Answers the place behind them. By the number of the word: the last of `chunks` may be short.
fn lay_data(ring: &mut [u32], place: Place, bytes: &[u8]) -> usize
    requires held { InPlace place (length ring.old) }
    requires room { (length (data_words bytes.now) + place.lo < place.hi) × (length bytes.now ≤ 4294967295) }
    ensures ring_after { ring.new ≡ laid place.lo place.hi place.at (data_words bytes.now) ring.old }
    ensures value { result ≡ behind place (length (data_words bytes.now)) }
{
    let mut at = place.at;
    for i in 0..bytes.len().div_ceil(4) {
        ring[at] = word_from(bytes, 4 * i);
        at = after(place.lo, place.hi, at);
    }
    at
}

// Four words of a row, from word from on, into the ring from word at on.
// All are read before one is stored, so that they move at once: copy_from_slice looks first whether they overlap, and a FENCE takes a fifth more time.
fn lay_four(ring: &mut [u32], at: usize, row: &[u32], from: usize)
    requires { (from + 4 ≤ length row.now) × (at + 4 ≤ length ring.old) }
    ensures { ring.new ≡ paste ring.old at (drop from row.now) 4 }
{
    let a = row[from];
    let b = row[from + 1];
    let c = row[from + 2];
    let d = row[from + 3];
    ring[at] = a;
    ring[at + 1] = b;
    ring[at + 2] = c;
    ring[at + 3] = d;
}

// What a head and the bytes have is said by clauses, here and below: they are lent slices, which no type of ours holds.
// A head that does not wrap: two or three words, or its first four and its last four, which may overlap. No loop, which would be a call of memcpy.
fn lay_head(ring: &mut [u32], at: usize, head: &[u32])
    requires { (2 ≤ length head.now) × (length head.now ≤ 8) × (at + length head.now ≤ length ring.old) }
    ensures { ring.new ≡ paste ring.old at head.now (length head.now) }
{
    let n = head.len();
    if 4 <= n {
        lay_four(ring, at, head, 0);
        lay_four(ring, at + n - 4, head, n - 4);
        return;
    }
    ring[at] = head[0];
    ring[at + 1] = head[1];
    if n == 3 {
        ring[at + 2] = head[2];
    }
}

// A head from a place on. Answers the place behind it.
fn put_head(ring: &mut [u32], place: Place, head: &[u32]) -> usize
    requires held { InPlace place (length ring.old) }
    requires room { (length head.now + place.lo < place.hi) × (2 ≤ length head.now) × (length head.now ≤ 8) }
    ensures ring_after { ring.new ≡ laid place.lo place.hi place.at head.now ring.old }
    ensures value { result ≡ behind place (length head.now) }
{
    let past = place.at + head.len();
    if past < place.hi {
        lay_head(ring, place.at, head);
        return past;
    }
    lay(ring, place, head)
}

// What stands behind a head: pixels or data. Answers the place behind them.
fn put_rest(ring: &mut [u32], place: Place, pixels: &[u32], bytes: &[u8]) -> usize
    requires held { InPlace place (length ring.old) }
    requires room { (length (pixels.now ++ data_words bytes.now) + place.lo < place.hi) × (length bytes.now ≤ 4294967295) }
    ensures ring_after { ring.new ≡ laid place.lo place.hi place.at (pixels.now ++ data_words bytes.now) ring.old }
    ensures value { result ≡ behind place (length (pixels.now ++ data_words bytes.now)) }
{
    let last = lay(ring, place, pixels);
    lay_data(ring, Place { at: last, ..place }, bytes)
}

// All words of a command, and none of ring words 0 to 3. Answers the place behind them.
fn put_words(ring: &mut [u32], place: Place, head: &[u32], pixels: &[u32], bytes: &[u8]) -> usize
    requires held { InPlace place (length ring.old) }
    requires in_bounds { (4 ≤ place.lo) × (2 ≤ length head.now) × (length head.now ≤ 8) × (length bytes.now ≤ 4294967295)
        × (length (command_words (command head.now pixels.now bytes.now)) + place.lo < place.hi) }
    ensures ring_after { ring.new
        ≡ laid place.lo place.hi place.at (command_words (command head.now pixels.now bytes.now)) ring.old }
    ensures value { result ≡ behind place (length (command_words (command head.now pixels.now bytes.now))) }
    ensures by_index { (i : ℕ) → i < 4 → get_or ring.new i 0 ≡ get_or ring.old i 0 }
{
    let behind = put_head(ring, place, head);
    if pixels.is_empty() && bytes.is_empty() {
        return behind;
    }
    put_rest(
        ring,
        Place {
            at: behind,
            ..place
        },
        pixels,
        bytes,
    )
}

// "NEXT_CMD once at the end": ring word 2 alone.
fn publish(ring: &mut [u32], at: usize)
    requires { (3 ≤ length ring.old) × (at * 4 < 4294967296) }
    ensures { ring.new ≡ set ring.old 2 (at * 4) }
{
    ring[2] = (at * 4) as u32;
}

// ---- the write

// A usable ring: where the next word goes, and so many words free.
#[derive(Clone, Copy, PartialEq, Eq)]
struct Room {
    next: Place,
    free: usize,
}

#[tactic(auto, using(ring::proofs::Laws::usable_when), unfolding(crate::specs::Writing::free_words, ring::specs::Waiting::between))]
fn room_in(ring: &[u32]) -> Room
    requires { usable ring.now ≡ true }
    ensures { (result.next.lo ≡ min_of ring.now / 4) × (result.next.hi ≡ max_of ring.now / 4)
        × (result.next.at ≡ next_of ring.now / 4) × (result.free ≡ free_words ring.now) }
{
    let lo = (ring[0] / 4) as usize;
    let hi = (ring[1] / 4) as usize;
    let next = (ring[2] / 4) as usize;
    let stop = (ring[3] / 4) as usize;
    let free = if stop <= next {
        hi - lo - 1 - (next - stop)
    } else {
        stop - next - 1
    };
    Room {
        next: Place { lo, hi, at: next },
        free,
    }
}

// Whether the lent pixels and bytes number what is asked for.
fn lent_good(a: Asked, pixels: usize, bytes: usize) -> bool
    ensures { result ≡ eqb pixels a.pixels && eqb bytes a.bytes }
{
    pixels as u64 == a.pixels && bytes as u64 == a.bytes
}

// A whole command into the ring, or nothing: its words first, NEXT_CMD then. The command is its number and its arguments in document 01's order.
// Rules out: a ring filled to its last word; a command whose last words are missing; a word stored by a write that is refused; NEXT_CMD moved on to MAX.
#[tactic(auto, using(ring::proofs::Laws::usable_when))]
pub fn write(
    ring: &mut [u32],
    head: &[u32],
    pixels: &[u32],
    bytes: &[u8],
) -> Result<(), WriterError>
    ensures { written result ring.new
        ≡ write_of ring.old (command head.now pixels.now bytes.now) }
{
    if !ring::is_usable(ring) {
        return Err(WriterError::RingRefused);
    }
    let room = room_in(ring);
    let carries = room.next.hi - room.next.lo - 1;
    let Some(asked) = asked_by(head, carries as u64) else {
        return Err(WriterError::NotACommand);
    };
    if !lent_good(asked, pixels.len(), bytes.len()) {
        return Err(WriterError::LentLength);
    }
    if (room.free as u64) < asked.words {
        return Err(WriterError::NoRoom);
    }
    let behind = put_words(ring, room.next, head, pixels, bytes);
    publish(ring, behind);
    Ok(())
}
