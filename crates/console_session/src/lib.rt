// The console: requests on a device and its memories, and a session that is fed its input byte by byte.
#![tactic(auto)]

ghost use Rattle.std.specs.Prelude.{◌+◌, ◌*◌, ◌≤◌, ◌≡◌, [], length, get_or, set, take};
ghost use Rattle.ring.specs.Append.{append_of};
ghost use Rattle.device.specs.Device.{fresh};
ghost use Rattle.register_write.specs.Registers.{written};
ghost use Rattle.device_run.specs.Run.{lent};
ghost use Rattle.console_lines.specs.declared.Request.TheVariants.{Run};
ghost use Rattle.console_session.specs.Console.{contents, SameMemories, performed, console_of, memory, pixels, ring_start, performed_of};
ghost use Rattle.console_session.specs.Session.{state_of, answered, kept, fed, fed_all, ended, fits, Within, if_room, emptied, ready_with};
ghost use Rattle.console_session.specs.Session.{line_with, line_before, rested, line_kept, line_byte, line_fed, unprinted, Buffers};
ghost use Rattle.console_session.specs.Parts.{written_of, append_answer};

use adapter::Device;
use console_answers::ConsoleAnswer;
use console_lines::Request;

// M, in bytes and in words, and P.
pub const MEMORY: u32 = 10256;

pub const RING_WORDS: usize = 2564;

pub const PIXELS: u32 = 1024;

// What is lent to a console: the ring memory, the framebuffer, the screen and the cursor image. It writes the framebuffer, which a run's
// memories (`device_run::Memories`) have for reading.
#[derive(Drop)]
pub struct Memories<'a> {
    pub ring: &'a mut [u32],
    pub framebuffer: &'a mut [u32],
    pub screen: &'a mut [u32],
    pub cursor: &'a mut [u32],
}

// What a request leaves and is answered with.
#[derive(Clone, Copy, PartialEq, Eq)]
pub struct Performed {
    pub device: Device,
    pub answer: ConsoleAnswer,
}

// A console between two bytes of its input: the device, how many bytes of the line are held, and how many of the text are printed. The
// bytes are lent at each call: `Meeting.begins` says of a session's start that it is these three. The line and the text's buffer are lent
// apart, since `finish` is lent the line for reading alone.
#[derive(Clone, Copy, PartialEq, Eq)]
pub struct Session {
    device: Device,
    held: usize,
    pub printed: usize,
}

// ---- one request

fn append(ring: &mut [u32], word: u32) -> ConsoleAnswer
    ensures { append_answer result ring.new (append_of ring.old word) }
{
    match ring::append(ring, word) {
        Ok(()) => ConsoleAnswer::Nothing,
        Err(_) => ConsoleAnswer::Full,
    }
}

// A place outside is left alone. Not by `get_mut`: of a slice it tells a proof nothing of the elements.
fn set_word(words: &mut [u32], place: u32, word: u32)
    ensures { words.new ≡ set words.old place word }
{
    let at = place as usize;
    if at < words.len() {
        words[at] = word;
    }
}

// A place outside is 0.
fn pixel_at(screen: &[u32], place: u32) -> u32
    ensures { result ≡ get_or screen.now place 0 }
{
    screen.get(place as usize).copied().unwrap_or(0)
}

// Apart, as a run is: where the two are inlined, the device that they give back is told field by field in every other answer.
#[inline(never)]
fn write_register(d: Device, ring: &[u32], index: u32, value: u32) -> Performed
    ensures { result ≡ written_of index (written d ring.now index value) }
{
    match adapter::write(d, ring, index, value) {
        Ok(device) => Performed {
            device,
            answer: ConsoleAnswer::Written(index, 0),
        },
        Err(e) => Performed {
            device: d,
            answer: ConsoleAnswer::Written(index, u32::from(e)),
        },
    }
}

// The four memories one by one: the borrow checker does not cover their loan out of the console's struct, the framebuffer for reading and
// the others for writing.
#[inline(never)]
#[tactic(auto, using(crate::proofs::Running::keeps_framebuffer), unfolding(crate::specs::Console::performed))]
fn run_device(
    d: Device,
    ring: &mut [u32],
    framebuffer: &mut [u32],
    screen: &mut [u32],
    cursor: &mut [u32],
    budget: u32,
) -> Performed
    ensures { performed_of result (lent ring.new framebuffer.new screen.new cursor.new)
        ≡ performed (console_of d (lent ring.old framebuffer.old screen.old cursor.old)) (Run budget) }
{
    let mut memories = adapter::Memories {
        ring,
        framebuffer,
        screen,
        cursor,
    };
    match adapter::run(d, &mut memories, budget) {
        Ok(ran) => Performed {
            device: ran.device,
            answer: ConsoleAnswer::Ran(adapter::run_number(ran.end), ran.count),
        },
        Err(e) => Performed {
            device: d,
            answer: ConsoleAnswer::Ran(u32::from(e), 0),
        },
    }
}

// A request that leaves the device as it is.
fn keeping(device: Device, answer: ConsoleAnswer) -> Performed
    ensures { result ≡ record { device = device; answer = answer } }
{
    Performed { device, answer }
}

// Performs a request. The text of its answer is `console_answers::print`'s.
// Rules out: a bad line that changes the device; a run that changes the framebuffer; an absent register with a value.
#[tactic(auto, unfolding(crate::specs::Console::performed))]
pub fn perform(request: Request, d: Device, memories: &mut Memories<'_>) -> Performed
    ensures performs { performed_of result (contents memories.new) ≡ performed (console_of d (contents memories.old)) request }
    ensures same { SameMemories memories.new memories.old }
{
    // The ring memory and the screen are taken out before they are read: of a field that is lent from where it stands a proof knows the
    // length alone.
    match request {
        Request::Write(index, value) => {
            let ring = &mut *memories.ring;
            write_register(d, ring, index, value)
        }
        Request::Read(index) => keeping(
            d,
            ConsoleAnswer::Value(index, adapter::read(d, index).unwrap_or(0)),
        ),
        Request::Append(word) => keeping(d, append(memories.ring, word)),
        Request::Pixel(place, pixel) => {
            set_word(memories.framebuffer, place, pixel);
            keeping(d, ConsoleAnswer::Nothing)
        }
        Request::Run(budget) => run_device(
            d,
            memories.ring,
            memories.framebuffer,
            memories.screen,
            memories.cursor,
            budget,
        ),
        Request::Screen(place) => {
            let screen = &mut *memories.screen;
            keeping(d, ConsoleAnswer::Shown(place, pixel_at(screen, place)))
        }
        Request::Bad => keeping(d, ConsoleAnswer::Bad),
    }
}

// ---- the session, byte by byte

// The held line's request is performed and answered.
fn answer_line(s: Session, line: &[u8], memories: &mut Memories<'_>, out: &mut [u8]) -> Session
    requires { Within s 1 (length line.now) (length out.old) }
    ensures state { state_of result line.now (contents memories.new) out.new ≡ answered (state_of s line.now (contents memories.old) out.old) }
    ensures buffers { Buffers s result line.now out.old out.new (rested (line_before s line.now))
        (answered (unprinted s line.now (contents memories.old))).printed }
    ensures room { Within result 0 (length line.now) (length out.old) }
    ensures printed_bound { result.printed ≤ s.printed + 26 }
    ensures same { SameMemories memories.new memories.old }
{
    let request = console_lines::request_of(&line[..s.held]);
    let p = perform(request, s.device, memories);
    Session {
        device: p.device,
        held: 0,
        printed: console_answers::print(p.answer, out, s.printed),
    }
}

// One byte more of the line, of which 32 are kept: how many are held then.
#[tactic(auto, using(crate::proofs::Holding::keeping))]
fn keep(line: &mut [u8], held: usize, b: u8) -> usize
    requires line_len { length line.old ≡ 32 }
    requires held_bound { held ≤ 32 }
    ensures line_after { take result line.new ≡ kept (take held line.old) b }
    ensures line_after_2 { line_with result line.new ≡ line_kept (line_with held line.old) b }
    ensures upper_bound { result ≤ 32 }
{
    if 32 <= held {
        return held;
    }
    line[held] = b;
    held + 1
}

#[tactic(auto, using(crate::proofs::Feeding::steps), unfolding(crate::specs::Session::fed, crate::specs::Session::line_byte))]
fn feed_byte(
    s: Session,
    b: u8,
    line: &mut [u8],
    memories: &mut Memories<'_>,
    out: &mut [u8],
) -> Session
    requires { Within s 1 (length line.old) (length out.old) }
    ensures state { state_of result line.new (contents memories.new) out.new ≡ fed (state_of s line.old (contents memories.old) out.old) b }
    ensures buffers { Buffers s result line.new out.old out.new (line_byte (line_before s line.old) b)
        (fed (unprinted s line.old (contents memories.old)) b).printed }
    ensures room { Within result 0 (length line.old) (length out.old) }
    ensures printed_bound { result.printed ≤ s.printed + 26 }
    ensures same { SameMemories memories.new memories.old }
{
    if b == b'\n' {
        return answer_line(s, line, memories, out);
    }
    let held = keep(line, s.held, b);
    Session { held, ..s }
}

fn feed_bytes(
    s: Session,
    chunk: &[u8],
    line: &mut [u8],
    memories: &mut Memories<'_>,
    out: &mut [u8],
) -> Session
    requires { Within s (length chunk.now) (length line.old) (length out.old) }
    ensures state { state_of result line.new (contents memories.new) out.new
        ≡ fed_all (state_of s line.old (contents memories.old) out.old) chunk.now }
    ensures buffers { Buffers s result line.new out.old out.new (line_fed (line_before s line.old) chunk.now)
        (fed_all (unprinted s line.old (contents memories.old)) chunk.now).printed }
    ensures room { Within result 0 (length line.old) (length out.old) }
    ensures same { SameMemories memories.new memories.old }
{
    let mut session = s;
    for b in chunk {
        session = feed_byte(session, *b, line, memories, out);
    }
    session
}

// Whether the line has 32 bytes, and out has room for the answers to n lines.
#[tactic(auto, using(crate::proofs::Feeding::room), unfolding(crate::specs::Session::fits))]
fn room_for(s: Session, n: usize, line: usize, out: usize) -> bool
    ensures { result ≡ fits s n line out }
{
    line == 32 && s.held <= 32 && s.printed <= out && n <= (out - s.printed) / 26
}

// ---- the session

#[tactic(auto, unfolding(crate::specs::Console::ring_start))]
fn start_ring(ring: &mut [u32])
    ensures { ring.new ≡ ring_start ring.old }
{
    set_word(ring, 0, 16);
    set_word(ring, 1, MEMORY);
    set_word(ring, 2, 16);
    set_word(ring, 3, 16);
}

// A session on memories that are zero: the ring words are set.
// Rules out: a session on a device that was not made; NEXT_CMD or STOP at 0.
#[tactic(auto, using(crate::proofs::Feeding::console_made))]
pub fn begin(ring: &mut [u32]) -> Session
    ensures value { result ≡ ready_with (fresh memory pixels) }
    ensures ring_after { ring.new ≡ ring_start ring.old }
{
    start_ring(ring);
    Session {
        device: adapter::make(MEMORY, PIXELS).unwrap(),
        held: 0,
        printed: 0,
    }
}

// Feeds a chunk of the input. The text goes behind what out has, and of the line's 32 bytes those change that the chunk sets; every other
// byte of both is as it was. Where out has no room for 26 bytes to each byte of the chunk, nothing changes and nothing is printed.
// Rules out: a line that the chunk's end cuts in two; an answer out of order or cut short; a newline kept in the line; a byte of out
// behind the text that changes.
#[tactic(auto, using(crate::proofs::Feeding::steps))]
pub fn feed(
    s: Session,
    chunk: &[u8],
    line: &mut [u8],
    memories: &mut Memories<'_>,
    out: &mut [u8],
) -> Session
    ensures state { state_of result line.new (contents memories.new) out.new
        ≡ if_room s (length chunk.now) line.old out.old (fed_all (state_of s line.old (contents memories.old) out.old) chunk.now)
        (state_of s line.old (contents memories.old) out.old) }
    ensures buffers { Buffers s result line.new out.old out.new
        (if_room s (length chunk.now) line.old out.old (line_fed (line_before s line.old) chunk.now) (line_before s line.old))
        (if_room s (length chunk.now) line.old out.old (fed_all (unprinted s line.old (contents memories.old)) chunk.now).printed []) }
    ensures room { Within s (length chunk.now) (length line.old) (length out.old) → Within result 0 (length line.old) (length out.old) }
    ensures same { SameMemories memories.new memories.old }
{
    if !room_for(s, chunk.len(), line.len(), out.len()) {
        return s;
    }
    feed_bytes(s, chunk, line, memories, out)
}

// The input has ended: a last line without newline is answered. The text goes behind what out has; every other byte is as it was. Where out
// has no room for 26 bytes, nothing changes.
// Rules out: a last line dropped; a line made of the nothing behind a last newline; a byte of out behind the text that changes.
#[tactic(auto, using(crate::proofs::Feeding::steps), unfolding(crate::specs::Session::ended))]
pub fn finish(s: Session, line: &[u8], memories: &mut Memories<'_>, out: &mut [u8]) -> Session
    ensures state { state_of result line.now (contents memories.new) out.new
        ≡ if_room s 1 line.now out.old (ended (state_of s line.now (contents memories.old) out.old)) (state_of s line.now (contents memories.old) out.old) }
    ensures buffers { Buffers s result line.now out.old out.new (if_room s 1 line.now out.old (rested (line_before s line.now)) (line_before s line.now))
        (if_room s 1 line.now out.old (ended (unprinted s line.now (contents memories.old))).printed []) }
    ensures room { Within s 1 (length line.now) (length out.old) → Within result 0 (length line.now) (length out.old) }
    ensures same { SameMemories memories.new memories.old }
{
    if !room_for(s, 1, line.len(), out.len()) {
        return s;
    }
    if s.held < 1 {
        return s;
    }
    answer_line(s, line, memories, out)
}

// The text in out was written out: the next goes to its start.
// Rules out: text that is written twice; a held line forgotten.
pub fn flush(s: Session) -> Session
    ensures { result ≡ emptied s }
{
    Session { printed: 0, ..s }
}
