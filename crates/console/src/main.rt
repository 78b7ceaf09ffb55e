// The console: reads requests from standard input, a line each, and prints the answers. What is read and what is printed
// is `console_session`'s; here are the reads and the writes.
#![tactic(auto)]

ghost use Rattle.std.specs.Prelude.{ℕ, ◌≤◌, ◌<◌, ◌≡◌, ◌&&◌, ltb, length, take, is_ok, IfSome};
ghost use Rattle.console_answers.specs.Put.{put_at};
ghost use Rattle.console_session.specs.Console.{contents, SameMemories};
ghost use Rattle.console_session.specs.Session.{state_of, unprinted, fed_all, ended, flushed, Within, Served};

use console_session::{Memories, PIXELS, RING_WORDS, Session};
use cursor::IMAGE_WORDS;
use std::io;
use std::io::{Read, Write};

// The bytes of one read, and room for 26 bytes of text to each.
const CHUNK: usize = 4096;

const TEXT: usize = 26 * CHUNK;

// One read: how many bytes of the buffer it filled. None at the end of the input, which a read that fails is too.
fn fill<R: Read>(input: &mut R, buffer: &mut [u8]) -> Option<usize>
    ensures { IfSome result (λ n. (0 < n) × (n ≤ length buffer.new)) }
{
    match input.read(buffer) {
        Ok(0) | Err(_) => None,
        Ok(n) => Some(n),
    }
}

// Writes a text, and leaves nothing of it waiting.
fn write_out<W: Write>(output: &mut W, text: &[u8]) -> io::Result<()> {
    output.write_all(text)?;
    output.flush()
}

// How many bytes a turn read, and whether what it printed was taken.
#[derive(Drop)]
struct Step {
    read: usize,
    sent: io::Result<()>,
}

impl Step {
    // Nothing read is the input's end; nobody reads what cannot be written.
    fn goes_on(&self) -> bool
        ensures { result ≡ is_ok self.now.sent && ltb 0 self.now.read }
    {
        self.sent.is_ok() && 0 < self.read
    }
}

// One read, its lines, one write. Every byte read is fed: there is always room.
#[tactic(auto, using(console_session::proofs::Feeding::within_fits))]
fn turn<R: Read, W: Write>(
    input: &mut R,
    output: &mut W,
    session: &mut Session,
    buffer: &mut [u8],
    line: &mut [u8],
    memories: &mut Memories<'_>,
    out: &mut [u8],
) -> Step
    requires { Within session.old (length buffer.old) (length line.old) (length out.old) }
    ensures state { state_of session.new line.new (contents memories.new) out.new
        ≡ flushed (fed_all (state_of session.old line.old (contents memories.old) out.old) (take result.read buffer.new)) }
    ensures room { (n l o : ℕ) → Within session.old n l o → Within session.new n l o }
    ensures same { SameMemories memories.new memories.old }
{
    let read = fill(input, buffer).unwrap_or(0);
    let fed = console_session::feed(*session, &buffer[..read], line, memories, out);
    *session = console_session::flush(fed);
    let sent = write_out(output, &out[..fed.printed]);
    Step { read, sent }
}

// Reads and feeds until the input ends, or nobody takes what is written. Nothing says that it does, and a proved loop has to: turns are
// counted, up to a number that no input uses up. No contract can say which bytes the reads gave; it says that there are such chunks.
// Rules out: a device or a memory that no input leads to; a line held that none leaves.
fn serve<R: Read, W: Write>(
    input: &mut R,
    output: &mut W,
    s: Session,
    buffer: &mut [u8],
    line: &mut [u8],
    memories: &mut Memories<'_>,
    out: &mut [u8],
) -> Session
    requires { Within s (length buffer.old) (length line.old) (length out.old) }
    ensures served { Served (state_of s line.old (contents memories.old) out.old) (state_of result line.new (contents memories.new) out.new) }
    ensures room { Within result (length buffer.old) (length line.old) (length out.old) }
    ensures same { SameMemories memories.new memories.old }
{
    let mut session = s;
    for _ in 0..u64::MAX {
        let done = turn(input, output, &mut session, buffer, line, memories, out);
        if !done.goes_on() {
            break;
        }
    }
    session
}

// A last line without newline is answered, and its text written out; nobody is left to tell where that fails.
// Rules out: a last line that does nothing; a byte of out behind the text that changes.
#[tactic(auto, using(console_session::proofs::Feeding::within_fits))]
fn end<W: Write>(
    output: &mut W,
    s: Session,
    line: &[u8],
    memories: &mut Memories<'_>,
    out: &mut [u8],
)
    requires { Within s 1 (length line.now) (length out.old) }
    ensures cursor_value { contents memories.new ≡ (ended (state_of s line.now (contents memories.old) out.old)).console.lent }
    ensures out_after { out.new ≡ put_at out.old s.printed (ended (unprinted s line.now (contents memories.old))).printed }
    ensures same { SameMemories memories.new memories.old }
{
    let ended = console_session::finish(s, line, memories, out);
    let _ = write_out(output, &out[..ended.printed]);
}

// M = 10,256 bytes, P = 1,024 pixels, a cursor image of 64 by 64.
fn main(rt: HostRuntime) {
    let mut input = rt.stdin();
    let mut output = rt.stdout();
    let mut buffer = [0u8; CHUNK];
    let mut line = [0u8; 32];
    let mut out = [0u8; TEXT];
    let mut ring = [0u32; RING_WORDS];
    let mut framebuffer = [0u32; PIXELS as usize];
    let mut screen = [0u32; PIXELS as usize];
    let mut cursor = [0u32; IMAGE_WORDS];
    let session = console_session::begin(&mut ring);
    let mut memories = Memories {
        ring: &mut ring,
        framebuffer: &mut framebuffer,
        screen: &mut screen,
        cursor: &mut cursor,
    };
    let session = serve(
        &mut input,
        &mut output,
        session,
        &mut buffer,
        &mut line,
        &mut memories,
        &mut out,
    );
    end(&mut output, session, &line, &mut memories, &mut out);
}
