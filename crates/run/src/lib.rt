// A run: commands out of the ring, one turn after the other, until the budget is spent or a turn ends it.
#![tactic(auto)]

ghost use Rattle.std.specs.Prelude.{◌≡◌, true, cond, ◌+◌, ◌/◌, ◌≤◌, ◌<◌, ◌++◌, ltb, length, get_or, take, drop};
ghost use Rattle.std.proofs.Math.Seq.{paste};
ghost use Rattle.execution.specs.declared.Cause.TheVariants.{BadOperand};
ghost use Rattle.execution.specs.Table.{turn_of};
ghost use Rattle.cursor.specs.Plane.{image_words};
ghost use Rattle.ring.specs.Acceptance.{max_words};
ghost use Rattle.ring.specs.Waiting.{between, words, carried};
ghost use Rattle.command.specs.Commands.{kind_in};
ghost use Rattle.command.specs.Findings.{kind_with, step_in};
ghost use Rattle.effect.specs.Effects.{scene, posted_after, cursor_after};
ghost use Rattle.run.specs.declared.Pause.TheVariants.{Spent, Short, Faults};
ghost use Rattle.run.specs.Turns.{InView, Stands, words_in, front_of, passed_in, view_of, row_in, Ready, row_end, Clear, LineOf, place_of, ran_to, next_unusable};
ghost use Rattle.run.specs.Going.{scene_of, RowGoing, RowRun, pause_of, after, turned, DataTurned};
ghost use Rattle.run.specs.Run.{machine, table, stamped, posts_in, posting, posted_in, ring_outcome, run_words, fitting, answer_of, run_in};

use command::{Action, Data, Kind, Step};
use cursor::IMAGE_WORDS;
use effect::Marks;
use execution::{Cause, End};
use geometry::Frame;
use ring::{MAX_WORDS, Ring};

// The words that wait in a ring from word lo to below word hi: n of them, from word at on.
// That they lie in the ring (`InView`) is a clause and no ghost field: the definitions build views by their numbers alone.
#[derive(Clone, Copy, PartialEq, Eq)]
struct View {
    lo: usize,
    hi: usize,
    at: usize,
    n: usize,
}

// What a run gives beside the lent memories: how a turn ended it, or nothing where the budget was spent first; the commands that it consumed; the remembered
// ring with STOP behind them; and the fence and cursor that they left.
#[derive(Clone, Copy, PartialEq, Eq)]
pub struct RingRun {
    pub end: Option<End>,
    pub count: u32,
    pub ring: Ring,
    pub marks: Marks,
}

// How many words lie from place p up to place q of a ring from lo to below hi, before there is a view.
#[tactic(auto, unfolding(ring::specs::Waiting::between))]
fn words_between(lo: usize, hi: usize, p: usize, q: usize) -> usize
    requires { (lo ≤ p) × (p < hi) × (lo ≤ q) × (q < hi) × (hi < 4294967296) }
    ensures { result ≡ between lo hi p q }
{
    if p <= q { q - p } else { q + (hi - lo) - p }
}

impl View {
    // The words that wait from STOP up to a usable NEXT_CMD.
    fn of(at: Ring, next: u32) -> View
        requires { (at.min ≤ at.stop) × (at.stop < at.max) × (at.min ≤ next / 4) × (next / 4 < at.max) }
        ensures { result ≡ view_of at next }
    {
        let lo = at.min as usize;
        let hi = at.max as usize;
        let stop = at.stop as usize;
        let n = words_between(lo, hi, stop, (next / 4) as usize);
        View {
            lo,
            hi,
            at: stop,
            n,
        }
    }

    // Its first n words.
    fn front(self, n: usize) -> View
        ensures { result ≡ front_of self n }
    {
        View { n, ..self }
    }

    // What is left of it behind its first size words.
    #[tactic(auto, unfolding(ring::specs::Waiting::ahead))]
    fn pass(self, size: usize) -> View
        requires in_view { InView self max_words }
        requires there { size ≤ self.n }
        ensures { result ≡ passed_in self size }
    {
        let to = self.at + size;
        let at = if to < self.hi {
            to
        } else {
            to - (self.hi - self.lo)
        };
        View {
            at,
            n: self.n - size,
            ..self
        }
    }

    // Where its words end that lie in a row.
    #[tactic(auto, unfolding(crate::specs::Turns::row_end))]
    fn row_end(self) -> usize
        requires { InView self max_words }
        ensures { result ≡ row_end self }
    {
        let past = self.at + self.n;
        if past < self.hi { past } else { self.hi - 1 }
    }

    // The remembered ring with STOP where the view begins.
    fn place(self) -> Ring
        requires { InView self max_words }
        ensures { result ≡ place_of self }
    {
        Ring {
            min: self.lo as u32,
            max: self.hi as u32,
            stop: self.at as u32,
        }
    }
}

// What a run does not change: the framebuffer, the frame, and whether fences are posted in ring word 6.
#[derive(Clone, Copy)]
struct Stage<'a> {
    framebuffer: &'a [u32],
    frame: Frame,
    posts: bool,
}

// ---- a command executed

// "ring word 3 is written": the only function that writes it. STOP has come to word at.
#[tactic(auto, unfolding(crate::specs::Run::stamped))]
fn stamp(ring: &mut [u32], at: usize)
    requires { (4 ≤ length ring.old) × (at ≤ max_words) }
    ensures { ring.new ≡ stamped at ring.old }
{
    ring[3] = (at * 4) as u32;
}

// "an executed FENCE also writes its number to word 6": the only function that writes it.
#[tactic(auto, unfolding(crate::specs::Run::posting))]
fn post(ring: &mut [u32], number: u32)
    requires { 7 ≤ length ring.old }
    ensures { ring.new ≡ posting true number ring.old }
{
    ring[6] = number;
}

// Word 6's part of an action, where fences are posted there.
#[tactic(auto, using(crate::proofs::Posting::posting_same), unfolding(effect::specs::Effects::posted_after, crate::specs::Run::posting))]
fn post_fence(action: Action, posts: bool, ring: &mut [u32])
    requires { Clear posts (length ring.old) }
    ensures { ring.new ≡ posting posts (posted_after posts action (posted_in posts ring.old)) ring.old }
{
    if let Action::Fence(number) = action {
        if posts {
            post(ring, number);
        }
    }
}

// n words of the ring from word from on, into an image from word to on.
fn copy_span(ring: &[u32], from: usize, image: &mut [u32], to: usize, n: usize)
    requires { (from + n ≤ length ring.now) × (to + n ≤ length image.old) }
    ensures { image.new ≡ paste image.old to (drop from ring.now) n }
{
    image[to..to + n].copy_from_slice(&ring[from..from + n]);
}

// The words of a view, into an image from word to on: up to the ring's end, and from its begin on.
fn copy_words(ring: &[u32], v: View, image: &mut [u32], to: usize)
    requires in_view { InView v (length ring.now) }
    requires room { to + v.n ≤ length image.old }
    ensures { image.new ≡ paste image.old to (words_in ring.now v) v.n }
{
    let first = v.hi - v.at;
    if v.n <= first {
        copy_span(ring, v.at, image, to, v.n);
        return;
    }
    copy_span(ring, v.at, image, to, first);
    copy_span(ring, v.lo, image, to + first, v.n - first);
}

// The cursor image's part of an action: a cursor's pixels, which follow the six words of its head, into the first words of the image.
#[tactic(auto, unfolding(effect::specs::Effects::cursor_after))]
fn bring_cursor(action: Action, ring: &[u32], v: View, cursor: &mut [u32])
    requires in_view { InView v (length ring.now) }
    requires small { v.hi ≤ max_words }
    requires ready { Ready action v.n }
    requires cursor_len { length cursor.old ≡ image_words }
    ensures { cursor.new ≡ cursor_after action (words_in ring.now v) cursor.old }
{
    if let Action::Define(shape) = action {
        let pixels = v.pass(6).front((shape.w * shape.h) as usize);
        copy_words(ring, pixels, cursor, 0);
    }
}

// ---- commands in a row of words

// Why commands in a row came to an end: the budget is spent, too few words are left in the row, a fault, a command with data behind its head.
#[derive(Clone, Copy, PartialEq, Eq)]
enum Pause {
    Spent,
    Short,
    Faults(Cause),
    Long(Data),
}

// Where they ended: at which word, with which fence, with how much of the budget left. Not why: constants for it would take the registers of the loop below.
#[derive(Clone, Copy, PartialEq, Eq)]
struct RowEnd {
    at: usize,
    fence: u32,
    left: u32,
}

// The same with the reason.
#[derive(Clone, Copy, PartialEq, Eq)]
struct Paused {
    end: RowEnd,
    why: Pause,
}

// Commands that lie whole in a row of words, from word from up to word end, one after the other. Nothing but what they need stays in this loop.
fn row_turns(
    stage: Stage<'_>,
    from: usize,
    end: usize,
    before: u32,
    budget: u32,
    memory: &mut [u32],
    screen: &mut [u32],
) -> RowEnd
    requires { (4 ≤ from) × (from ≤ end) × (end ≤ length memory.old) × (end ≤ max_words) × Clear stage.posts from }
    ensures { RowGoing (scene_of stage.entry) budget memory.old from end before screen.old
        result.at result.fence result.left memory.new screen.new
        × (1 ≤ result.left → pause_of (step_in tt (row_in memory.old result.at end)) ≡ Spent → ⊥) }
{
    let mut at = from;
    let mut fence = before;
    for spent in 0..budget {
        let Step::Does(action, size) = command::step_in(&memory[at..end]) else {
            return RowEnd {
                at,
                fence,
                left: budget - spent,
            };
        };
        effect::draw(action, stage.framebuffer, screen, stage.frame);
        post_fence(action, stage.posts, memory);
        at += size;
        stamp(memory, at);
        fence = effect::fence_after(action, fence);
    }
    RowEnd { at, fence, left: 0 }
}

// Why a command of fixed length is not executed, of which so many words lie in the row and which has size words.
fn fixed_pause(words: usize, size: usize) -> Pause
    ensures { result ≡ cond (ltb words size) Short (Faults BadOperand) }
{
    if words < size {
        Pause::Short
    } else {
        Pause::Faults(Cause::BadOperand)
    }
}

// Why words at which commands in a row ended are not executed: a command of fixed length is short, or all there with a bad operand, whatever its check is.
fn pause_in(row: &[u32]) -> Pause
    requires { pause_of (step_in tt row.now) ≡ Spent → ⊥ }
    ensures { result ≡ pause_of (step_in tt row.now) }
{
    let [number, ..] = row else {
        return Pause::Short;
    };
    let kind = Kind::from(*number);
    match kind {
        Kind::DefineAlphaCursor => Pause::Long(Data::Cursor),
        Kind::Escape => Pause::Long(Data::Escape),
        Kind::Foreign => Pause::Faults(Cause::NotOffered),
        _ => fixed_pause(row.len(), kind.head_words()),
    }
}

// At most one command out of a line, from word 7 of it up to word end, and why none was executed.
fn line_turn(
    stage: Stage<'_>,
    end: usize,
    before: u32,
    line: &mut [u32],
    screen: &mut [u32],
) -> Paused
    requires { (7 ≤ end) × (end ≤ length line.old) × (end ≤ max_words) }
    ensures { RowRun (scene_of stage.entry) 1 line.old 7 end before screen.old
        result line.new screen.new }
{
    let ended = row_turns(stage, 7, end, before, 1, line, screen);
    let why = if ended.left == 0 {
        Pause::Spent
    } else {
        pause_in(&line[ended.at..end])
    };
    Paused { end: ended, why }
}

// ---- one turn

// What a turn that executed a command gives beside the lent memories. A turn that ends gives how, and changes nothing.
#[derive(Clone, Copy, PartialEq, Eq)]
struct Turned {
    view: View,
    marks: Marks,
}

// A command of size words was executed: it is passed, and ring word 3 says so.
fn executed(v: View, size: usize, marks: Marks, ring: &mut [u32]) -> Turned
    requires in_view { InView v (length ring.old) }
    requires size_le_n { (size ≤ v.n) × (v.hi ≤ max_words) × (4 ≤ length ring.old) }
    ensures value { result ≡ record { view = passed_in v size; marks = marks } }
    ensures ring_after { ring.new ≡ stamped (passed_in v size).at ring.old }
{
    let to = v.pass(size);
    stamp(ring, to.at);
    Turned { view: to, marks }
}

// A turn on a command with data behind its head, of which the first ten words are lent in a row.
fn data_turn(
    v: View,
    marks: Marks,
    tail: Data,
    head: &[u32],
    ring: &mut [u32],
    cursor: &mut [u32],
) -> Result<Turned, End>
    requires stands { Stands (posts_in (place_of v)) v ring.old cursor.old }
    requires le_n { (1 ≤ v.n) × (head.now ≡ take 10 (words_in ring.old v)) × (kind_in (words_in ring.old v) ≡ kind_with tail) }
    ensures { DataTurned v marks ring.old cursor.old result ring.new cursor.new }
{
    let carries = v.hi - v.lo - 1;
    let (action, size) = command::data_turn(tail, head, v.n as u64, carries as u64)?;
    bring_cursor(action, ring, v, cursor);
    Ok(executed(v, size as usize, marks.after(action), ring))
}

// The line is an array, with its end beside it: no heap, and `row_turns` goes by an end in the ring memory too.
// The first ten words of a view, or all of them where fewer wait, in a row from word 7 of a line on, behind the ring's word 6; where they end there.
fn fill_line(ring: &[u32], v: View, line: &mut [u32]) -> usize
    requires in_view { InView v (length ring.now) }
    requires in_bounds { (7 ≤ length ring.now) × (length line.old ≡ 17) }
    ensures { LineOf ring.now v line.new result }
{
    line[6] = ring[6];
    let n = v.n.min(10);
    copy_words(ring, v.front(n), line, 7);
    n + 7
}

// What a line's command posted there, into the ring. A command that posts nothing leaves word 6 unwritten.
#[tactic(auto, unfolding(crate::specs::Run::posting, crate::specs::Run::posted_in))]
fn bring_posted(line: &[u32], posts: bool, ring: &mut [u32])
    requires { (7 ≤ length line.now) × (7 ≤ length ring.old) }
    ensures { ring.new ≡ posting posts (posted_in posts line.now) ring.old }
{
    if posts {
        let number = line[6];
        if number != ring[6] {
            post(ring, number);
        }
    }
}

// One turn, wherever its words lie: they go through the same loop, as a line of ten words with a budget of 1.
fn one_turn(
    stage: Stage<'_>,
    v: View,
    marks: Marks,
    ring: &mut [u32],
    screen: &mut [u32],
    cursor: &mut [u32],
) -> Result<Turned, End>
    requires { Stands stage.posts v ring.old cursor.old }
    ensures { after stage.entry.posts v marks result ring.new screen.new cursor.new
        ≡ turned (scene_of stage.entry) v ring.old
        (machine marks screen.old cursor.old (posted_in stage.entry.posts ring.old)) }
{
    if v.n == 0 {
        return Err(End::Drained);
    }
    let mut line = [0u32; 17];
    let end = fill_line(ring, v, &mut line);
    let p = line_turn(stage, end, marks.fence, &mut line, screen);
    match p.why {
        Pause::Spent => {
            bring_posted(&line, stage.posts, ring);
            let after = Marks {
                fence: p.end.fence,
                ..marks
            };
            Ok(executed(v, p.end.at - 7, after, ring))
        }
        Pause::Short => Err(End::Waiting),
        Pause::Faults(cause) => Err(End::Fault(cause)),
        Pause::Long(tail) => data_turn(v, marks, tail, &line[7..end], ring, cursor),
    }
}

// ---- the run

// What a run gives that ended at a view.
fn ran_to(v: View, end: Option<End>, count: u32, marks: Marks) -> RingRun
    requires { InView v max_words }
    ensures { result ≡ ran_to v end count marks }
{
    RingRun {
        end,
        count,
        ring: v.place(),
        marks,
    }
}

// Turns at the words of a view, until the budget is used up or one of them ends the run: those in a row, then one that does not lie in it, and so on.
fn turns(
    stage: Stage<'_>,
    view: View,
    before: Marks,
    budget: u32,
    ring: &mut [u32],
    screen: &mut [u32],
    cursor: &mut [u32],
) -> RingRun
    requires { Stands stage.posts view ring.old cursor.old }
    ensures { ring_outcome result ring.new screen.new cursor.new
        ≡ run_words (turn_of (carried view.lo view.hi) (table (scene_of stage.entry))) (place_of view) budget
        ring.old (words_in ring.old view)
        (machine before screen.old cursor.old (posted_in stage.entry.posts ring.old)) }
{
    let mut v = view;
    let mut marks = before;
    let mut left = budget;
    // No for loop: each time round takes as much of the budget as its row has commands.
    while 0 < left {
        let row = row_turns(stage, v.at, v.row_end(), marks.fence, left, ring, screen);
        v = v.pass(row.at - v.at);
        marks.fence = row.fence;
        left = row.left;
        if 0 < left {
            match one_turn(stage, v, marks, ring, screen, cursor) {
                Ok(turned) => {
                    v = turned.view;
                    marks = turned.marks;
                    left -= 1;
                }
                Err(end) => return ran_to(v, Some(end), budget - left, marks),
            }
        }
    }
    ran_to(v, None, budget, marks)
}

// Whether the remembered ring lies in the ring memory and the cursor image is one.
#[tactic(auto, unfolding(crate::specs::Run::fitting))]
fn is_fitting(at: Ring, words: usize, image: usize) -> bool
    ensures { result ≡ fitting at words image }
{
    ring::is_placed(at, words) && at.max <= MAX_WORDS && image == IMAGE_WORDS
}

// The answer where NEXT_CMD is unusable: the budget is looked at first.
#[tactic(auto, unfolding(crate::specs::Turns::next_unusable))]
fn next_unusable(budget: u32) -> Option<End>
    ensures { answer_of result ≡ next_unusable budget }
{
    if budget == 0 {
        None
    } else {
        Some(End::Fault(Cause::BadNext))
    }
}

// "When MIN is 28 or more", which is seven words: whether fences are posted in word 6.
fn posts_in(at: Ring) -> bool
    ensures { result ≡ posts_in at }
{
    7 <= at.min
}

// Commands out of the ring, with MIN, MAX and STOP as they are remembered. The memories come one by one: a struct of them
// would be taken apart again in every function that it calls. The frame has the mode and the rows that fills and copies reach.
// Rules out: MIN, MAX or STOP read again from the ring; 13 before the budget; a count that is not that of the commands consumed; ring words but words 3 and,
// where fences are posted, 6 changed; a fence that is not the last posted.
pub fn run(
    at: Ring,
    marks: Marks,
    budget: u32,
    ring: &mut [u32],
    framebuffer: &[u32],
    screen: &mut [u32],
    cursor: &mut [u32],
    frame: Frame,
) -> RingRun
    ensures { ring_outcome result ring.new screen.new cursor.new
        ≡ run_in (scene frame framebuffer.now (posts_in at)) at budget ring.old
        (machine marks screen.old cursor.old (posted_in (posts_in at) ring.old)) }
{
    if !is_fitting(at, ring.len(), cursor.len()) {
        return RingRun {
            end: Some(End::Fault(Cause::BadNext)),
            count: 0,
            ring: at,
            marks,
        };
    }
    let next = ring[2];
    if !ring::next_good(at, next) {
        return RingRun {
            end: next_unusable(budget),
            count: 0,
            ring: at,
            marks,
        };
    }
    let view = View::of(at, next);
    let stage = Stage {
        framebuffer,
        frame,
        posts: posts_in(at),
    };
    turns(stage, view, marks, budget, ring, screen, cursor)
}
