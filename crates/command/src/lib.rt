// Document 01's nine commands: their numbers, and what a turn finds in words that begin with one. Needs no ring, device or screen.
#![tactic(auto)]

ghost use Rattle.std.specs.Prelude.{◌≡◌, ◌≤◌, cond, get_or, leb};
ghost use Rattle.std.proofs.Math.Option.{some};
ghost use Rattle.command.specs.Commands.{entry, kind_of, shape_at};
ghost use Rattle.execution.specs.declared.Cause.TheVariants.{BadOperand, TooLong};
ghost use Rattle.execution.specs.declared.End.TheVariants.{Waiting, Fault};
ghost use Rattle.execution.specs.Straight.{ends, exec};
ghost use Rattle.command.specs.declared.Data.TheVariants.{Cursor, Escape};
ghost use Rattle.command.specs.declared.Step.TheVariants.{Does, Faults};
ghost use Rattle.command.specs.Findings.{finds_in, as_turn, begun, step_in};

use cursor::Shape;
use execution::{Cause, End};
use geometry::{Point, Rect};

// The commands that are offered, and every other number.
#[derive(Clone, Copy, PartialEq, Eq)]
pub enum Kind {
    Update,
    RectFill,
    RectCopy,
    RectRopFill,
    RectRopCopy,
    DefineAlphaCursor,
    UpdateVerbose,
    Fence,
    Escape,
    Foreign,
}

// What executing a command does; a copy's point is the top left pixel of its source. A plain fill or copy is raster operation 3, and a verbose update an update.
#[derive(Clone, Copy, PartialEq, Eq)]
pub enum Action {
    Update(Rect),
    Fill(Rect, u32, u32),
    Copy(Point, Rect, u32),
    Define(Shape),
    Fence(u32),
    Nothing,
}

// The commands with data behind their head.
#[derive(Clone, Copy, PartialEq, Eq)]
pub enum Data {
    Cursor,
    Escape,
}

// What the front of a row of words says: a command and the number of its words; too few words; a fault; a command with data behind its head.
#[derive(Clone, Copy, PartialEq, Eq)]
pub enum Step {
    Does(Action, usize),
    Short,
    Faults(Cause),
    Long(Data),
}

impl From<u32> for Kind {
    ghost from_gives = { λ number kind. kind ≡ kind_of number };

    // The kind of command that a number names.
    // Rules out: command 20 or 21 offered; 4294967295 taken for one that is offered.
    #[tactic(auto, unfolding(crate::specs::Commands::entry, crate::specs::Commands::kind_of))]
    fn from(number: u32) -> Kind {
        match number {
            1 => Kind::Update,
            2 => Kind::RectFill,
            3 => Kind::RectCopy,
            13 => Kind::RectRopFill,
            14 => Kind::RectRopCopy,
            22 => Kind::DefineAlphaCursor,
            25 => Kind::UpdateVerbose,
            30 => Kind::Fence,
            33 => Kind::Escape,
            0 | 4..=12 | 15..=21 | 23..=24 | 26..=29 | 31..=32 | 34..=4294967295 => Kind::Foreign,
        }
    }
}

impl Kind {
    // The words of the command's head, its number included; a command of fixed length is all head.
    // Rules out: a cursor's head of five words; a fence of one.
    #[tactic(auto, unfolding(crate::specs::Commands::entry))]
    pub fn head_words(self) -> usize
        ensures { result ≡ (entry self).head }
    {
        match self {
            Kind::Update => 5,
            Kind::RectFill => 6,
            Kind::RectCopy => 7,
            Kind::RectRopFill => 7,
            Kind::RectRopCopy => 8,
            Kind::DefineAlphaCursor => 6,
            Kind::UpdateVerbose => 6,
            Kind::Fence => 2,
            Kind::Escape => 3,
            Kind::Foreign => 1,
        }
    }
}

// ---- a row of words

// The one dispatch: what the front of a row of words says. Only the words of the command's own head are read.
// Rules out: a raster operation or a fence of 0 judged before all words are there; a foreign number that waits; a plain copy by another operation than 3.
// Inlined, for the run's loop, which has a few ns for a command.
#[inline(always)]
#[tactic(auto, using(crate::proofs::Steps::step_said, crate::proofs::Steps::step_none), unfolding(crate::specs::Commands::entry, crate::proofs::Steps::said_by))]
pub fn step_in(row: &[u32]) -> Step
    ensures { result ≡ step_in tt row.now }
{
    let &[number, ..] = row else {
        return Step::Short;
    };
    match (Kind::from(number), row) {
        (Kind::Update, &[_, x, y, w, h, ..]) => Step::Does(Action::Update(Rect { x, y, w, h }), 5),
        (Kind::RectFill, &[_, colour, x, y, w, h, ..]) => Step::Does(
            Action::Fill(Rect { x, y, w, h }, colour, 3),
            6,
        ),
        (Kind::RectCopy, &[_, sx, sy, x, y, w, h, ..]) => Step::Does(
            Action::Copy(Point { x: sx, y: sy }, Rect { x, y, w, h }, 3),
            7,
        ),
        (Kind::RectRopFill, &[_, _, _, _, _, _, (16..), ..]) => Step::Faults(Cause::BadOperand),
        (Kind::RectRopFill, &[_, colour, x, y, w, h, rop, ..]) => Step::Does(
            Action::Fill(Rect { x, y, w, h }, colour, rop),
            7,
        ),
        (Kind::RectRopCopy, &[_, _, _, _, _, _, _, (16..), ..]) => Step::Faults(Cause::BadOperand),
        (Kind::RectRopCopy, &[_, sx, sy, x, y, w, h, rop, ..]) => Step::Does(
            Action::Copy(Point { x: sx, y: sy }, Rect { x, y, w, h }, rop),
            8,
        ),
        (Kind::UpdateVerbose, &[_, x, y, w, h, _, ..]) => Step::Does(
            Action::Update(Rect { x, y, w, h }),
            6,
        ),
        (Kind::Fence, &[_, 0, ..]) => Step::Faults(Cause::BadOperand),
        (Kind::Fence, &[_, number, ..]) => Step::Does(Action::Fence(number), 2),
        (Kind::DefineAlphaCursor, _) => Step::Long(Data::Cursor),
        (Kind::Escape, _) => Step::Long(Data::Escape),
        (Kind::Foreign, _) => Step::Faults(Cause::NotOffered),
        _ => Step::Short,
    }
}

// ---- a command with data behind its head

// Word i of a head, or 0 where it has fewer.
fn word_of(head: &[u32], i: usize) -> u32
    ensures { result ≡ get_or head.now i 0 }
{
    head.get(i).copied().unwrap_or(0)
}

fn shape_in(head: &[u32]) -> Shape
    ensures { result ≡ shape_at head.now 1 }
{
    Shape {
        id: word_of(head, 1),
        hotx: word_of(head, 2),
        hoty: word_of(head, 3),
        w: word_of(head, 4),
        h: word_of(head, 5),
    }
}

// What is found of a command of size words, whose head is good, where n words wait in a ring that carries so many.
fn sized(action: Action, size: u64, n: u64, carries: u64) -> Result<(Action, u64), End>
    ensures { as_turn result ≡ cond (leb size carries) (cond (leb size n) (exec size (some action)) (ends Waiting)) (ends (Fault TooLong)) }
{
    if carries < size {
        return Err(End::Fault(Cause::TooLong));
    }
    if n < size {
        return Err(End::Waiting);
    }
    Ok((action, size))
}

#[tactic(auto, using(crate::proofs::Begun::data_said), unfolding(crate::specs::Commands::entry, crate::proofs::Begun::data_by))]
fn cursor_turn(head: &[u32], n: u64, carries: u64) -> Result<(Action, u64), End>
    requires { 1 ≤ n }
    ensures { as_turn result ≡ finds_in tt carries (begun Cursor head.now n) }
{
    if n < 6 {
        return Err(End::Waiting);
    }
    let shape = shape_in(head);
    if !cursor::shape_good(shape) {
        return Err(End::Fault(Cause::BadOperand));
    }
    let size = 6 + u64::from(shape.w) * u64::from(shape.h);
    sized(Action::Define(shape), size, n, carries)
}

#[tactic(auto, using(crate::proofs::Begun::data_said), unfolding(crate::specs::Commands::entry, crate::proofs::Begun::data_by))]
fn escape_turn(head: &[u32], n: u64, carries: u64) -> Result<(Action, u64), End>
    requires { 1 ≤ n }
    ensures { as_turn result ≡ finds_in tt carries (begun Escape head.now n) }
{
    if n < 3 {
        return Err(End::Waiting);
    }
    let size = 3 + u64::from(word_of(head, 2)).div_ceil(4);
    sized(Action::Nothing, size, n, carries)
}

// What a turn finds in n words that begin with a head of a command with such data: what it executes and the number of the command's words, or how the
// turn ends. The ring carries so many words.
// Rules out: waiting for ever on a command longer than the ring; a bad cursor that waits for its pixels.
#[tactic(auto, using(crate::proofs::Begun::data_none))]
pub fn data_turn(tail: Data, head: &[u32], n: u64, carries: u64) -> Result<(Action, u64), End>
    ensures { as_turn result ≡ finds_in tt carries (begun tail head.now n) }
{
    if n == 0 {
        return Err(End::Drained);
    }
    match tail {
        Data::Cursor => cursor_turn(head, n, carries),
        Data::Escape => escape_turn(head, n, carries),
    }
}
