// The console's answers, and their text.
#![tactic(auto)]

ghost use Rattle.std.specs.Prelude.{◌+◌, ◌≤◌, ◌++◌, length};
ghost use Rattle.console_answers.specs.Text.{decimal_of, text_of};
ghost use Rattle.console_answers.specs.Put.{Put, shown};
ghost use Rattle.console_answers.specs.Parts.{numbers_of, Puts};

// What a request is answered with: a register and the answer or its value, a run's answer and count, a place of the screen and its pixel.
#[derive(Clone, Copy, PartialEq, Eq)]
pub enum ConsoleAnswer {
    Written(u32, u32),
    Value(u32, u32),
    Ran(u32, u32),
    Shown(u32, u32),
    Full,
    Nothing,
    Bad,
}

// The longest text of an answer, in bytes.
const LONGEST: usize = 26;

// A buffer whose first `len` bytes are text. It is no `fmt::Write`, nor an answer `Display`: what `write!` says holds only where it answers
// `Ok`, and it never says that it does.
#[derive(Drop)]
struct Text<'a> {
    bytes: &'a mut [u8],
    len: usize,
}

impl Text<'_> {
    fn put(&mut self, text: &[u8])
        requires { self.old.len + length text.now ≤ length self.old.bytes.now }
        ensures { Puts text.now self.old self.new }
    {
        let end = self.len + text.len();
        let bytes = &mut *self.bytes;
        bytes[self.len..end].copy_from_slice(text);
        self.len = end;
    }

    // The digits of a number: those of its tens, and its ones.
    #[tactic(auto, using(crate::proofs::Decimal::digits))]
    fn put_number(&mut self, n: u32)
        requires { self.old.len + length (decimal_of n) ≤ length self.old.bytes.now }
        ensures { Puts (decimal_of n) self.old self.new }
    {
        if n < 10 {
            return self.put(&[b'0' + n as u8]);
        }
        self.put_number(n / 10);
        self.put(&[b'0' + (n % 10) as u8]);
    }

    // A line of a word and two numbers.
    fn put_line(&mut self, word: &[u8], first: u32, second: u32)
        requires { self.old.len + length word.now + 23 ≤ length self.old.bytes.now }
        ensures { Puts (word.now ++ numbers_of first second) self.old self.new }
    {
        self.put(word);
        self.put(b"\t");
        self.put_number(first);
        self.put(b"\t");
        self.put_number(second);
        self.put(b"\n");
    }

    #[tactic(auto, using(crate::proofs::Putting::printed), unfolding(crate::specs::Text::text_of, crate::specs::Text::line_of))]
    fn put_answer(&mut self, answer: ConsoleAnswer)
        requires { self.old.len + 26 ≤ length self.old.bytes.now }
        ensures { Puts (text_of answer) self.old self.new }
    {
        match answer {
            ConsoleAnswer::Written(index, taken) => self.put_line(b"w", index, taken),
            ConsoleAnswer::Value(index, value) => self.put_line(b"r", index, value),
            ConsoleAnswer::Shown(place, pixel) => self.put_line(b"s", place, pixel),
            ConsoleAnswer::Ran(end, count) => self.put_line(b"run", end, count),
            ConsoleAnswer::Full => self.put(b"full\n"),
            ConsoleAnswer::Bad => self.put(b"bad\n"),
            ConsoleAnswer::Nothing => {}
        }
    }
}

// Puts an answer's text behind the first at bytes of out, and answers how many bytes there are then; every other byte of out is as it was.
// An answer has at most 26 bytes; where out has no room for so many, nothing is put.
// Rules out: a number with leading zeros; a text that is cut short for want of room; a byte behind the text that changes.
#[tactic(auto, using(crate::proofs::Putting::printed), unfolding(crate::specs::Put::shown))]
pub fn print(answer: ConsoleAnswer, out: &mut [u8], at: usize) -> usize
    ensures { Put out.old at (shown (length out.old) at answer) out.new result }
{
    if out.len() < LONGEST || out.len() - LONGEST < at {
        return at;
    }
    let mut text = Text {
        bytes: out,
        len: at,
    };
    text.put_answer(answer);
    text.len
}
