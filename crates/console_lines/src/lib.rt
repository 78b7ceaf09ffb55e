// A line of the console, taken apart: a request, or a bad line.
#![tactic(auto)]

ghost use Rattle.std.specs.Prelude.{◌≡◌, ◌==◌, [], ◌∷◌, position, MatchOption};
ghost use Rattle.console_lines.specs.Lines.{fields, number_of, with_one, with_two, request_of};

// What a line asks for.
#[derive(Clone, Copy, PartialEq, Eq)]
pub enum Request {
    Write(u32, u32),
    Read(u32),
    Append(u32),
    Pixel(u32, u32),
    Run(u32),
    Screen(u32),
    Bad,
}

// The largest place of a pixel.
const LAST_PLACE: u32 = 1023;

// The number of a field: one to ten digits, at most 4294967295. `parse` takes a '+' and leading zeros past ten digits, so it is not the rule.
fn number_of(field: &[u8]) -> Option<u32>
    ensures { result ≡ number_of field.now }
{
    if field.is_empty() || 10 < field.len() {
        return None;
    }
    let mut value = 0u64;
    for b in field {
        if !b.is_ascii_digit() {
            return None;
        }
        value = value * 10 + u64::from(*b - b'0');
    }
    u32::try_from(value).ok()
}

// The request of a word and one field's number.
#[tactic(auto, using(crate::proofs::Words::words), unfolding(crate::specs::Lines::with_one))]
fn with_one(word: &[u8], number: Option<u32>) -> Request
    ensures { result ≡ with_one word.now number }
{
    let Some(n) = number else {
        return Request::Bad;
    };
    match word {
        b"r" => Request::Read(n),
        b"p" => Request::Append(n),
        b"run" => Request::Run(n),
        b"s" if n <= LAST_PLACE => Request::Screen(n),
        _ => Request::Bad,
    }
}

// The request of a word and two fields' numbers.
#[tactic(auto, using(crate::proofs::Words::words), unfolding(crate::specs::Lines::with_two))]
fn with_two(word: &[u8], first: Option<u32>, second: Option<u32>) -> Request
    ensures { result ≡ with_two word.now first second }
{
    let (Some(m), Some(n)) = (first, second) else {
        return Request::Bad;
    };
    match word {
        b"w" => Request::Write(m, n),
        b"f" if m <= LAST_PLACE => Request::Pixel(m, n),
        _ => Request::Bad,
    }
}

// The place of a line's first tab.
fn first_tab(line: &[u8]) -> Option<usize>
    ensures { result ≡ position (λ b. b == 9) line.now }
{
    line.iter().position(|b| *b == b'\t')
}

// The first field of a line, and what follows its tab.
fn split_tab(line: &[u8]) -> Option<(&[u8], &[u8])>
    ensures { MatchOption result (fields line.now ≡ line.now ∷ []) (λ p. fields line.now ≡ p.0.now ∷ fields p.1.now) }
{
    let tab = first_tab(line)?;
    Some((&line[..tab], &line[tab + 1..]))
}

// The request of a line, its newline left out.
// Rules out: a number of eleven digits or above 4294967295 taken; a place above 1,023 taken; a tab at the end overlooked.
#[tactic(auto, using(crate::proofs::Fields::four_fields), unfolding(crate::specs::Lines::request_of, crate::specs::Lines::request_in))]
pub fn request_of(line: &[u8]) -> Request
    ensures { result ≡ request_of line.now }
{
    let Some((word, rest)) = split_tab(line) else {
        return Request::Bad;
    };
    let Some((a, b)) = split_tab(rest) else {
        return with_one(word, number_of(rest));
    };
    match split_tab(b) {
        Some(_) => Request::Bad,
        None => with_two(word, number_of(a), number_of(b)),
    }
}
