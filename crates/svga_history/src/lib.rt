// Every call of the library for C and Rust as one history on lent words. The theorems are in proofs/; here is what a host does with a packed result,
// by a shift and a mask, as C does it: the library has no method for a half of a number, and `u32::try_from` has a case that cannot come.
#![tactic(auto)]

ghost use Rattle.std.specs.Prelude.{◌≡◌};
ghost use Rattle.svga_history.specs.WordCalls.{answer_in, value_in};

// The answer of a packed result: its high half.
// Rules out: the value for the answer; an answer with bits of the value.
pub fn answer_of(res: u64) -> u32
    ensures { result ≡ answer_in res }
{
    (res >> 32) as u32
}

// The value of a packed result: its low half.
// Rules out: the answer for the value; a value of 31 bits.
pub fn value_of(res: u64) -> u32
    ensures { result ≡ value_in res }
{
    (res & 0xFFFF_FFFF) as u32
}
