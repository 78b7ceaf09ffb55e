// Document 01's numbers to hold against the definitions, and its impostors. The theorems are in proofs/.
#![tactic(auto)]

ghost use Rattle.std.specs.Prelude.{◌≡◌, length};
ghost use Rattle.cases.specs.Cases.{cases};

// How many cases the list has.
// Rules out: a case left out; one counted twice.
#[tactic(auto, unfolding(crate::specs::Cases::cases))]
pub fn how_many() -> u32
    ensures { result ≡ length cases }
{
    10
}
