// Demand 2 for readers: which answers are refusals. When each of them comes is said in specs/Refusing.antt and proved in proofs/Demand2.antt.
#![tactic(auto)]

ghost use Rattle.std.specs.Prelude.{◌≡◌};
ghost use Rattle.refusals.specs.Refusing.{is_refusal};

// Whether an answer number is a refusal, after which nothing has changed.
// Rules out: a run's fault, 10 to 13, taken for a refusal; 34 taken for none.
#[tactic(auto, unfolding(crate::specs::Refusing::is_refusal))]
pub fn is_refusal(answer: u32) -> bool
    ensures { result ≡ is_refusal answer }
{
    (20..=34).contains(&answer)
}
