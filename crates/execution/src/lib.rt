// How straight execution and runs end, with document 01's answer numbers. The theory over them is in specs and proofs.
#![tactic(auto)]

ghost use Rattle.std.specs.Prelude.{◌≡◌};
ghost use Rattle.execution.specs.Straight.{cause_number, end_number};

// Why a fault stands.
#[derive(Clone, Copy, PartialEq, Eq)]
pub enum Cause {
    NotOffered,
    BadOperand,
    TooLong,
    BadNext,
}

// How a turn ends that executes nothing.
#[derive(Clone, Copy, PartialEq, Eq)]
pub enum End {
    Drained,
    Waiting,
    Fault(Cause),
}

impl From<Cause> for u32 {
    ghost from_gives = { λ cause number. number ≡ cause_number cause };

    // Rules out: 12 for a bad operand; 13 for a command that is not offered.
    fn from(cause: Cause) -> u32 {
        match cause {
            Cause::NotOffered => 10,
            Cause::BadOperand => 11,
            Cause::TooLong => 12,
            Cause::BadNext => 13,
        }
    }
}

impl From<End> for u32 {
    ghost from_gives = { λ end number. number ≡ end_number end };

    // Rules out: 1 for a drained ring; 0 for a fault.
    fn from(end: End) -> u32 {
        match end {
            End::Drained => 0,
            End::Waiting => 1,
            End::Fault(cause) => u32::from(cause),
        }
    }
}
