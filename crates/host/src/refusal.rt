// Why an operation is refused.
ghost use Rattle.std.specs.Prelude.{◌≡◌};
ghost use Rattle.host.specs.HostOperations.{refusal_number};

// A refused operation: the registers are out of range, there is no such operation, or it does not take the operand.
#[derive(Clone, Copy, Debug, PartialEq, Eq)]
pub enum Refusal {
    RegistersOutOfRange,
    UnknownOperation,
    OperandOutOfRange,
}

// The number that document 01 gives a refusal.
impl From<Refusal> for u8 {
    ghost from_gives = { λ refusal number. number ≡ refusal_number refusal };

    fn from(refusal: Refusal) -> u8 {
        match refusal {
            Refusal::RegistersOutOfRange => 4,
            Refusal::UnknownOperation => 5,
            Refusal::OperandOutOfRange => 6,
        }
    }
}
