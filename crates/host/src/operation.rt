// The host operations, and which operands each takes.
ghost use Rattle.std.specs.Prelude.{◌≡◌};
ghost use Rattle.host.specs.HostOperations.{operation_number, Names, limit, taken};

use crate::refusal::Refusal;

// The operations in the order of their numbers: 1 to 12, the reads 20 to 26, and the character generator's 30 and 31.
#[derive(Clone, Copy, Debug, PartialEq, Eq)]
pub enum Operation {
    Start,
    Pointer,
    Conditions,
    Resume,
    Clear,
    StopRequest,
    PenLight,
    Press,
    ClearGroup,
    ManualInterrupt,
    ManualInterruptOff,
    Idle,
    ReadPointer,
    ReadX,
    ReadY,
    ReadAddress,
    ReadStatusOne,
    ReadStatusTwo,
    ReadButtons,
    SetGenerator,
    ReadGenerator,
}

impl From<Operation> for u32 {
    ghost from_gives = { λ operation number. number ≡ operation_number operation };

    fn from(operation: Operation) -> u32 {
        match operation {
            Operation::Start => 1,
            Operation::Pointer => 2,
            Operation::Conditions => 3,
            Operation::Resume => 4,
            Operation::Clear => 5,
            Operation::StopRequest => 6,
            Operation::PenLight => 7,
            Operation::Press => 8,
            Operation::ClearGroup => 9,
            Operation::ManualInterrupt => 10,
            Operation::ManualInterruptOff => 11,
            Operation::Idle => 12,
            Operation::ReadPointer => 20,
            Operation::ReadX => 21,
            Operation::ReadY => 22,
            Operation::ReadAddress => 23,
            Operation::ReadStatusOne => 24,
            Operation::ReadStatusTwo => 25,
            Operation::ReadButtons => 26,
            Operation::SetGenerator => 30,
            Operation::ReadGenerator => 31,
        }
    }
}

impl TryFrom<u32> for Operation {
    type Error = Refusal;

    ghost try_from_gives = { Names };

    #[tactic(auto, unfolding(crate::specs::HostOperations::known))]
    fn try_from(number: u32) -> Result<Self, Refusal> {
        match number {
            1 => Ok(Operation::Start),
            2 => Ok(Operation::Pointer),
            3 => Ok(Operation::Conditions),
            4 => Ok(Operation::Resume),
            5 => Ok(Operation::Clear),
            6 => Ok(Operation::StopRequest),
            7 => Ok(Operation::PenLight),
            8 => Ok(Operation::Press),
            9 => Ok(Operation::ClearGroup),
            10 => Ok(Operation::ManualInterrupt),
            11 => Ok(Operation::ManualInterruptOff),
            12 => Ok(Operation::Idle),
            20 => Ok(Operation::ReadPointer),
            21 => Ok(Operation::ReadX),
            22 => Ok(Operation::ReadY),
            23 => Ok(Operation::ReadAddress),
            24 => Ok(Operation::ReadStatusOne),
            25 => Ok(Operation::ReadStatusTwo),
            26 => Ok(Operation::ReadButtons),
            30 => Ok(Operation::SetGenerator),
            31 => Ok(Operation::ReadGenerator),
            _ => Err(Refusal::UnknownOperation),
        }
    }
}

impl Operation {
    // The largest operand that an operation takes.
    #[tactic(auto, unfolding(crate::specs::HostOperations::limit, words::specs::Words::pick))]
    fn limit(self) -> u32
        ensures { result ≡ limit (operation_number self) }
    {
        match self {
            Operation::Start => 32767,
            Operation::Pointer => 4095,
            Operation::Conditions => 4095,
            Operation::Press => 11,
            Operation::ClearGroup => 1,
            Operation::SetGenerator => 447,
            _ => 0,
        }
    }

    // Whether an operation takes an operand: 30 has one more bit that is no register's, bit 5.
    #[tactic(auto, unfolding(crate::specs::HostOperations::taken))]
    pub(crate) fn takes(self, operand: u32) -> bool
        ensures { result ≡ taken (operation_number self) operand }
    {
        (operand <= self.limit()) & !((self == Operation::SetGenerator) & (operand / 64 % 2 == 1))
    }
}
