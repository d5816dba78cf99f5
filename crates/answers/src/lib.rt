// This paper's numbers for an answer, the same five for an operation and for a run.
#![tactic(auto)]

ghost use Rattle.std.specs.Prelude.{◌≡◌};
ghost use Rattle.answers.specs.Answers.{refused_numbers, done_numbers, ended_numbers};

#[derive(Clone, Copy)]
pub struct Numbers {
    // An ending's number or a refusal's.
    pub ending: u8,
    pub word: u16,
    pub beats: u32,
    pub points: usize,
    // The word that the fence stopped, where the ending is 16 or 19.
    pub address: u16,
}

// The numbers of a refusal.
pub fn refused_numbers(number: u8) -> Numbers
    ensures { result ≡ refused_numbers number }
{
    Numbers {
        ending: number,
        word: 0,
        beats: 0,
        points: 0,
        address: 0,
    }
}

// The numbers of an operation that was done.
pub fn done_numbers(word: u16) -> Numbers
    ensures { result ≡ done_numbers word }
{
    Numbers {
        ending: 0,
        word,
        beats: 0,
        points: 0,
        address: 0,
    }
}

// The numbers of a run that ended.
pub fn ended_numbers(ending: u8, beats: u32, points: usize, address: u16) -> Numbers
    ensures { result ≡ ended_numbers ending beats points address }
{
    Numbers {
        ending,
        word: 0,
        beats,
        points,
        address,
    }
}
