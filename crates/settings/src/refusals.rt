// The refusals under their names: each has a number, and a place, which is the index of what is bad, and 0 where a cause has no index of its own.
ghost use Rattle.std.specs.Prelude.{◌≡◌};
ghost use Rattle.settings.specs.Refusals.{number_of, place_told, InNumbers};

#[derive(Clone, Copy)]
pub enum Refusal {
    Modulus,
    Length,
    Batch,
    Width,
    Narrow,
    Room,
    None,
    // The index of the first bad coefficient.
    Coefficient(usize),
    Shape,
    Short,
    // The index of the first bad word of a list, and 0 of a word alone.
    Word(usize),
    Record,
    Full,
    NoTable,
    // The first byte that differs, or where the buffer ends.
    Stale(usize),
    Lane,
    Job,
    Overflow,
    // Of labels.
    Level,
    Few,
    Many,
}

impl Refusal {
    // Each number stands here once.
    pub fn number(self) -> u64
        ensures { result ≡ number_of self }
    {
        match self {
            Refusal::Modulus => 1,
            Refusal::Length => 2,
            Refusal::Batch => 3,
            Refusal::Width => 4,
            Refusal::Narrow => 5,
            Refusal::Room => 6,
            Refusal::None => 7,
            Refusal::Coefficient(_) => 8,
            Refusal::Shape => 9,
            Refusal::Short => 10,
            Refusal::Word(_) => 11,
            Refusal::Record => 12,
            Refusal::Full => 13,
            Refusal::NoTable => 14,
            Refusal::Stale(_) => 15,
            Refusal::Lane => 16,
            Refusal::Job => 17,
            Refusal::Overflow => 18,
            Refusal::Level => 19,
            Refusal::Few => 20,
            Refusal::Many => 21,
        }
    }

    pub fn place(self) -> u64
        ensures { result ≡ place_told self }
    {
        match self {
            Refusal::Coefficient(i) | Refusal::Word(i) | Refusal::Stale(i) => i as u64,
            _ => 0,
        }
    }
}

// A refusal in numbers: any two, as a line and a job's state have them.
#[derive(Clone, Copy)]
pub struct Numbered {
    pub number: u64,
    pub place: u64,
}

impl From<Refusal> for Numbered {
    ghost from_gives = { λ why r. InNumbers why r };

    fn from(why: Refusal) -> Numbered {
        Numbered {
            number: why.number(),
            place: why.place(),
        }
    }
}
