// The verbs, and what each takes.
use crate::given::Given;
use crate::places::{part, word_end};
use texts::putting::put;

#[derive(Clone, Copy, PartialEq, Eq)]
pub enum Verb {
    Choose,
    Check,
    Coefficients,
    First,
    Pack,
    Unpack,
    Shifted,
    Reduce,
    Word,
    Words,
    Product,
    Build,
    ByTable,
    Pick,
    Fresh,
    Feed,
    Close,
    Record,
    Make,
    Lane,
    LaneSum,
    LaneReduce,
    Label,
    Passes,
    Start,
    Take,
    Finish,
    Job,
    Help,
    // `record`, `lane` and `job` where a list follows.
    SetRecord,
    SetLane,
    SetJob,
}

// The names, in the order in which `help` tells them.
const NAMES: [(&'static [u8], Verb); 29] = [
    (b"choose", Verb::Choose),
    (b"check", Verb::Check),
    (b"coefficients", Verb::Coefficients),
    (b"first", Verb::First),
    (b"pack", Verb::Pack),
    (b"unpack", Verb::Unpack),
    (b"shifted", Verb::Shifted),
    (b"reduce", Verb::Reduce),
    (b"word", Verb::Word),
    (b"words", Verb::Words),
    (b"product", Verb::Product),
    (b"build", Verb::Build),
    (b"bytable", Verb::ByTable),
    (b"pick", Verb::Pick),
    (b"fresh", Verb::Fresh),
    (b"feed", Verb::Feed),
    (b"close", Verb::Close),
    (b"record", Verb::Record),
    (b"make", Verb::Make),
    (b"lane", Verb::Lane),
    (b"lanesum", Verb::LaneSum),
    (b"lanereduce", Verb::LaneReduce),
    (b"label", Verb::Label),
    (b"passes", Verb::Passes),
    (b"start", Verb::Start),
    (b"take", Verb::Take),
    (b"finish", Verb::Finish),
    (b"job", Verb::Job),
    (b"help", Verb::Help),
];

// What `help` answers.
pub fn help_line(out: &mut [u8]) -> usize {
    let mut at = put(b"verbs:", out, 0);
    for (name, _) in NAMES {
        let space = put(b" ", out, at);
        at = put(name, out, space);
    }
    at
}

// The verb at place i. `record`, `lane` and `job` show what is held, and set it where a list follows.
pub fn verb_at(text: &[u8], i: usize, is_set: bool) -> Option<Verb> {
    let word = part(text, i, word_end(text, i));
    let (_, verb) = *NAMES.iter().find(|(name, _)| *name == word)?;
    Some(match verb {
        Verb::Record if is_set => Verb::SetRecord,
        Verb::Lane if is_set => Verb::SetLane,
        Verb::Job if is_set => Verb::SetJob,
        _ => verb,
    })
}

// How many numbers a verb takes, how many lists, what these are made of, and whether the call is lent something to write into.
#[derive(Clone, Copy)]
pub struct Form {
    pub numbers: usize,
    pub lists: usize,
    pub first: Option<Given>,
    pub second: Option<Given>,
    pub writes: bool,
}

impl Form {
    fn writing(self) -> Form {
        Form {
            writes: true,
            ..self
        }
    }
}

impl Verb {
    pub fn form(self) -> Form {
        match self {
            Verb::Choose => plain(3),
            Verb::Check | Verb::Fresh | Verb::Make => plain(4),
            Verb::Coefficients => two(1, Given::Coefficients, Given::Coefficients),
            Verb::First | Verb::Passes => one(1, Given::Coefficients),
            Verb::Pack => one(4, Given::Coefficients),
            Verb::Unpack | Verb::Shifted => one(4, Given::OneWord).writing(),
            Verb::Reduce | Verb::Word => one(4, Given::OneWord),
            Verb::Words => one(4, Given::Words),
            Verb::Product => two(4, Given::Coefficients, Given::Coefficients).writing(),
            Verb::Build => plain(4).writing(),
            Verb::ByTable => two(4, Given::Bytes, Given::Words).writing(),
            Verb::Pick => two(4, Given::Bytes, Given::Bytes),
            Verb::Label => one(1, Given::Coefficients).writing(),
            Verb::Feed | Verb::LaneSum => two(0, Given::Coefficients, Given::Coefficients),
            Verb::Close | Verb::Finish => plain(0).writing(),
            Verb::SetRecord => one(6, Given::Residues),
            Verb::SetLane => Form {
                lists: 3,
                ..one(4, Given::Double)
            },
            Verb::LaneReduce => one(0, Given::Double),
            Verb::Take => one(0, Given::Bytes),
            Verb::SetJob => one(5, Given::HeldBytes),
            Verb::Record | Verb::Lane | Verb::Start | Verb::Job | Verb::Help => plain(0),
        }
    }
}

fn plain(numbers: usize) -> Form {
    Form {
        numbers,
        lists: 0,
        first: None,
        second: None,
        writes: false,
    }
}

fn one(numbers: usize, first: Given) -> Form {
    Form {
        lists: 1,
        first: Some(first),
        ..plain(numbers)
    }
}

fn two(numbers: usize, first: Given, second: Given) -> Form {
    Form {
        lists: 2,
        second: Some(second),
        ..one(numbers, first)
    }
}
