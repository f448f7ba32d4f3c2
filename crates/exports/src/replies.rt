// What the exported functions give: the number of a refusal, or 0 where nothing was refused; its place; and the value, which is 0 beside a refusal.
ghost use Rattle.std.specs.Prelude.{◌≡◌};
ghost use Rattle.exports.specs.Replies.{result_reply, lane_reply};

use settings::refusals::Refusal;

// Numbers in fields, and 0 for none, since C reads it.
#[repr(C)]
#[derive(Clone, Copy)]
pub struct Reply {
    pub number: u64,
    pub place: u64,
    pub value: u64,
}

// Of the double lane.
#[repr(C)]
#[derive(Clone, Copy)]
pub struct LaneReply {
    pub number: u64,
    pub place: u64,
    pub value: f64,
}

impl From<Result<u64, Refusal>> for Reply {
    ghost from_gives = { λ a r. r ≡ result_reply a };

    fn from(answer: Result<u64, Refusal>) -> Reply {
        match answer {
            Ok(value) => Reply {
                number: 0,
                place: 0,
                value,
            },
            Err(why) => Reply {
                number: why.number(),
                place: why.place(),
                value: 0,
            },
        }
    }
}

// Of a call that counts what it wrote.
impl From<Result<usize, Refusal>> for Reply {
    ghost from_gives = { λ a r. r ≡ result_reply a };

    fn from(answer: Result<usize, Refusal>) -> Reply {
        Reply::from(answer.map(|count| count as u64))
    }
}

impl From<Result<f64, Refusal>> for LaneReply {
    ghost from_gives = { λ a r. r ≡ lane_reply a };

    fn from(answer: Result<f64, Refusal>) -> LaneReply {
        match answer {
            Ok(value) => LaneReply {
                number: 0,
                place: 0,
                value,
            },
            Err(why) => LaneReply {
                number: why.number(),
                place: why.place(),
                value: 0.0,
            },
        }
    }
}
