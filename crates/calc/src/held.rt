// What calc holds from line to line: a running record, a lane record, the state of a job.
use jobs::state::{State, start};
use lane::Lane;
use packed::running::{Record, fresh};
use settings::setting::Setting;

#[derive(Clone, Copy)]
pub struct Held {
    pub running: Record,
    pub lane: Lane,
    pub job: State,
}

pub fn first_held() -> Held {
    let setting = Setting {
        p: 0,
        k: 0,
        t: 0,
        n: 0,
    };
    Held {
        running: fresh(setting).running,
        lane: Lane {
            setting,
            p: 0.0,
            q: 0.0,
            inverse: 0.0,
        },
        job: start(),
    }
}
