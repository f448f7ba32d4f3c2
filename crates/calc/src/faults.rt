// What is wrong with a line, and where; and why a line that can be read has no answer but a refusal.
use settings::refusals::Refusal;
use texts::reading::Stop;

#[derive(Clone, Copy)]
pub enum Fault {
    // No call: what stands there is none of what may stand there, or it is missing.
    What(usize),
    // A number that is too large for its type.
    Large(usize),
    // A number that the list has no room for.
    Many(usize),
}

impl Fault {
    // The same fault in a longer text, in which what was read starts later.
    pub fn moved(self, start: usize) -> Fault {
        match self {
            Fault::What(i) => Fault::What(start.saturating_add(i)),
            Fault::Large(i) => Fault::Large(start.saturating_add(i)),
            Fault::Many(i) => Fault::Many(start.saturating_add(i)),
        }
    }
}

impl From<Stop> for Fault {
    fn from(stop: Stop) -> Fault {
        match stop {
            Stop::Stray(i) => Fault::What(i),
            Stop::Large(i) => Fault::Large(i),
            Stop::Many(i) => Fault::Many(i),
        }
    }
}

// A line that cannot be read, or a call that is refused.
#[derive(Clone, Copy)]
pub enum Failure {
    Fault(Fault),
    Refused(Refusal),
}

impl From<Fault> for Failure {
    fn from(fault: Fault) -> Failure {
        Failure::Fault(fault)
    }
}

impl From<Refusal> for Failure {
    fn from(why: Refusal) -> Failure {
        Failure::Refused(why)
    }
}
