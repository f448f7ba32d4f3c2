// The job program: it reads a job from standard input and writes its line to standard output, and nothing else.
#![tactic(auto)]

ghost use Rattle.std.specs.Prelude.{◌≡◌, ◌++◌, length, drop};
ghost use Rattle.jobs.specs.States.{line_of};
ghost use Rattle.jobs.specs.Texts.{longest_line};

use jobs::state::{LONGEST_LINE, Stage, State, finish, start, take};
use std::io;
use std::io::Read;

// How much is read at a time.
const PIECE: usize = 65536;

fn main(rt: HostRuntime) -> io::Result<()> {
    let state = read_job(&mut rt.stdin())?;
    write_line(&rt, state)
}

// A proved loop has to end, and nothing says that the input does. So the loop counts its turns, up to a number that no run uses up.
fn read_job<R: Read>(input: &mut R) -> io::Result<State> {
    let mut piece = [0u8; PIECE];
    let mut state = start();
    for _ in 0..u64::MAX {
        let size = input.read(&mut piece)?;
        if size == 0 {
            break;
        }
        state = take(state, &piece[..size]);
        if !is_open(state) {
            break;
        }
    }
    Ok(state)
}

// Bytes after a refusal cannot change the line, and are left unread.
fn is_open(state: State) -> bool {
    !matches!(state.stage, Stage::Refused(_))
}

fn write_line(rt: &impl Print, state: State) -> io::Result<()> {
    let mut line = [0u8; LONGEST_LINE];
    let size = put_line(state, &mut line);
    rt.write_all(&line[..size])
}

// The line, and its length. No line is longer than the longest, so finish does not refuse, and there is always a line to write.
fn put_line(state: State, line: &mut [u8]) -> usize
    requires { length line.old ≡ longest_line }
    ensures { (result ≡ length (line_of state)) × (line.new ≡ line_of state ++ drop result line.old) }
{
    finish(state, line).unwrap_or(0)
}
