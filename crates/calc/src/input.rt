// Lines of the input, which comes in pieces of any size. An answer is written before the next line is read.
use crate::answer::answer;
use crate::held::{Held, first_held};
use crate::limits::ANSWER;
use texts::putting::put;

// What is held, how much of the open line is there, whether it is longer than there is room for, and whether somebody takes the answers. The buffers of the
// line and of the answer are no fields: the toolchain proves no call that is lent two fields of one `&mut self`.
#[derive(Clone, Copy)]
pub struct Input {
    held: Held,
    size: usize,
    is_long: bool,
    is_heard: bool,
}

impl Input {
    pub fn first() -> Input {
        Input {
            held: first_held(),
            size: 0,
            is_long: false,
            is_heard: true,
        }
    }

    pub fn is_heard(&self) -> bool {
        self.is_heard
    }

    // The next bytes of the input.
    pub fn take_piece(&mut self, rt: &impl Print, piece: &[u8], line: &mut [u8], out: &mut [u8]) {
        for byte in piece {
            self.take_byte(rt, *byte, line, out);
        }
    }

    fn take_byte(&mut self, rt: &impl Print, byte: u8, line: &mut [u8], out: &mut [u8]) {
        if byte == b'\n' {
            self.end_line(rt, line, out);
        } else if self.size < line.len() {
            line[self.size] = byte;
            self.size += 1;
        } else {
            self.is_long = true;
        }
    }

    // The input has ended; a last line may lack its line end.
    pub fn end(&mut self, rt: &impl Print, line: &[u8], out: &mut [u8]) {
        if 0 < self.size {
            self.end_line(rt, line, out);
        }
    }

    // The line's answer is written, and the next line is begun.
    fn end_line(&mut self, rt: &impl Print, line: &[u8], out: &mut [u8]) {
        if self.is_heard {
            let size = self.answer(line, out);
            self.is_heard = write_answer(rt, size, out);
        }
        self.size = 0;
        self.is_long = false;
    }

    fn answer(&mut self, line: &[u8], out: &mut [u8]) -> usize {
        if self.is_long {
            return put(b"too long", out, 0);
        }
        answer(&mut self.held, &line[..self.size.min(line.len())], out)
    }
}

// The first bytes of the buffer and a line end. An answer that had no room is not cut off.
fn write_answer(rt: &impl Print, size: usize, out: &mut [u8]) -> bool {
    let mut size = size;
    if ANSWER < size {
        size = put(b"answer too long: digest", out, 0);
    }
    let end = put(b"\n", out, size);
    if out.len() < end {
        return false;
    }
    rt.write_all(&out[..end]).is_ok()
}
