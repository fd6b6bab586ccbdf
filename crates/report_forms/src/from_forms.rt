// Forms as reports.

ghost use Rattle.std.specs.Prelude.{◌≤◌, length};

use crate::{Failure, hints};
use report_input::LONGEST;
use std::io;
use std::io::{Print, Read};

// One byte more than any form has: a longer text is kept as one that is too long.
pub(crate) const ROOM: usize = 3585;

// What was read of a form: its bytes, as far as there is room, the first five bytes of its last line and that line's length, as far as it is
// asked; its number, its first line and the line that is read.
#[derive(Drop)]
pub(crate) struct Collected {
    pub(crate) bytes: [u8; ROOM],
    pub(crate) length: usize,
    begins: [u8; 5],
    line_length: usize,
    pub(crate) number: u64,
    pub(crate) first_line: u64,
    pub(crate) line: u64,
    ghost in_room: { length ≤ 3585 },
    ghost in_line: { line_length ≤ 5 },
}

impl Collected {
    fn new() -> Collected {
        Collected {
            bytes: [0; ROOM],
            length: 0,
            begins: [0; 5],
            line_length: 0,
            number: 1,
            first_line: 1,
            line: 1,
        }
    }

    fn push(&mut self, c: u8) {
        if self.length < ROOM {
            self.bytes[self.length] = c;
            self.length += 1;
        }
        if self.line_length < 5 {
            self.begins[self.line_length] = c;
            self.line_length += 1;
        }
    }

    // The text's line is the last one.
    pub(crate) fn is_complete(&self) -> bool {
        self.begins == *b"text="
    }

    // No line is there but an empty one.
    fn is_empty(&self) -> bool {
        self.length == 1
    }

    // The last line that something was read of.
    pub(crate) fn last_line(&self) -> u64 {
        if self.line_length == 0 {
            self.line.saturating_sub(1)
        } else {
            self.line
        }
    }

    fn next_line(&mut self) {
        self.line = self.line.saturating_add(1);
        self.begins = [0; 5];
        self.line_length = 0;
    }

    fn next_form(&mut self) {
        self.length = 0;
        self.first_line = self.line;
    }
}

// The report of each form.
pub(crate) fn write_reports<R: Print, E: Print, I: Read>(
    out: &R,
    err: &E,
    from: &mut I,
) -> Result<(), Failure> {
    let mut window = [0u8; 4096];
    let mut collected = Collected::new();
    for _ in 0..u64::MAX {
        match streams::read_once(from, &mut window).map_err(Failure::Unread)? {
            Some(got) => {
                take(out, err, &window[..got], &mut collected).map_err(Failure::Unwritten)?;
            }
            None => break,
        }
    }
    if collected.length > 0 {
        answer(out, err, &collected).map_err(Failure::Unwritten)?;
    }
    Ok(())
}

// Answers the forms that end in these bytes, and begins the next.
fn take<R: Print, E: Print>(
    out: &R,
    err: &E,
    bytes: &[u8],
    collected: &mut Collected,
) -> io::Result<()> {
    for &c in bytes {
        collected.push(c);
        if c == b'\n' {
            end_line(out, err, collected)?;
        }
    }
    Ok(())
}

fn end_line<R: Print, E: Print>(out: &R, err: &E, collected: &mut Collected) -> io::Result<()> {
    let complete = collected.is_complete();
    if complete {
        answer(out, err, collected)?;
        collected.number = collected.number.saturating_add(1);
    }
    collected.next_line();
    if complete | collected.is_empty() {
        collected.next_form();
    }
    Ok(())
}

fn answer<R: Print, E: Print>(out: &R, err: &E, collected: &Collected) -> io::Result<()> {
    let form = &collected.bytes[..collected.length];
    let mut report = [0u8; LONGEST];
    match form_reader::read_form(form, &mut report) {
        Ok(length) => out.write_all(&report[..length]),
        Err(_) => {
            hints::tell_form(err, collected);
            Ok(())
        }
    }
}
