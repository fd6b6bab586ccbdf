// Each line of standard input is a date or a minute; standard output has the other of the two, or the refusal. A line is a minute
// where it is a number without zeros in front, and a date else.
#![tactic(auto)]

use calendar::DateError;
use quantities::Minute;
use std::io;
use std::io::{Print, Read};

// What was read of a line: its first sixteen bytes, its length, counted to 17, and its number, if it is one. There is no heap, so of a longer
// line nothing is kept but that it is longer.
#[derive(Clone, Copy)]
struct Line {
    text: [u8; 16],
    length: usize,
    number: Option<u32>,
}

// What ends the answers before the input does.
enum Failure {
    Unread(io::Error),
    Unwritten(io::Error),
}

fn main(rt: HostRuntime) {
    match answer_input(&rt, &mut rt.stdin()) {
        Ok(()) => {}
        Err(Failure::Unread(error)) => {
            streams::fail(&rt, "typed_dates: standard input can't be read", &error);
        }
        Err(Failure::Unwritten(error)) => {
            streams::fail(&rt, "typed_dates: standard output can't be written", &error);
        }
    }
}

// A proved loop has to end, so it counts the turns that are left, more than any input needs. After a failure nothing is answered.
fn answer_input<R: Print, I: Read>(rt: &R, from: &mut I) -> Result<(), Failure> {
    let mut window = [0u8; 4096];
    let mut line = Line::EMPTY;
    for _ in 0..u64::MAX {
        match streams::read_once(from, &mut window).map_err(Failure::Unread)? {
            Some(got) => answer_lines(rt, &window[..got], &mut line).map_err(Failure::Unwritten)?,
            None => break,
        }
    }
    if line.length > 0 {
        answer(rt, line).map_err(Failure::Unwritten)?;
    }
    Ok(())
}

// Answers the lines that end in these bytes, and begins the next.
fn answer_lines<R: Print>(rt: &R, bytes: &[u8], line: &mut Line) -> io::Result<()> {
    for &c in bytes {
        if c == b'\n' {
            answer(rt, *line)?;
            *line = Line::EMPTY;
        } else {
            line.push(c);
        }
    }
    Ok(())
}

impl Line {
    const EMPTY: Line = Line {
        text: [0; 16],
        length: 0,
        number: None,
    };

    fn push(&mut self, c: u8) {
        self.number = self.number_with(c);
        if self.length < 16 {
            self.text[self.length] = c;
        }
        self.length = self.length.saturating_add(1).min(17);
    }

    // The number with one more digit, where both are there. One too large for any minute stays so. `parse` takes a sign and zeros in front.
    fn number_with(&self, c: u8) -> Option<u32> {
        if !c.is_ascii_digit() {
            return None;
        }
        let digit = u32::from(c - b'0');
        if self.length == 0 {
            return Some(digit);
        }
        let number = self.number.filter(|n| *n != 0)?;
        Some(number.saturating_mul(10).saturating_add(digit))
    }

    fn minute(&self) -> Result<Minute, DateError> {
        if self.length > 16 {
            return Err(DateError::NoPrint);
        }
        calendar::read_date(&self.text[..self.length])
    }
}

fn answer<R: Print>(rt: &R, line: Line) -> io::Result<()> {
    match line.number {
        Some(number) => print_date(rt, Minute(number)),
        None => print_minute(rt, line),
    }
}

fn print_date<R: Print>(rt: &R, minute: Minute) -> io::Result<()> {
    let mut date = *b"................\n";
    match calendar::put_date(minute, &mut date) {
        Ok(()) => rt.write_all(&date),
        Err(error) => print_refusal(rt, error),
    }
}

fn print_minute<R: Print>(rt: &R, line: Line) -> io::Result<()> {
    match line.minute() {
        Ok(minute) => rt.println(minute.0),
        Err(error) => print_refusal(rt, error),
    }
}

fn print_refusal<R: Print>(rt: &R, error: DateError) -> io::Result<()> {
    println!(rt; "refused {}", u8::from(error))
}
