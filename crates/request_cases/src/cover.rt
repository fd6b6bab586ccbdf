// A1: which part breaks cover. Deratings in parts of a quarter of an hour from D+60 on, each on fresh roster A.
ghost use Rattle.std.specs.Prelude.{◌≡◌, ◌+◌, ◌*◌};

use crate::lines::print_line;
use quantities::{Minute, Period, SignedKilowatt};
use report::{Operation, PART_SIZE, PARTS_START, Part, RecordType};
use sent_reports::{D, derating_over, fresh_register};
use std::{fmt, io};

// Where a part has its start and its end.
const START: usize = 4;

const END: usize = 8;

// A part's number, from 1, in a list of so many.
#[derive(Clone, Copy)]
struct Place {
    number: u16,
    count: u16,
}

impl fmt::Display for Place {
    fn fmt<W: fmt::Write>(&self, f: &mut fmt::Formatter<W>) -> fmt::Result {
        write!(f, "part {} of {}", self.number, self.count)
    }
}

pub(crate) fn cases(rt: &impl Print) -> io::Result<()> {
    println!(rt; "Which part breaks cover: parts of a quarter of an hour from D+60 on")?;
    for (number, count) in [(57, 90), (1, 100), (100, 100)] {
        altered_at(rt, Place { number, count })?;
    }
    told_elsewhere(rt)?;
    other_periods(rt)?;
    no_list(rt)
}

// Where so many parts end.
fn end_of(parts: u16) -> u32
    ensures { result ≡ 13760700 + 15 * parts }
{
    D + 60 + 15 * (parts as u32)
}

// Where a part lies in the report.
fn offset_of(number: u16) -> usize
    ensures { result ≡ 32 + 16 * number }
{
    PARTS_START + PART_SIZE * (number as usize) - PART_SIZE
}

fn put_part(report: &mut [u8], number: u16) {
    let end = end_of(number);
    let period = Period {
        start: Minute(end - 15),
        end: Minute(end),
    };
    let power = SignedKilowatt(20000);
    fields::put_bytes(
        report,
        offset_of(number),
        &encoder::part_bytes(Part { period, power }),
    );
}

// A derating of so many quarter hours, in as many parts, as far as there is room.
fn compose(buffer: &mut [u8], count: u16) -> &mut [u8] {
    let s = derating_over(1, D + 10, end_of(0), end_of(count));
    sent_reports::compose(buffer, s);
    fields::put_u16(buffer, 14, count);
    // By number: what a part holds goes by it.
    for number in 1..=count {
        put_part(buffer, number);
    }
    let end = report::text_after(count);
    fields::put_u16(buffer, end - 2, 0x5854);
    let end = end.min(buffer.len());
    &mut buffer[..end]
}

// Such a derating, but one number in it is another.
fn altered(rt: &impl Print, count: u16, at: usize, value: u32) -> io::Result<()> {
    let mut buffer = [0u8; 1850];
    let report = compose(&mut buffer, count);
    fields::put_u32(report, at, value);
    print_line(rt, &mut fresh_register(), report)
}

// Lists in which one number of a part is another.
fn altered_parts(rt: &impl Print, p: Place, all: &[(&str, usize, u32)]) -> io::Result<()> {
    for (words, at, value) in all {
        print!(rt; "{p} {words}: ")?;
        altered(rt, p.count, *at, *value)?;
    }
    Ok(())
}

// A part as it should be, and each way in which it breaks cover itself.
fn altered_at(rt: &impl Print, p: Place) -> io::Result<()> {
    let start = offset_of(p.number) + START;
    let end = offset_of(p.number) + END;
    let due = end_of(p.number) - 15;
    let late = end_of(p.count) + 15;
    let all = [
        ("starts where it is due", start, due),
        ("starts a minute late", start, due + 1),
        ("starts a minute early", start, due - 1),
        ("ends where it starts", end, due),
        ("ends before it starts", end, due - 15),
        ("ends after the period", end, late),
    ];
    altered_parts(rt, p, &all)
}

// An end within the period: the next part, or question 7, says so.
fn told_elsewhere(rt: &impl Print) -> io::Result<()> {
    let p = Place {
        number: 57,
        count: 90,
    };
    let end = offset_of(p.number) + END;
    let due = end_of(p.number);
    let all = [
        (
            "ends with the next one, which then overlaps it",
            end,
            due + 15,
        ),
        ("ends a minute late, off the quarter hour", end, due + 1),
    ];
    altered_parts(rt, p, &all)
}

// The report's period ends elsewhere.
fn other_periods(rt: &impl Print) -> io::Result<()> {
    let late = end_of(101);
    let all = [
        ("one part, and the period is longer", 1, late),
        ("a hundred parts, and the period is longer", 100, late),
        (
            "ninety parts, and the period ends with the 88th",
            90,
            end_of(88),
        ),
        ("a derating without parts", 0, late),
    ];
    for (words, count, period_end) in all {
        print!(rt; "{words}: ")?;
        altered(rt, count, 40, period_end)?;
    }
    Ok(())
}

// Parts where none may be.
fn no_list(rt: &impl Print) -> io::Result<()> {
    let mut buffer = [0u8; 1850];
    let report = compose(&mut buffer, 90);
    fields::put_u8(report, 7, Operation::WITHDRAW.0);
    print!(rt; "a withdrawal with ninety parts: ")?;
    print_line(rt, &mut fresh_register(), report)?;
    let report = compose(&mut buffer, 90);
    fields::put_u8(report, 6, RecordType::STOP.0);
    fields::put_u8(report, 11, 1);
    print!(rt; "a stop with ninety parts: ")?;
    print_line(rt, &mut fresh_register(), report)
}
