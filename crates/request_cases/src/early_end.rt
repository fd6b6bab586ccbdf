// A2: a derating on unit 1 of roster A, 20,000 kW from 12:00, planned to 16:00, that ended at 14:07.
ghost use Rattle.std.specs.Prelude.{◌≤◌, length};

use crate::lines::print_line;
use report::{Mark, Operation, RecordType};
use sent_reports::{D, MOST_BYTES, REGISTER_SIZE, Sent, derating_over, event, fresh_register};
use std::io;

// Minutes of 2026-03-01.
const NOON: u32 = D + 720;

const ENDED: u32 = D + 847;

const SAID: u32 = D + 850;

const PLANNED_END: u32 = D + 960;

// A report of the derating, and what a plain creation does not vary.
#[derive(Clone, Copy)]
struct Change {
    sent: Sent,
    operation: Operation,
    end_mark: Mark,
    ordinal: u8,
    part_end: u32,
}

pub(crate) fn cases(rt: &impl Print) -> io::Result<()> {
    println!(rt; "\nA derating that ended early: from 12:00, planned to 16:00")?;
    story(rt)?;
    println!(rt; "\nOther times, of the derating that has begun")?;
    other_times(rt)?;
    println!(rt; "\nEnded at 14:07, but")?;
    other_codes(rt)?;
    other_types(rt)?;
    other_parts(rt)
}

fn planned(stamp: u32, start: u32) -> Change {
    Change {
        sent: derating_over(1, stamp, start, PLANNED_END),
        operation: Operation::CREATE,
        end_mark: Mark::PLANNED,
        ordinal: 1,
        part_end: PLANNED_END,
    }
}

// A change, executed from 12:00 on.
fn changed(stamp: u32, end: u32, end_mark: Mark, ordinal: u8) -> Change {
    Change {
        sent: Sent {
            start_mark: Mark::EXECUTED,
            ..derating_over(1, stamp, NOON, end)
        },
        operation: Operation::CHANGE,
        end_mark,
        ordinal,
        part_end: end,
    }
}

fn begun() -> Change {
    changed(NOON + 3, PLANNED_END, Mark::PLANNED, 2)
}

fn ended(stamp: u32, end: u32) -> Change {
    changed(stamp, end, Mark::EXECUTED, 3)
}

// Puts the report's bytes at the start of the buffer, and lends them.
fn compose(buffer: &mut [u8], c: Change) -> &mut [u8]
    ensures { length result.now ≤ MOST_BYTES }
{
    let report = sent_reports::compose(buffer, c.sent);
    fields::put_u8(report, 7, c.operation.0);
    fields::put_u8(report, 10, c.end_mark.0);
    fields::put_u8(report, 12, c.ordinal);
    fields::put_u32(report, 56, c.part_end);
    report
}

fn then(rt: &impl Print, register: &mut [u8], words: &str, c: Change) -> io::Result<()> {
    print!(rt; "{words}: ")?;
    print_line(rt, register, compose(&mut [0u8; MOST_BYTES], c))
}

// The register after the derating was planned, and has begun.
fn running_register() -> [u8; REGISTER_SIZE] {
    let mut register = fresh_register();
    for c in [planned(NOON - 10, NOON), begun()] {
        let _ = desk::answer_report(&mut register, compose(&mut [0u8; MOST_BYTES], c));
    }
    register
}

// Each of the reports on the derating that has begun.
fn running(rt: &impl Print, all: &[(&str, Change)]) -> io::Result<()> {
    for (words, c) in all {
        then(rt, &mut running_register(), *words, *c)?;
    }
    Ok(())
}

// Reports one after the other.
fn story(rt: &impl Print) -> io::Result<()> {
    let mut register = fresh_register();
    let all = [
        ("planned at 11:50", planned(NOON - 10, NOON)),
        (
            "ended at 14:07, though nobody said that it has begun",
            ended(SAID, ENDED),
        ),
        ("begun at 12:00, said at 12:03", begun()),
        ("ended at 14:07, said at 14:10", ended(SAID, ENDED)),
        (
            "the same once more, its record has left",
            ended(SAID, ENDED),
        ),
        (
            "its identifier created anew, from 15:00",
            planned(D + 890, D + 900),
        ),
    ];
    for (words, c) in all {
        then(rt, &mut register, words, c)?;
    }
    Ok(())
}

fn other_times(rt: &impl Print) -> io::Result<()> {
    let all = [
        ("ended after a minute", ended(SAID, NOON + 1)),
        ("ended when it is said", ended(SAID, SAID)),
        ("ended where it started", ended(SAID, NOON)),
        ("ended a minute after it is said", ended(SAID, SAID + 1)),
        ("said before the last report", ended(NOON + 2, NOON + 1)),
        (
            "said a minute before its planned end",
            ended(PLANNED_END - 1, ENDED),
        ),
        (
            "said at its planned end, when it is gone",
            ended(PLANNED_END, ENDED),
        ),
    ];
    running(rt, &all)
}

fn other_codes(rt: &impl Print) -> io::Result<()> {
    let c = ended(SAID, ENDED);
    let started_as_planned = Sent {
        start_mark: Mark::PLANNED,
        ..c.sent
    };
    let all = [
        (
            "end mark 3",
            Change {
                end_mark: Mark(3),
                ..c
            },
        ),
        (
            "end mark 1, planned",
            Change {
                end_mark: Mark::PLANNED,
                ..c
            },
        ),
        (
            "start mark 1, planned",
            Change {
                sent: started_as_planned,
                ..c
            },
        ),
        (
            "as a withdrawal",
            Change {
                operation: Operation::WITHDRAW,
                ..c
            },
        ),
        (
            "as a creation",
            Change {
                operation: Operation::CREATE,
                ..c
            },
        ),
        (
            "with an ordinal that is not greater",
            Change { ordinal: 2, ..c },
        ),
    ];
    running(rt, &all)
}

fn other_types(rt: &impl Print) -> io::Result<()> {
    let c = ended(SAID, ENDED);
    let of_type = |record_type, qualification| Sent {
        record_type,
        qualification,
        ..c.sent
    };
    let event = Sent {
        stamp: SAID,
        ..event(5)
    };
    let all = [
        (
            "of another type than its record",
            Change {
                sent: of_type(RecordType::NEGATIVE_DERATING, 0),
                ..c
            },
        ),
        (
            "of a stop",
            Change {
                sent: of_type(RecordType::STOP, 1),
                ..c
            },
        ),
        (
            "of an event",
            Change {
                sent: event,
                operation: Operation::CREATE,
                ..c
            },
        ),
    ];
    running(rt, &all)
}

fn other_parts(rt: &impl Print) -> io::Result<()> {
    let c = ended(SAID, ENDED);
    let of_power = |power| Sent { power, ..c.sent };
    let all = [
        (
            "its part still ends at 16:00",
            Change {
                part_end: PLANNED_END,
                ..c
            },
        ),
        (
            "its part ends at 14:06",
            Change {
                part_end: ENDED - 1,
                ..c
            },
        ),
        (
            "at 100,000,000 kW",
            Change {
                sent: of_power(100000000),
                ..c
            },
        ),
        (
            "at 200,001 kW, above Pmax, which is passed over",
            Change {
                sent: of_power(200001),
                ..c
            },
        ),
    ];
    running(rt, &all)
}
