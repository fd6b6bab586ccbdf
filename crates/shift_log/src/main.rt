// The shift log: roster entries and reports from standard input, the log to standard output; with the argument `remarks`, each
// report's remark beside its line.
#![tactic(auto)]

ghost use Rattle.std.specs.Prelude.{◌+◌, ◌*◌, ◌≤◌, length, IfOk};

use block::{BLOCK_SIZE, ENTRY_SIZE};
use log_lines::{Lines, Plain, WithRemarks};
use report_input::LONGEST;
use setup::SetUpError;
use std::env::{Env, FillError};
use std::io::{Eprint, Print, Read};
use streams::Said;

// How many entries begin the input, their length, and how many bytes came after them. There is no heap: what is read lies in rooms of the
// most bytes it can have, and how much of a room is filled stands beside it.
#[derive(Clone, Copy)]
struct Start {
    entries: usize,
    length: usize,
    ahead: usize,
}

fn main(rt: HostRuntime) {
    let mut word = [0u8; 8];
    match rt.arg(1, &mut word) {
        Err(FillError::NotPresent) => run::<Plain>(&rt),
        Ok(length) if (&word[..length] == b"remarks".as_slice()) & !streams::has_arg(&rt, 2) => {
            run::<WithRemarks>(&rt)
        }
        _ => {
            let _ = rt.eprintln("shift_log: the one argument that it takes is remarks");
        }
    }
}

// What went wrong was said.
fn run<L: Lines>(rt: &HostRuntime) {
    let _ = log_input::<L, _, _>(rt, &mut rt.stdin());
}

// After a failed read nothing is set up.
fn log_input<L: Lines, R: Print + Eprint + Alloc, I: Read>(
    rt: &R,
    reader: &mut I,
) -> Result<(), Said> {
    let mut input = [0u8; 226];
    let start = read_roster(rt, reader, &mut input)?;
    let end = start.length;
    let mut register = [0u8; 57344];
    let size = BLOCK_SIZE * start.entries;
    if let Err(error) = setup::set_up(&input[..end], &mut register[..size]) {
        return print_fault(rt, error);
    }
    let mut report = [0u8; LONGEST];
    let ahead = start.ahead;
    report[..ahead].copy_from_slice(&input[end..end + ahead]);
    log_reports::<L, _, _>(rt, reader, &mut register[..size], &mut report, ahead)
}

fn print_fault<R: Print + Eprint + Alloc>(rt: &R, error: SetUpError) -> Result<(), Said> {
    let mut text = [0u8; 128];
    let length = log_lines::put_fault(&mut text, u8::from(error));
    print(rt, &text[..length])
}

fn read<R: Eprint + Alloc, I: Read>(rt: &R, reader: &mut I, bytes: &mut [u8]) -> Result<usize, Said>
    ensures { IfOk result (λ got. got ≤ length bytes.old) }
{
    let done = streams::read_full(reader, bytes);
    streams::or_said(rt, "shift_log: standard input can't be read", done)
}

// One line over `or_said`, in this program's words.
fn print<R: Print + Eprint + Alloc>(rt: &R, text: &[u8]) -> Result<(), Said> {
    let done = rt.write_all(text);
    streams::or_said(rt, "shift_log: standard output can't be written", done)
}

// Entries while the mark, both bytes, is 4A 47, at most 8. After one that is cut short nothing comes.
fn read_roster<R: Eprint + Alloc, I: Read>(
    rt: &R,
    reader: &mut I,
    input: &mut [u8; 226],
) -> Result<Start, Said>
    ensures { IfOk result (λ start. (start.entries ≤ 8) × (start.length ≤ 224) × (start.ahead ≤ 2)) }
{
    let mut length = 0;
    let mut ahead = read(rt, reader, &mut input[..2])?;
    for entries in 0..8 {
        if !log_lines::entry_begins(&input[length..length + ahead]) {
            return Ok(Start {
                entries,
                length,
                ahead,
            });
        }
        length += 2 + read(rt, reader, &mut input[length + 2..length + ENTRY_SIZE])?;
        ahead = read(rt, reader, &mut input[length..length + 2])?;
    }
    Ok(Start {
        entries: 8,
        length,
        ahead,
    })
}

// A report of which some bytes are there, in this program's words.
fn read_report<R: Eprint + Alloc, I: Read>(
    rt: &R,
    reader: &mut I,
    report: &mut [u8; LONGEST],
    ahead: usize,
) -> Result<usize, Said>
    ensures { IfOk result (λ got. got ≤ 1850) }
{
    let done = report_input::read_report(reader, report, ahead);
    streams::or_said(rt, "shift_log: standard input can't be read", done)
}

// Nothing is written after a failure. A proved loop has to end: it has more turns than any input needs.
fn log_reports<L: Lines, R: Print + Eprint + Alloc, I: Read>(
    rt: &R,
    reader: &mut I,
    register: &mut [u8],
    report: &mut [u8; LONGEST],
    ahead: usize,
) -> Result<(), Said>
    requires { ahead ≤ 48 }
{
    let mut text = [0u8; 1024];
    let length = log_lines::put_header::<L>(&mut text);
    print(rt, &text[..length])?;
    let mut progress = log_lines::at_start();
    let mut got = read_report(rt, reader, report, ahead)?;
    for _ in 0..u64::MAX {
        if got == 0 {
            break;
        }
        let logged = log_lines::log_report::<L>(register, &report[..got], progress, &mut text);
        print(rt, &text[..logged.length])?;
        progress = logged.progress;
        if logged.ends {
            break;
        }
        got = read_report(rt, reader, report, 0)?;
    }
    let length = log_lines::put_totals(&mut text, progress.totals);
    print(rt, &text[..length])
}
