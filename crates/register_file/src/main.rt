// The register as a file: set up from roster entries, and reports answered on it, both from standard input. A changed register is on
// disk, whole, before the lines of its reports are printed.
#![tactic(auto)]

mod disk;
mod window;

ghost use Rattle.std.specs.Prelude.{◌≡◌, ◌≤◌, length};

use block::{BLOCK_SIZE, ENTRY_SIZE};
use disk::{RegisterFile, say};
use log_lines::Plain;
use setup::SetUpError;
use std::env::Env;
use std::io::{Eprint, Print, Read};
use std::rt::Files;
use std::str;
use streams::{Said, or_said};
use window::Window;

// What went wrong was said.
fn main(rt: HostRuntime) {
    let _ = run(&rt);
}

fn run(rt: &HostRuntime) -> Result<(), Said> {
    let mut word = [0u8; 8];
    let length = rt.arg(1, &mut word).unwrap_or(0);
    // ".new" and a 0 have to fit after it
    let mut bytes = [0u8; 4091];
    let Ok(end) = rt.arg(2, &mut bytes) else {
        return Err(say_use(rt));
    };
    if streams::has_arg(rt, 3) {
        return Err(say_use(rt));
    }
    let Ok(path) = str::from_utf8(&bytes[..end]) else {
        return Err(say(rt, "register_file: the path of the register is not UTF-8"));
    };
    let file = RegisterFile { path };
    // one block more than a register has, so that a longer file is refused and not cut
    let mut register = [0u8; 465920];
    let word = &word[..length];
    if word == b"answer".as_slice() {
        answer(rt, &mut rt.stdin(), &file, &mut register)
    } else if word == b"set-up".as_slice() {
        file.is_free(rt)?;
        set_up(rt, &mut rt.stdin(), &file, &mut register)
    } else {
        Err(say_use(rt))
    }
}

fn say_use<R: Eprint>(rt: &R) -> Said {
    let line = "register_file: it takes set-up or answer, and the path of a register";
    say(rt, line)
}

// One entry more than a register holds, so that a longer roster is refused and not cut. `rt`, `reader` and `file` go to three functions: a
// struct of them would lend all three, and each method still be told its words.
fn set_up<R: Files + Print + Eprint + Alloc, I: Read>(
    rt: &R,
    reader: &mut I,
    file: &RegisterFile,
    register: &mut [u8; 465920],
) -> Result<(), Said> {
    let mut roster = [0u8; 1820];
    let read = streams::read_full(reader, &mut roster);
    let length = or_said(rt, "register_file: the roster can't be read", read)?;
    let units = length / ENTRY_SIZE;
    let size = BLOCK_SIZE * units;
    if let Err(error) = setup::set_up(&roster[..length], &mut register[..size]) {
        return Err(say_refusal(rt, error));
    }
    file.write(rt, &register[..size])?;
    print_units(rt, units)
}

fn say_refusal<R: Eprint>(rt: &R, error: SetUpError) -> Said {
    let number = u8::from(error);
    let _ = eprintln!(rt; "register_file: roster {number}: it is not 1 to 64 good entries");
    Said
}

fn print_units<R: Print + Eprint + Alloc>(rt: &R, units: usize) -> Result<(), Said> {
    let mut text = [0u8; 128];
    let length = log_lines::put_set_up(&mut text, units as u64);
    print(rt, &text[..length])
}

fn answer<R: Files + Print + Eprint + Alloc, I: Read>(
    rt: &R,
    reader: &mut I,
    file: &RegisterFile,
    register: &mut [u8; 465920],
) -> Result<(), Said> {
    let size = file.read(rt, register)?;
    if !block::register_whole(&register[..size]) {
        return Err(say(rt, "register_file: register 1: it is not a whole register"));
    }
    answer_stream(rt, reader, file, &mut register[..size])
}

// One line over `or_said`, in this program's words.
fn print<R: Print + Eprint + Alloc>(rt: &R, text: &[u8]) -> Result<(), Said> {
    let done = rt.write_all(text);
    or_said(rt, "register_file: standard output can't be written", done)
}

// The reports that are here are judged together, kept together, and then their lines printed; where no whole report is here, one read
// follows. Nothing is printed after a failure. A proved loop has to end: it has more turns than any input needs.
fn answer_stream<R: Files + Print + Eprint + Alloc, I: Read>(
    rt: &R,
    reader: &mut I,
    file: &RegisterFile,
    register: &mut [u8],
) -> Result<(), Said> {
    let mut text = [0u8; 65536];
    let length = log_lines::put_header::<Plain>(&mut text);
    print(rt, &text[..length])?;
    let mut window = Window::new();
    let mut progress = log_lines::at_start();
    for _ in 0..u64::MAX {
        let ended = window.ended;
        let batch = batch::log_batch(register, window.bytes(), ended, progress, &mut text);
        keep_and_print(rt, file, register, batch.accepted, &text[..batch.length])?;
        progress = batch.progress;
        window.take(batch.taken);
        if batch.ends | (ended & (batch.taken == 0)) {
            break;
        }
        if batch.taken == 0 {
            window.read_more(rt, reader)?;
        }
    }
    let length = log_lines::put_totals(&mut text, progress.totals);
    print(rt, &text[..length])
}

// A changed register is on disk before a line of it is printed.
fn keep_and_print<R: Files + Print + Eprint + Alloc>(
    rt: &R,
    file: &RegisterFile,
    register: &[u8],
    changed: bool,
    lines: &[u8],
) -> Result<(), Said> {
    if changed {
        file.write(rt, register)?;
    }
    print(rt, lines)
}
