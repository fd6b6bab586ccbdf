// Reading, so that an end and a failure are told apart; the line of a failure; which arguments there are.
#![tactic(auto)]

ghost use Rattle.std.specs.Prelude.{◌≡◌, ◌<◌, ◌≤◌, length, IfOk, IfSome, IsErr, MatchResult};

use std::env::{Env, FillError};
use std::io;
use std::io::{Eprint, ErrorKind, Read};

// Something failed, and a line on standard error says what and why.
#[derive(Clone, Copy, Debug, PartialEq, Eq)]
pub struct Said;

// A read that is interrupted has brought nothing, and is made again. A proved loop has to end; the read after its turns is the last.
fn read_again<R: Read>(reader: &mut R, bytes: &mut [u8]) -> io::Result<usize>
    ensures { IfOk result (λ got. got ≤ length bytes.old) }
{
    for _ in 0..u64::MAX {
        match reader.read(bytes) {
            Err(error) if error.kind() == ErrorKind::Interrupted => {}
            done => return done,
        }
    }
    reader.read(bytes)
}

// One read: how many bytes it brought, or None where the input has ended.
pub fn read_once<R: Read>(reader: &mut R, bytes: &mut [u8]) -> io::Result<Option<usize>>
    ensures { IfOk result (λ brought. IfSome brought (λ got. (0 < got) × (got ≤ length bytes.old))) }
{
    match read_again(reader, bytes)? {
        0 => Ok(None),
        got => Ok(Some(got)),
    }
}

// A read that failed, and how many bytes had come before it.
#[derive(Clone, Copy, Debug)]
pub struct FailedRead {
    pub read: usize,
    pub error: io::Error,
}

// Reads until the bytes are full, the input ends or a read fails. How many came is told as std's `read` tells it, since callers go on in the
// same bytes; `read_exact` would not tell how many came before an end.
pub fn fill<R: Read>(reader: &mut R, bytes: &mut [u8]) -> Result<usize, FailedRead>
    ensures { MatchResult result (λ read. read ≤ length bytes.old) (λ failed. failed.read ≤ length bytes.old) }
{
    let mut read = 0;
    while read < bytes.len() {
        let brought = read_once(reader, &mut bytes[read..]);
        match brought.map_err(|error| FailedRead { read, error })? {
            Some(got) => read += got,
            None => break,
        }
    }
    Ok(read)
}

// The same for who has no use for a part of the bytes.
pub fn read_full<R: Read>(reader: &mut R, bytes: &mut [u8]) -> io::Result<usize>
    ensures { IfOk result (λ read. read ≤ length bytes.old) }
{
    fill(reader, bytes).map_err(|failed| failed.error)
}

// A line on standard error: what failed, and why.
pub fn fail<R: Eprint + Alloc>(rt: &R, what: &str, error: &io::Error) {
    let _ = match format!(in rt.alloc(); "{error}") {
        Ok(why) => {
            let why = without_number(why.as_str());
            eprintln!(rt; "{what}: {why}")
        }
        Err(_) => eprintln!(rt; "{what}: {error}"),
    };
}

// What was done, or a line on standard error: what failed, and why.
pub fn or_said<T, R: Eprint + Alloc>(rt: &R, what: &str, done: io::Result<T>) -> Result<T, Said>
    ensures { MatchResult done (λ value. result ≡ Ok value) (λ error. IsErr result) }
{
    done.map_err(|error| {
        fail(rt, what, &error);
        Said
    })
}

// The text of an error without the number that the system has for it.
fn without_number(why: &str) -> &str {
    match why.split_once(" (os error ") {
        Some((text, _)) => text,
        None => why,
    }
}

// Whether there is an argument of that number, from 1.
pub fn has_arg<R: Env>(rt: &R, number: usize) -> bool {
    !matches!(rt.arg(number, &mut []), Err(FillError::NotPresent))
}
