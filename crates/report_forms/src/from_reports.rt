// Reports as forms.

ghost use Rattle.std.specs.Prelude.{◌≤◌, IfOk};

use crate::{Failure, hints};
use block::ENTRY_SIZE;
use report_input::{LONGEST, read_report};
use std::io;
use std::io::{Print, Read};

// Passes over the entries of a roster; how many bytes are then there of the first report. One that is cut short is taken for a report.
fn pass_roster<I: Read>(from: &mut I, report: &mut [u8; LONGEST]) -> io::Result<usize>
    ensures { IfOk result (λ got. got ≤ 2) }
{
    for _ in 0..u64::MAX {
        let got = streams::read_full(from, &mut report[..2])?;
        if !log_lines::entry_begins(&report[..got]) {
            return Ok(got);
        }
        let rest = streams::read_full(from, &mut report[2..ENTRY_SIZE])?;
        if rest < ENTRY_SIZE - 2 {
            return Ok(got);
        }
    }
    Ok(0)
}

// A form for each report that has one, an empty line between two. After a report that is not whole no other can be found. A proved loop has
// to end, so it counts the turns that are left, more than any input needs.
pub(crate) fn write_forms<R: Print, E: Print, I: Read>(
    out: &R,
    err: &E,
    from: &mut I,
) -> Result<(), Failure> {
    let mut report = [0u8; LONGEST];
    let mut ahead = pass_roster(from, &mut report).map_err(Failure::Unread)?;
    let mut before: &[u8] = b"";
    for number in 1..u64::MAX {
        let got = read_report(from, &mut report, ahead).map_err(Failure::Unread)?;
        if got == 0 {
            break;
        }
        ahead = 0;
        if write_form(out, err, number, &report[..got], before).map_err(Failure::Unwritten)? {
            before = b"\n";
        }
        if !report::is_whole(&report[..got]) {
            break;
        }
    }
    Ok(())
}

// Whether the report has a form, which is then written.
fn write_form<R: Print, E: Print>(
    out: &R,
    err: &E,
    number: u64,
    report: &[u8],
    before: &[u8],
) -> io::Result<bool> {
    let mut form = [0u8; 3584];
    let Ok(length) = forms::write_form(report, &mut form) else {
        hints::tell_report(err, number, report);
        return Ok(false);
    };
    out.write_all(before)?;
    out.write_all(&form[..length])?;
    Ok(true)
}
