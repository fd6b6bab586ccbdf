// Reports from an input, each read by its own length.
#![tactic(auto)]

ghost use Rattle.std.specs.Prelude.{◌≤◌, IfOk};

use std::io;
use std::io::Read;

// The longest report: its head, a hundred parts, the text's mark and two hundred bytes.
pub const LONGEST: usize = 1850;

// A report of which some bytes are there, 48 at most: its head, and as much as that states. How many bytes there are: fewer where the input
// ends before.
pub fn read_report<I: Read>(
    from: &mut I,
    report: &mut [u8; LONGEST],
    ahead: usize,
) -> io::Result<usize>
    ensures { IfOk result (λ got. got ≤ 1850) }
{
    let ahead = ahead.min(48);
    let got = ahead + streams::read_full(from, &mut report[ahead..48])?;
    if got < 48 {
        return Ok(got);
    }
    let end = log_lines::stated_length(report);
    Ok(48 + streams::read_full(from, &mut report[48..end])?)
}
