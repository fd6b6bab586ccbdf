// Reports that came together are judged together: one write of the register serves all of them, and then their lines are printed.
#![tactic(auto)]

ghost use Rattle.std.specs.Prelude.{◌≡◌, ℕ, ◌+◌, ◌/◌, ◌≤◌, true, false, List, ◌++◌, length, take, MatchOption};
ghost use Rattle.rules.specs.Desk.{register_after};
ghost use Rattle.fields.specs.Lists.{put};
ghost use Rattle.batch.specs.Batch.{report_here, first_report, reports_here, batch_lines, no_reports, batch_of, after_cut};

use log_lines::{Plain, Progress};

// No line is longer.
pub const LINE_SIZE: usize = 128;

// The progress after the reports, how many bytes of the input they are and of the text their lines, whether one was accepted, and
// whether one ends the run: either of the two can be without the other, so they are no cases of one enum. Not a `Logged`, which
// is of one report: lengths add up here, and are numbers, since text and register are lent anew.
#[derive(Clone, Copy)]
pub struct Batch {
    pub progress: Progress,
    pub taken: usize,
    pub length: usize,
    pub accepted: bool,
    pub ends: bool,
}

// The first report of an input, where it is here whole or the input has ended within it.
fn first_report(input: &[u8], ended: bool) -> Option<&[u8]>
    ensures { MatchOption result (report_here input.now ended ≡ false) (λ report. (report_here input.now ended ≡ true) × (report.now ≡ first_report input.now)) }
{
    let length = log_lines::stated_length(input);
    if length <= input.len() {
        Some(&input[..length])
    } else if ended & !input.is_empty() {
        Some(input)
    } else {
        None
    }
}

fn no_reports(so_far: Progress) -> Batch
    ensures { result ≡ no_reports so_far }
{
    Batch {
        progress: so_far,
        taken: 0,
        length: 0,
        accepted: false,
        ends: false,
    }
}

// Judges the reports that the input holds so far, as many as the text has room for; their lines at the start of the text.
pub fn log_batch(
    register: &mut [u8],
    input: &[u8],
    ended: bool,
    so_far: Progress,
    text: &mut [u8],
) -> Batch
    ensures in_bounds { (result.taken ≤ length input.now) × (result.length ≤ length text.old) }
    ensures value { result ≡ batch_of so_far register.old (reports_here (length text.old / LINE_SIZE) register.old input.now ended) }
    ensures text_after { text.new ≡ put text.old 0 (batch_lines so_far register.old (reports_here (length text.old / LINE_SIZE) register.old input.now ended)) }
    ensures register_after { register.new ≡ register_after register.old (reports_here (length text.old / LINE_SIZE) register.old input.now ended) }
{
    let mut batch = no_reports(so_far);
    for _ in 0..text.len() / LINE_SIZE {
        if batch.ends {
            break;
        }
        let Some(report) = first_report(&input[batch.taken..], ended) else {
            break;
        };
        let line = &mut text[batch.length..];
        let logged = log_lines::log_report::<Plain>(register, report, batch.progress, line);
        batch = Batch {
            progress: logged.progress,
            taken: batch.taken + report.len(),
            length: batch.length + logged.length,
            accepted: batch.accepted | logged.accepted,
            ends: logged.ends,
        };
    }
    batch
}

// However an input is cut, its reports are the same: those that a first part holds, and those of what it leaves.
pub fn cuts_change_nothing()
    ensures { (register input : List ℕ) (cut most more : ℕ) → reports_here (length (reports_here most register (take cut input) false) + more) register input true ≡ reports_here most register (take cut input) false ++ after_cut more register input (reports_here most register (take cut input) false) }
{}
