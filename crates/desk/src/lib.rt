// The desk: set-up, the answer to a report on the register, and what C is answered: `desk_c` exports the functions that begin with desk_.
#![tactic(auto)]

ghost use Rattle.std.specs.Prelude.{◌≡◌, ◌≤◌, ◌<◌, true, Ok, Err, IfOk, is_ok, eqb};
ghost use Rattle.report.specs.Report.{most_parts, part_count_of};
ghost use Rattle.report.specs.Remark.{remark_place};
ghost use Rattle.fields.specs.Lists.{pick};
ghost use Rattle.rules.specs.Judge.{told, no_to, judge as judged};
ghost use Rattle.rules.specs.Desk.{set_up, question3, answer_to};
ghost use Rattle.rules.specs.Block.{unit_head};
ghost use Rattle.rules.specs.Whole.{block_whole};
ghost use Rattle.calendar.specs.Refusals.{answer_number};
ghost use Rattle.calendar.specs.Reading.{date_read, put_answer, date_put};
ghost use Rattle.forms.specs.Lent.{form_written, length_given, buffer_after};
ghost use Rattle.form_reading.specs.Reading.{form_read};
ghost use Rattle.desk.specs.Packed.{packed, packed_remark, remark_start, remark_length, packed_date, packed_length};

use after::Plan;
use block::BLOCK_SIZE;
use forms::FormError;
use quantities::Minute;
use report::RemarkPlace;
use rules::{Answer, Refusal};

// As `records::must`, but of questions that nothing skips.
#[tactic(auto, unfolding(fields::specs::Lists::pick))]
fn ask(number: u8, yes: bool) -> Result<(), Refusal>
    ensures { result ≡ pick yes (Ok tt) (Err (no_to number)) }
{
    if yes {
        Ok(())
    } else {
        Err(Refusal { number, part: 0 })
    }
}

// Questions 4 to 19 on the unit's own block, lent as a part of the register, and the warnings.
#[tactic(auto, using(crate::proofs::Judged::refused_value, crate::proofs::Judged::refused_ok, crate::proofs::Judged::refused_after, crate::proofs::Judged::accepted_value, crate::proofs::Judged::accepted_ok, crate::proofs::Judged::accepted_after))]
fn judge_block(b: &mut [u8], report: &[u8]) -> Result<u8, Refusal>
    requires whole_block { block_whole (unit_head b.old).unit b.old ≡ true }
    requires few_parts { part_count_of report.now ≤ most_parts }
    ensures value { told result ≡ (judged b.old report.now).answer }
    ensures accepted { is_ok result ≡ eqb (judged b.old report.now).answer.number 0 }
    ensures b_after { b.new ≡ (judged b.old report.now).after }
{
    let decision = judge::decide(b, report)?;
    let cleared = decision.cleared;
    let plan = Plan {
        cleared,
        written: decision.written,
        changes: decision.changes,
    };
    after::apply(b, report, plan);
    let warnings = judge::warnings_on(b, report::head_of(report), decision.left);
    Ok(warnings)
}

// Question 3. It answers as the definition does; where the block lies is found again below, where it is lent to be changed.
fn is_addressed(register: &[u8], report: &[u8]) -> bool
    ensures { result ≡ question3 register.now report.now }
{
    let h = report::head_of(report);
    let unit = h.unit as usize;
    if (1 <= unit) & (unit <= register.len() / BLOCK_SIZE) {
        let b = block::slice_at(register, BLOCK_SIZE * (unit - 1), BLOCK_SIZE);
        block::unit_head(b).owner == h.owner
    } else {
        false
    }
}

// The answer to a report: the sum of an accepted report's warnings, as the papers add them up, or the first question that says no, of 1
// to 19. A refusal leaves every byte.
pub fn answer_report(register: &mut [u8], report: &[u8]) -> Result<u8, Refusal>
    ensures value { told result ≡ (answer_to register.old report.now).answer }
    ensures accepted { is_ok result ≡ eqb (answer_to register.old report.now).answer.number 0 }
    ensures register_after { register.new ≡ (answer_to register.old report.now).after }
{
    ask(1, block::register_whole(register))?;
    ask(2, report::is_whole(report))?;
    ask(3, is_addressed(register, report))?;
    let unit = report::head_of(report).unit as usize;
    let a = BLOCK_SIZE * (unit - 1);
    let e = a + BLOCK_SIZE;
    judge_block(&mut register[a..e], report)
}

// An answer as the paper has it: 0 with the sum of the warnings, or a refusal's number and part. No From: `told` is the definition's
// name, which contracts cite.
pub fn told(outcome: Result<u8, Refusal>) -> Answer
    ensures { result ≡ told outcome }
{
    match outcome {
        Ok(sum) => Answer {
            number: 0,
            warnings: sum,
            part: 0,
        },
        Err(refusal) => Answer {
            number: refusal.number,
            warnings: 0,
            part: refusal.part,
        },
    }
}

// For C: 0, 20 or 21.
pub fn desk_set_up(roster: &[u8], register: &mut [u8]) -> u32
    ensures value { result ≡ (set_up roster.now register.old).number }
    ensures register_after { register.new ≡ (set_up roster.now register.old).after }
{
    match setup::set_up(roster, register) {
        Ok(()) => 0,
        Err(refusal) => u32::from(u8::from(refusal)),
    }
}

// For C: the number, 256 times the warnings and 65,536 times the part.
pub fn desk_answer(register: &mut [u8], report: &[u8]) -> u32
    ensures value { result ≡ packed (answer_to register.old report.now).answer }
    ensures register_after { register.new ≡ (answer_to register.old report.now).after }
{
    match answer_report(register, report) {
        Ok(sum) => 256 * u32::from(sum),
        Err(refusal) => u32::from(refusal.number) + 65536 * u32::from(refusal.part),
    }
}

// For C: the remark's number, and 256 where it is the standing text; where it begins, and its length.
pub fn desk_remark(report: &[u8], standing: &[u8], place: &mut u64, length: &mut u64) -> u32
    ensures value { result ≡ packed_remark (remark_place report.now) }
    ensures place_after { place.new ≡ remark_start (remark_place report.now) }
    ensures length_after { length.new ≡ remark_length (remark_place report.now) standing.now }
{
    let (number, start, bytes) = match report::remark_place(report) {
        Some(RemarkPlace::Standing) => (256, 0, standing.len()),
        Some(RemarkPlace::InReport { start, length }) => (0, start, length),
        None => (2, 0, 0),
    };
    *place = start as u64;
    *length = bytes as u64;
    number
}

// For C: 2^32 times the minute, or 23.
pub fn desk_read_date(text: &[u8]) -> u64
    ensures { result ≡ packed_date (date_read text.now) }
{
    match calendar::read_date(text) {
        Ok(minute) => 4294967296 * u64::from(minute.0),
        Err(error) => u64::from(u8::from(error)),
    }
}

// For C: 0, 22 or 43.
pub fn desk_print_date(minute: u32, text: &mut [u8]) -> u32
    ensures value { result ≡ answer_number (put_answer (record { 0 = minute }) text.old) }
    ensures text_after { text.new ≡ date_put (record { 0 = minute }) text.old }
{
    match calendar::put_date(Minute(minute), text) {
        Ok(()) => 0,
        Err(error) => u32::from(u8::from(error)),
    }
}

// A length beside 0, or a refusal's number.
fn packed_length(outcome: Result<usize, FormError>) -> u64
    requires { IfOk outcome (λ n. n < 4294967296) }
    ensures { result ≡ packed_length outcome }
{
    match outcome {
        Ok(length) => 4294967296 * length as u64,
        Err(refusal) => u64::from(u8::from(refusal)),
    }
}

// For C: 2^32 times the form's length, or 25 or 43.
pub fn desk_write_form(report: &[u8], form: &mut [u8]) -> u64
    ensures value { result ≡ packed_length (length_given (form_written report.now) form.old) }
    ensures form_after { form.new ≡ buffer_after (form_written report.now) form.old }
{
    packed_length(forms::write_form(report, form))
}

// For C: 2^32 times the report's length, or 24 or 43.
pub fn desk_read_form(form: &[u8], report: &mut [u8]) -> u64
    ensures value { result ≡ packed_length (length_given (form_read form.now) report.old) }
    ensures report_after { report.new ≡ buffer_after (form_read form.now) report.old }
{
    packed_length(form_reader::read_form(form, report))
}
