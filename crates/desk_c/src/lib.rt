// The C interface: each function of the desk that C calls, under its own name and with its own clauses. include/desk.h declares them.
// `desk` has the same seven, since a crate is a library or a static library, and what is proved of them is proved there.
#![tactic(auto)]

ghost use Rattle.std.specs.Prelude.{◌≡◌};
ghost use Rattle.report.specs.Remark.{remark_place};
ghost use Rattle.rules.specs.Desk.{set_up, answer_to};
ghost use Rattle.calendar.specs.Refusals.{answer_number};
ghost use Rattle.calendar.specs.Reading.{date_read, put_answer, date_put};
ghost use Rattle.forms.specs.Lent.{form_written, length_given, buffer_after};
ghost use Rattle.form_reading.specs.Reading.{form_read};
ghost use Rattle.desk.specs.Packed.{packed, packed_remark, remark_start, remark_length, packed_date, packed_length};

// 0, 20 or 21.
#[unsafe(no_mangle)]
pub extern "C" fn desk_set_up(roster: &[u8], register: &mut [u8]) -> u32
    ensures value { result ≡ (set_up roster.now register.old).number }
    ensures register_after { register.new ≡ (set_up roster.now register.old).after }
{
    desk::desk_set_up(roster, register)
}

// The number, 256 times the warnings and 65,536 times the part.
#[unsafe(no_mangle)]
pub extern "C" fn desk_answer(register: &mut [u8], report: &[u8]) -> u32
    ensures value { result ≡ packed (answer_to register.old report.now).answer }
    ensures register_after { register.new ≡ (answer_to register.old report.now).after }
{
    desk::desk_answer(register, report)
}

// The remark's number, and 256 where it is the standing text; where it begins, and its length.
#[unsafe(no_mangle)]
pub extern "C" fn desk_remark(
    report: &[u8],
    standing: &[u8],
    place: &mut u64,
    length: &mut u64,
) -> u32
    ensures value { result ≡ packed_remark (remark_place report.now) }
    ensures place_after { place.new ≡ remark_start (remark_place report.now) }
    ensures length_after { length.new ≡ remark_length (remark_place report.now) standing.now }
{
    desk::desk_remark(report, standing, place, length)
}

// 2^32 times the minute, or 23.
#[unsafe(no_mangle)]
pub extern "C" fn desk_read_date(text: &[u8]) -> u64
    ensures { result ≡ packed_date (date_read text.now) }
{
    desk::desk_read_date(text)
}

// 0, 22 or 43.
#[unsafe(no_mangle)]
pub extern "C" fn desk_print_date(minute: u32, text: &mut [u8]) -> u32
    ensures value { result ≡ answer_number (put_answer (record { 0 = minute }) text.old) }
    ensures text_after { text.new ≡ date_put (record { 0 = minute }) text.old }
{
    desk::desk_print_date(minute, text)
}

// 2^32 times the form's length, or 25 or 43.
#[unsafe(no_mangle)]
pub extern "C" fn desk_write_form(report: &[u8], form: &mut [u8]) -> u64
    ensures value { result ≡ packed_length (length_given (form_written report.now) form.old) }
    ensures form_after { form.new ≡ buffer_after (form_written report.now) form.old }
{
    desk::desk_write_form(report, form)
}

// 2^32 times the report's length, or 24 or 43.
#[unsafe(no_mangle)]
pub extern "C" fn desk_read_form(form: &[u8], report: &mut [u8]) -> u64
    ensures value { result ≡ packed_length (length_given (form_read form.now) report.old) }
    ensures report_after { report.new ≡ buffer_after (form_read form.now) report.old }
{
    desk::desk_read_form(form, report)
}
