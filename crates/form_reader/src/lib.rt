// The report of a form. `form_read` says by writing what it is: the form of the report that the lines give has to be this form. Here it
// is not written again: each line is told, as it is read, to be spelled as what was read of it is written.
#![tactic(auto)]

ghost use Rattle.std.specs.Prelude.{◌≡◌, ◌+◌, ◌*◌, ◌-◌, ◌≤◌, ◌<◌, ◌%◌, ◌++◌, true, false, not, ◌&&◌, eqb, length, replicate, take, IfOk, MatchOption};
ghost use Rattle.fields.specs.Ascii.{ascii};
ghost use Rattle.fields.specs.Fields.{u8_at};
ghost use Rattle.fields.specs.Lists.{pick, part};
ghost use Rattle.report.specs.Encoded.{encode_parts};
ghost use Rattle.texts.specs.Texts.{Writes, Puts};
ghost use Rattle.forms.specs.Values.{line, number_line};
ghost use Rattle.forms.specs.Form.{has_form};
ghost use Rattle.forms.specs.Lent.{length_given, buffer_after};
ghost use Rattle.form_reading.specs.Reading.{number_at, hex_value, resolution_in, is_point};
ghost use Rattle.form_reading.specs.Reading.{text_length_in, lines_in, head_by, minute_of, grid_of, parts_in, report_by, report_of};
ghost use Rattle.form_reading.specs.Reading.{is_form_of, form_read};
ghost use Rattle.form_reader.specs.Spelled.{Told};
ghost use Rattle.form_reader.specs.SpelledForm.{is_own_form, body_by, HeadTold};

mod spelled;
mod spelled_points;

use form_reading::{CodeLines, DateLines, Grid, Lines, MarkLines, Numeral, Point};
use forms::FormError;
use quantities::{Minute, Period, SignedKilowatt};
use report::{Direction, Head, Mark, Operation, Part, RecordType};
use texts::Text;

// No report is longer.
const MOST_REPORT: usize = 1850;

// How many points there are, and the place after them.
#[derive(Clone, Copy)]
pub struct Points {
    pub count: u16,
    pub next: usize,
}

// All lines of the head, and whether they are spelled as what was read of them is written.
#[derive(Clone, Copy)]
pub struct HeadLines {
    pub codes: CodeLines,
    pub marks: MarkLines,
    pub dates: DateLines,
    pub spelled: bool,
}

// The n bytes from `at` on, as far as there are any.
#[tactic(auto, unfolding(fields::specs::Lists::part))]
fn part(s: &[u8], at: usize, n: usize) -> &[u8]
    ensures { result.now ≡ part s.now at n }
{
    let rest = s.get(at..).unwrap_or(&[]);
    rest.get(..n).unwrap_or(rest)
}

// The number that stands at `at`, and the place after it.
#[inline(always)]
fn number_at(s: &[u8], at: usize) -> Numeral
    requires { at ≤ 65536 }
    ensures read { result ≡ number_at s.now at }
    ensures bounds { (result.value < 10000000000) × (result.next ≤ at + 10) }
{
    let mut value: u64 = 0;
    for j in 0..10usize {
        let c = fields::u8_at(s, at + j);
        if !c.is_ascii_digit() {
            return Numeral {
                value,
                next: at + j,
            };
        }
        value = 10 * value + u64::from(c - 48);
    }
    Numeral {
        value,
        next: at + 10,
    }
}

// The bits of -n.
fn opposite(n: u64) -> u64
    ensures { result ≡ (4294967296 - n) % 4294967296 }
{
    4294967296u64.saturating_sub(n) % 4294967296
}

// Without a branch, which digits taken at random would mislead.
#[tactic(auto, unfolding(form_reading::specs::Reading::hex_value, fields::specs::Lists::pick))]
fn hex_value(c: u8) -> u8
    ensures { result ≡ hex_value c }
{
    c.saturating_sub(48) - 39 * u8::from(97 <= c)
}

// The line of a point begins with "p".
fn is_point(s: &[u8], at: usize) -> bool
    ensures { result ≡ is_point s.now at }
{
    fields::u8_at(s, at) == b'p'
}

// What is left of the form behind the name of its last line and before the line feed.
fn text_length_in(s: &[u8], at: usize) -> u16
    requires { at ≤ 8192 }
    ensures read { result ≡ text_length_in s.now at }
    ensures bounds { result ≤ 200 }
{
    s.len().saturating_sub(at + 6).min(200) as u16
}

fn head_by(
    codes: CodeLines,
    marks: MarkLines,
    dates: DateLines,
    part_count: u16,
    text_length: u16,
) -> Head
    ensures { result ≡ head_by codes marks dates part_count text_length }
{
    let identifier = marks.identifier;
    let stamp = dates.stamp;
    let period = dates.period;
    Head {
        unit: codes.unit,
        owner: codes.owner,
        record_type: RecordType(codes.record_type),
        operation: Operation(codes.operation),
        direction: Direction(codes.direction),
        start_mark: Mark(marks.start_mark),
        end_mark: Mark(marks.end_mark),
        qualification: marks.qualification,
        ordinal: marks.ordinal,
        part_count,
        identifier,
        stamp,
        period,
        text_length,
    }
}

fn minute_of(grid: Grid, position: u64) -> Minute
    requires { position < 10000000000 }
    ensures { result ≡ minute_of grid position }
{
    let after = position.saturating_sub(1) * u64::from(grid.step);
    Minute(((u64::from(grid.period.start.0) + after) % 4294967296) as u32)
}

// The part of a point, whose value holds until the next one, where there is one more, and else until the period's end.
#[tactic(auto, unfolding(fields::specs::Lists::pick))]
fn part_of(grid: Grid, point: Point, more: bool, next: Point) -> Part
    requires { (point.position < 10000000000) × (next.position < 10000000000) }
    ensures { result ≡ record { period = record { start = minute_of grid point.position; end = pick more (minute_of grid next.position) grid.period.end }; power = point.power } }
{
    let start = minute_of(grid, point.position);
    let end = if more {
        minute_of(grid, next.position)
    } else {
        grid.period.end
    };
    let period = Period { start, end };
    let power = point.power;
    Part { period, power }
}

// The resolution, where its line is there: its name begins with "r". No line is told where none is there.
#[tactic(auto, unfolding(form_reading::specs::Reading::resolution_in, fields::specs::Lists::pick))]
fn resolution_line(s: &[u8], at: usize) -> (Numeral, bool)
    requires { at ≤ 288 }
    ensures read { result.0 ≡ resolution_in s.now at }
    ensures told { Told (number_line (ascii "resolution=") (result.0.value % 65536)) s.now at result.1 result.0.next }
    ensures stays { eqb (u8_at s.now at) 114 ≡ false → result.0.next ≡ at }
    ensures bounds { result.0.next ≤ 310 }
{
    if fields::u8_at(s, at) == b'r' {
        return spelled::number_line(b"resolution=", 65536, s, at);
    }
    (Numeral { value: 1, next: at }, false)
}

// The length of the text whose line is at `at`, the last line.
fn text_line(s: &[u8], at: usize) -> (u16, bool)
    requires { at ≤ 8192 }
    ensures read { result.0 ≡ text_length_in s.now at }
    ensures told { Told (line (ascii "text=") (part s.now (at + 5) result.0)) s.now at result.1 (at + 6 + result.0) }
    ensures bounds { result.0 ≤ 200 }
{
    let t = text_length_in(s, at);
    let stop = fields::u8_at(s, at + 5 + usize::from(t));
    (t, spelled::stands(b"text=", s, at) & (stop == b'\n'))
}

// "A report without parts has no resolution line", and any other has one.
#[tactic(auto, unfolding(fields::specs::Lists::pick))]
fn parts_are_spelled(part_count: u16, there: bool, resolution: bool, points: bool) -> bool
    ensures { result ≡ pick (eqb part_count 0) (not there) (resolution && points) }
{
    if part_count == 0 {
        !there
    } else {
        resolution & points
    }
}

// The head's lines. Left at the first group that is not spelled as it is written, unless the reading is to be lax.
fn head_lines(s: &[u8], lax: bool) -> Option<HeadLines>
    ensures { MatchOption result ((lax ≡ false) × (is_own_form s.now ≡ false)) (λ l. HeadTold s.now l) }
{
    let (codes, a) = spelled::code_lines(s);
    if !(a | lax) {
        return None;
    }
    let (marks, b) = spelled::mark_lines(s, codes.next);
    if !((a & b) | lax) {
        return None;
    }
    let (dates, c) = spelled::date_lines(s, marks.next);
    if !((a & b & c) | lax) {
        return None;
    }
    Some(HeadLines {
        codes,
        marks,
        dates,
        spelled: a & b & c,
    })
}

// What the lines give, and whether it is written as they are, at the resolution that they give. The parts are put as they are read.
#[tactic(auto, unfolding(form_reading::specs::Reading::lines_in))]
fn put_parts(report: &mut Text, s: &[u8], head: HeadLines) -> (Lines, bool)
    requires { HeadTold s.now head }
    ensures read { result.0 ≡ lines_in s.now }
    ensures spelled { result.1 ≡ is_own_form s.now }
    ensures put { Writes 1600 report.old (encode_parts (parts_in s.now (grid_of result.0) result.0.points_at result.0.head.part_count)) report.new }
    ensures bounds { (result.0.head.text_length ≤ 200) × (result.0.text_at ≤ 3215) }
{
    let (codes, marks, dates) = (head.codes, head.marks, head.dates);
    let (resolution, d) = resolution_line(s, dates.next);
    let period = dates.period;
    let step = (resolution.value % 65536) as u16;
    let (points, e) = spelled_points::put_points(report, s, resolution.next, Grid { period, step });
    let (text_length, f) = text_line(s, points.next);
    let there = fields::u8_at(s, dates.next) == b'r';
    let rest = parts_are_spelled(points.count, there, d, e) & f;
    let ends = points.next + 6 + usize::from(text_length) == s.len();
    let lines = Lines {
        head: head_by(codes, marks, dates, points.count, text_length),
        step,
        points_at: resolution.next,
        text_at: points.next + 5,
    };
    (lines, head.spelled & rest & ends)
}

// The report that the lines say, with zeros where its head comes, which is known last.
fn put_body(report: &mut Text, form: &[u8], head: HeadLines) -> (Lines, bool)
    requires { HeadTold form.now head }
    ensures read { result.0 ≡ lines_in form.now }
    ensures spelled { result.1 ≡ is_own_form form.now }
    ensures put { Writes 1850 report.old (replicate 48 0 ++ body_by form.now result.0) report.new }
{
    report.put(&[0u8; 48]);
    let (lines, spelled) = put_parts(report, form, head);
    report.put(b"TX");
    report.put(part(form, lines.text_at, usize::from(lines.head.text_length)));
    (lines, spelled)
}

// The same at the start of the bytes; its length.
fn put_body_at(form: &[u8], head: HeadLines, bytes: &mut [u8]) -> (Lines, bool, usize)
    requires { HeadTold form.now head }
    ensures read { result.0 ≡ lines_in form.now }
    ensures spelled { result.1 ≡ is_own_form form.now }
    ensures put { Puts 1850 bytes.old (replicate 48 0 ++ body_by form.now result.0) bytes.new result.2 }
{
    let mut report = Text::new(bytes);
    let (lines, spelled) = put_body(&mut report, form, head);
    (lines, spelled, report.end())
}

// The report that the form's lines say, at the start of the scratch; its length.
fn put_report(form: &[u8], head: HeadLines, scratch: &mut [u8; MOST_REPORT]) -> (Lines, bool, usize)
    requires { HeadTold form.now head }
    ensures read { result.0 ≡ lines_in form.now }
    ensures spelled { result.1 ≡ is_own_form form.now }
    ensures report { take result.2 scratch.new ≡ report_by form.now result.0 }
    ensures bound { result.2 ≤ 1850 }
{
    let (lines, spelled, end) = put_body_at(form, head, scratch);
    fields::put_bytes(scratch, 0, &encoder::head_bytes(lines.head));
    (lines, spelled, end)
}

// The report that the form's lines say, as far as they say something, at the start of the scratch: of a text that is no form too.
pub fn report_in<'a>(form: &[u8], scratch: &'a mut [u8; MOST_REPORT]) -> &'a [u8]
    ensures report { result.now ≡ report_of form.now }
    ensures bound { length result.now ≤ 1850 }
{
    let Some(head) = head_lines(form, true) else {
        return &[];
    };
    let (_, _, end) = put_report(form, head, scratch);
    &scratch[..end]
}

// Of a form whose lines are spelled as they are written: the report that they say has a form, and on their resolution.
fn is_form_of(form: &[u8], lines: Lines, report: &[u8]) -> bool
    requires { (is_own_form form.now ≡ true) × (lines ≡ lines_in form.now) × (report.now ≡ report_by form.now lines) }
    ensures { result ≡ is_form_of form.now (report_of form.now) }
{
    if !forms::has_form(report) {
        return false;
    }
    (lines.head.part_count == 0) | (u32::from(lines.step) == forms::resolution(report, lines.head))
}

// The report of a form whose head's lines are told already. Apart, so that a text that is left at its head clears no scratch.
fn read_rest(form: &[u8], head: HeadLines, report: &mut [u8]) -> Result<usize, FormError>
    requires { HeadTold form.now head }
    ensures value { result ≡ length_given (form_read form.now) report.old }
    ensures report_after { report.new ≡ buffer_after (form_read form.now) report.old }
    ensures bounds { IfOk result (λ n. (n ≤ length report.old) × (n ≤ 1850)) }
{
    let mut scratch = [0u8; MOST_REPORT];
    let (lines, spelled, end) = put_report(form, head, &mut scratch);
    if !spelled {
        return Err(FormError::NotAForm);
    }
    let found = &scratch[..end];
    if !is_form_of(form, lines, found) {
        return Err(FormError::NotAForm);
    }
    forms::lay(found, report)
}

// The report of a form at the start of a lent buffer, whose other bytes stay: its length, or 24, then 43.
pub fn read_form(form: &[u8], report: &mut [u8]) -> Result<usize, FormError>
    ensures value { result ≡ length_given (form_read form.now) report.old }
    ensures report_after { report.new ≡ buffer_after (form_read form.now) report.old }
    ensures bounds { IfOk result (λ n. (n ≤ length report.old) × (n ≤ 1850)) }
{
    match head_lines(form, false) {
        Some(head) => read_rest(form, head, report),
        None => Err(FormError::NotAForm),
    }
}
