// Reports written as a form of lines.
#![tactic(auto)]

ghost use Rattle.std.specs.Prelude.{◌≡◌, true, List, [], ◌∷◌, ◌+◌, ◌*◌, ◌≤◌, length, drop, pos, Ok, IfOk};
ghost use Rattle.std.specs.Int.Signed.{le_z};
ghost use Rattle.fields.specs.Lists.{all};
ghost use Rattle.fields.specs.Ascii.{ascii};
ghost use Rattle.quantities.specs.Quantities.{is_time};
ghost use Rattle.report.specs.declared.Head.{Head};
ghost use Rattle.report.specs.declared.Part.{Part};
ghost use Rattle.report.specs.Report.{parts_of, part_count_of, head_of, whole};
ghost use Rattle.rules.specs.Codes.{between};
ghost use Rattle.texts.specs.Numerals.{decimal};
ghost use Rattle.forms.specs.Values.{line, number_line, date_line, hex_text, signed_decimal};
ghost use Rattle.forms.specs.Form.{text_of, printable, has_form, code_lines, mark_lines, date_lines, after_start, falls, all_fall, resolution_of};
ghost use Rattle.forms.specs.Form.{position, point_line, point_lines, part_lines, form_of, Coarsest};
ghost use Rattle.forms.specs.Tails.{has_place, Prepends};
ghost use Rattle.forms.specs.Lent.{length_given, buffer_after, form_written};
ghost use Rattle.forms.specs.Refusals.{number_of};
ghost use Rattle.rules.specs.Boundaries.Tests.{failing};
ghost use Rattle.forms.specs.FormCases.{AreWritten, formed, resolutions, RoomIsAsked};

use quantities::{Minute, SignedKilowatt};
use report::{Head, Part};
use std::error::Error;
use std::fmt;

// No form is longer: 13 lines of a head, a resolution, 100 points of 29 bytes, a text of 200.
pub const MOST_FORM: usize = 3584;

// Why there is no report, or no form: the text is the form of no report, the report has no form, a lent buffer has no room.
#[derive(Clone, Copy, Debug, PartialEq, Eq)]
pub enum FormError {
    NotAForm,
    NoForm,
    NoRoom,
}

impl From<FormError> for u8 {
    ghost from_gives = { λ e n. n ≡ number_of e };

    fn from(error: FormError) -> u8 {
        match error {
            FormError::NotAForm => 24,
            FormError::NoForm => 25,
            FormError::NoRoom => 43,
        }
    }
}

impl fmt::Display for FormError {
    fn fmt<W: fmt::Write>(&self, f: &mut fmt::Formatter<W>) -> fmt::Result {
        f.write_str(match self {
            FormError::NotAForm => "the text is the form of no report",
            FormError::NoForm => "the report has no form",
            FormError::NoRoom => "the lent buffer has no room",
        })
    }
}

impl Error for FormError {}

fn after_start(h: Head, m: Minute) -> u32
    ensures { result ≡ after_start h m }
{
    m.0.saturating_sub(h.period.start.0)
}

fn falls(h: Head, step: u32, m: Minute) -> bool
    requires { 1 ≤ step }
    ensures { result ≡ falls h step m }
{
    after_start(h, m) % step == 0
}

// Left at the first part that does not fall.
fn all_fall(report: &[u8], h: Head, step: u32) -> bool
    requires { 1 ≤ step }
    ensures { result ≡ all_fall h (parts_of report.now) step }
{
    if !falls(h, step, h.period.end) {
        return false;
    }
    let k = report::part_count(report);
    for i in 0..k {
        if !falls(h, step, report::part_at(report, i).period.start) {
            return false;
        }
    }
    true
}

// The coarsest.
#[tactic(auto, unfolding(crate::specs::Form::resolution_of, fields::specs::Lists::pick))]
pub fn resolution(report: &[u8], h: Head) -> u32
    ensures value { result ≡ resolution_of h (parts_of report.now) }
    ensures bound { 1 ≤ result }
{
    if all_fall(report, h, 1440) {
        1440
    } else if all_fall(report, h, 60) {
        60
    } else if all_fall(report, h, 15) {
        15
    } else if all_fall(report, h, 5) {
        5
    } else {
        1
    }
}

fn position(h: Head, step: u32, p: Part) -> u64
    requires { 1 ≤ step }
    ensures value { result ≡ position h step p }
    ensures bound { result ≤ 4294967296 }
{
    u64::from(after_start(h, p.period.start) / step) + 1
}

// The test by itself: among calls that change a text its meaning is lost.
fn at_least_zero(p: SignedKilowatt) -> bool
    ensures { result ≡ le_z (pos 0) p.0 }
{
    0 <= p.0
}

// The text behind its mark.
fn text_of(report: &[u8]) -> &[u8]
    requires { whole report.now ≡ true }
    ensures text { result.now ≡ text_of report.now }
    ensures bound { length result.now ≤ 200 }
{
    let start = report::text_after(report::part_count(report));
    let end = start + fields::u16_at(report, 44) as usize;
    &report[start..end]
}

// A text whose end stands: the bytes from `start` on. What comes before is put piece by piece, the last piece first, since the digits of a
// number come so: each byte is stored once, where it stays. As a `Text`, from the front, a hundred points took 3.5 µs in place of 2.3.
#[derive(Drop)]
struct Tail<'a> {
    bytes: &'a mut [u8],
    start: usize,
}

impl<'a> Tail<'a> {
    fn put(&mut self, word: &[u8])
        requires { has_place (length word.now) self.old }
        ensures { Prepends (length word.now) self.old word.now self.new }
    {
        let end = self.start;
        let start = end - word.len();
        self.bytes[start..end].copy_from_slice(word);
        self.start = start;
    }

    fn put_byte(&mut self, b: u8)
        requires { has_place 1 self.old }
        ensures { Prepends 1 self.old (b ∷ []) self.new }
    {
        let start = self.start - 1;
        self.bytes[start] = b;
        self.start = start;
    }

    fn put_decimal(&mut self, n: u64)
        requires { has_place 20 self.old }
        ensures { Prepends 20 self.old (decimal n) self.new }
    {
        let mut left = n;
        while left >= 10 {
            self.put_byte(texts::digit(left));
            left = left / 10;
        }
        self.put_byte(texts::digit(left));
    }

    fn put_number_line(&mut self, name: &[u8], n: u64)
        requires { has_place (length name.now + 21) self.old }
        ensures { Prepends (length name.now + 21) self.old (number_line name.now n) self.new }
    {
        self.put(b"\n");
        self.put_decimal(n);
        self.put(name);
    }

    fn put_date_line(&mut self, name: &[u8], m: Minute)
        requires time { is_time m ≡ true }
        requires place { has_place (length name.now + 17) self.old }
        ensures { Prepends (length name.now + 17) self.old (date_line name.now m) self.new }
    {
        if let Ok(date) = calendar::print_date(m) {
            self.put(b"\n");
            self.put(&date);
            self.put(name);
        }
    }

    fn put_hex(&mut self, identifier: &[u8; 16])
        requires { has_place 32 self.old }
        ensures { Prepends 32 self.old (hex_text identifier.now) self.new }
    {
        for i in 0..16usize {
            self.put(&texts::hex_digits(identifier[15 - i]));
        }
    }

    fn put_identifier_line(&mut self, identifier: [u8; 16])
        requires { has_place 44 self.old }
        ensures { Prepends 44 self.old (line (ascii "identifier=") (hex_text identifier)) self.new }
    {
        self.put(b"\n");
        self.put_hex(&identifier);
        self.put(b"identifier=");
    }

    fn put_code_lines(&mut self, h: Head)
        requires { has_place 141 self.old }
        ensures { Prepends 141 self.old (code_lines h) self.new }
    {
        self.put_number_line(b"direction=", h.direction.0 as u64);
        self.put_number_line(b"operation=", h.operation.0 as u64);
        self.put_number_line(b"type=", h.record_type.0 as u64);
        self.put_number_line(b"owner=", h.owner as u64);
        self.put_number_line(b"unit=", h.unit as u64);
    }

    fn put_mark_lines(&mut self, h: Head)
        requires { has_place 170 self.old }
        ensures { Prepends 170 self.old (mark_lines h) self.new }
    {
        self.put_identifier_line(h.identifier);
        self.put_number_line(b"ordinal=", h.ordinal as u64);
        self.put_number_line(b"qualification=", h.qualification as u64);
        self.put_number_line(b"end_mark=", h.end_mark.0 as u64);
        self.put_number_line(b"start_mark=", h.start_mark.0 as u64);
    }

    fn put_date_lines(&mut self, h: Head)
        requires times { (is_time h.stamp ≡ true) × (is_time h.period.start ≡ true) × (is_time h.period.end ≡ true) }
        requires place { has_place 67 self.old }
        ensures { Prepends 67 self.old (date_lines h) self.new }
    {
        self.put_date_line(b"end=", h.period.end);
        self.put_date_line(b"start=", h.period.start);
        self.put_date_line(b"stamp=", h.stamp);
    }

    fn put_signed(&mut self, p: SignedKilowatt)
        requires { has_place 21 self.old }
        ensures { Prepends 11 self.old (signed_decimal p.0) self.new }
    {
        let size = quantities::wide(quantities::size_of(p));
        if at_least_zero(p) {
            self.put_decimal(size);
        } else {
            self.put_decimal(size);
            self.put(b"-");
        }
    }

    fn put_point_line(&mut self, h: Head, step: u32, p: Part)
        requires step { 1 ≤ step }
        requires place { has_place 49 self.old }
        ensures { Prepends 29 self.old (point_line h step p) self.new }
    {
        self.put(b"\n");
        self.put_signed(p.power);
        self.put(b" ");
        self.put_decimal(position(h, step, p));
        self.put(b"point=");
    }

    // From the last part to the first.
    fn put_point_lines(&mut self, h: Head, step: u32, report: &[u8])
        requires step { 1 ≤ step }
        requires place { has_place (20 + 29 * part_count_of report.now) self.old }
        ensures { Prepends (29 * part_count_of report.now) self.old (point_lines h step (parts_of report.now)) self.new }
    {
        let k = report::part_count(report);
        for i in 0..k {
            self.put_point_line(h, step, report::part_at(report, k - 1 - i));
        }
    }

    fn put_part_lines(&mut self, h: Head, report: &[u8])
        requires { has_place (32 + 29 * part_count_of report.now) self.old }
        ensures { Prepends (32 + 29 * part_count_of report.now) self.old (part_lines h (resolution_of h (parts_of report.now)) (parts_of report.now)) self.new }
    {
        if report::part_count(report) != 0 {
            let step = resolution(report, h);
            self.put_point_lines(h, step, report);
            self.put_number_line(b"resolution=", step as u64);
        }
    }

    fn put_text_line(&mut self, report: &[u8])
        requires whole { whole report.now ≡ true }
        requires place { has_place 206 self.old }
        ensures { Prepends 206 self.old (line (ascii "text=") (text_of report.now)) self.new }
    {
        self.put(b"\n");
        self.put(text_of(report));
        self.put(b"text=");
    }

    fn put_lines(&mut self, report: &[u8])
        requires form { has_form report.now ≡ true }
        requires place { has_place (616 + 29 * part_count_of report.now) self.old }
        ensures { Prepends (616 + 29 * part_count_of report.now) self.old (form_of report.now) self.new }
    {
        let h = report::head_of(report);
        self.put_text_line(report);
        self.put_part_lines(h, report);
        self.put_date_lines(h);
        self.put_mark_lines(h);
        self.put_code_lines(h);
    }
}

// The form, up to the end of the bytes; where it begins.
fn put_form(bytes: &mut [u8], report: &[u8]) -> usize
    requires form { has_form report.now ≡ true }
    requires place { 616 + 29 * part_count_of report.now ≤ length bytes.old }
    ensures form { drop result bytes.new ≡ form_of report.now }
    ensures inside { result ≤ length bytes.new }
    ensures size { length bytes.new ≤ result + (616 + 29 * part_count_of report.now) }
{
    let start = bytes.len();
    let mut tail = Tail { bytes, start };
    tail.put_lines(report);
    tail.start
}

// Every byte is tested, without an early exit.
fn is_printable(text: &[u8]) -> bool
    ensures { result ≡ all printable text.now }
{
    let mut ok = true;
    for c in text {
        ok = ok & ((0x20 <= *c) & (*c <= 0x7E));
    }
    ok
}

fn unit_in_range(unit: u16) -> bool
    ensures { result ≡ between 1 64 unit }
{
    (1 <= unit) & (unit <= 64)
}

// The parts' times need not be asked: parts that cover a period up to a time are over by then.
pub fn has_form(report: &[u8]) -> bool
    ensures { result ≡ has_form report.now }
{
    if !report::is_whole(report) {
        return false;
    }
    let h = report::head_of(report);
    validation::head_passes(h)
        & validation::judge_cover(h, report).is_ok()
        & unit_in_range(h.unit)
        & records::owner_in_range(h.owner)
        & is_printable(text_of(report))
}

// Bytes at the start of a lent buffer, whose other bytes stay: their length, or 43 where it has no room for them.
pub fn lay(bytes: &[u8], buffer: &mut [u8]) -> Result<usize, FormError>
    ensures value { result ≡ length_given (Ok bytes.now) buffer.old }
    ensures buffer_after { buffer.new ≡ buffer_after (Ok bytes.now) buffer.old }
    ensures bounds { IfOk result (λ n. (n ≤ length buffer.old) × (n ≤ length bytes.now)) }
{
    if buffer.len() < bytes.len() {
        return Err(FormError::NoRoom);
    }
    fields::put_bytes(buffer, 0, bytes);
    Ok(bytes.len())
}

// The form of a report that has one, by way of N bytes of its own.
fn lay_form<const N: usize>(report: &[u8], form: &mut [u8]) -> Result<usize, FormError>
    requires form { has_form report.now ≡ true }
    requires place { (616 + 29 * part_count_of report.now ≤ N) × (N ≤ 3584) }
    ensures value { result ≡ length_given (Ok (form_of report.now)) form.old }
    ensures form_after { form.new ≡ buffer_after (Ok (form_of report.now)) form.old }
    ensures bounds { IfOk result (λ n. (n ≤ length form.old) × (n ≤ 3584)) }
{
    let mut scratch = [0u8; N];
    let bytes = &mut scratch[..];
    let start = put_form(bytes, report);
    lay(&bytes[start..], form)
}

// The form of a report at the start of a lent buffer, whose other bytes stay: its length, or 25, then 43. Of the longest form's bytes a
// report with few parts would clear most for nothing.
pub fn write_form(report: &[u8], form: &mut [u8]) -> Result<usize, FormError>
    ensures value { result ≡ length_given (form_written report.now) form.old }
    ensures form_after { form.new ≡ buffer_after (form_written report.now) form.old }
    ensures bounds { IfOk result (λ n. (n ≤ length form.old) × (n ≤ 3584)) }
{
    if !has_form(report) {
        return Err(FormError::NoForm);
    }
    if report::part_count(report) <= 10 {
        lay_form::<1024>(report, form)
    } else {
        lay_form::<MOST_FORM>(report, form)
    }
}

// This does nothing: its contract is the law that the writer picks the coarsest resolution.
pub fn resolution_is_the_coarsest()
    ensures { (h : Head) (ps : List Part) → Coarsest h ps (resolution_of h ps) }
{}

// This does nothing: its contract is that our own cases come out as they should. Without it the claims would stay true of a definition that
// is wrong, if code and reading were changed with it.
#[tactic(auto, using(crate::proofs::FormCases::all_written, crate::proofs::FormCases::all_formed, crate::proofs::FormCases::all_resolutions, crate::proofs::FormCases::room_is_asked))]
pub fn worked_forms_are_answered_right()
    ensures written { AreWritten }
    ensures formed { failing 1 formed ≡ [] }
    ensures resolutions { failing 1 resolutions ≡ [] }
    ensures room { RoomIsAsked }
{}
