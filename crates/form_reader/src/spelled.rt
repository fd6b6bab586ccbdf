// Lines that are told to be spelled as they are written, while they are read.
ghost use Rattle.std.specs.Prelude.{◌≡◌, ◌+◌, ◌*◌, ◌≤◌, ◌<◌, ◌%◌, ◌++◌, ◌&&◌, eqb, length};
ghost use Rattle.fields.specs.Fields.{u8_at};
ghost use Rattle.fields.specs.Lists.{series, same_list};
ghost use Rattle.calendar.specs.Reading.{print_of};
ghost use Rattle.forms.specs.Values.{line, number_line, date_line, hex_text};
ghost use Rattle.texts.specs.Numerals.{decimal, line_feed};
ghost use Rattle.fields.specs.Ascii.{ascii};
ghost use Rattle.form_reading.specs.Reading.{is_digit, number_past, number_in, hex_value, hex_byte, date_at, code_lines_in, mark_lines_in, date_lines_in};
ghost use Rattle.form_reader.specs.Spelled.{stands, is_plain, is_hex, Told, code_text, mark_text, date_text};

use crate::{hex_value, number_at, part};
use form_reading::{CodeLines, DateLines, MarkLines, Numeral};
use quantities::{Minute, Period};

#[inline(always)]
fn same_8(a: &[u8], b: &[u8], at: usize) -> bool
    ensures { result ≡ same_list (series (u8_at a.now) at 8) (series (u8_at b.now) at 8) }
{
    let word = u64::from_le_bytes(fields::bytes_at(a, at));
    word == u64::from_le_bytes(fields::bytes_at(b, at))
}

#[inline(always)]
fn same_4(a: &[u8], b: &[u8], at: usize) -> bool
    ensures { result ≡ same_list (series (u8_at a.now) at 4) (series (u8_at b.now) at 4) }
{
    let word = u32::from_le_bytes(fields::bytes_at(a, at));
    word == u32::from_le_bytes(fields::bytes_at(b, at))
}

// By two words, which may overlap. The length is known where this is called.
#[inline(always)]
fn same(a: &[u8], b: &[u8]) -> bool
    requires { (length a.now ≡ length b.now) × (4 ≤ length a.now) × (length a.now ≤ 16) }
    ensures { result ≡ same_list a.now b.now }
{
    let n = a.len();
    if 8 <= n {
        same_8(a, b, 0) & same_8(a, b, n - 8)
    } else {
        same_4(a, b, 0) & same_4(a, b, n - 4)
    }
}

// Whether x stands in s at `at`.
#[inline(always)]
pub(crate) fn stands<const N: usize>(x: &[u8; N], s: &[u8], at: usize) -> bool
    requires { (4 ≤ N) × (N ≤ 16) }
    ensures { result ≡ stands x.now s.now at }
{
    match fields::chunk_at::<N>(s, at) {
        Some(chunk) => same(x, chunk),
        None => false,
    }
}

#[tactic(auto, unfolding(crate::specs::Spelled::is_plain, fields::specs::Lists::pick))]
pub(crate) fn is_plain(first: u8, only_one: bool) -> bool
    ensures { result ≡ is_plain first only_one }
{
    if first == b'0' {
        only_one
    } else {
        first.is_ascii_digit()
    }
}

// Digits and a line feed: the number, below the limit where it is spelled, and the place after the line feed.
fn digits(limit: u64, s: &[u8], at: usize) -> (Numeral, bool)
    requires { (at ≤ 65536) × (1 ≤ limit) × (limit ≤ 65536) }
    ensures read { result.0 ≡ number_past s.now at }
    ensures spelled { Told (decimal (result.0.value % limit) ++ line_feed) s.now at result.1 result.0.next }
    ensures bounds { (result.0.value < 10000000000) × (result.0.next ≤ at + 11) }
{
    let n = number_at(s, at);
    let spelled = is_plain(fields::u8_at(s, at), n.next == at + 1)
        & (n.value < limit)
        & (fields::u8_at(s, n.next) == b'\n');
    let number = Numeral {
        value: n.value,
        next: n.next + 1,
    };
    (number, spelled)
}

// The line has a single digit.
#[inline(always)]
fn has_one_digit<const N: usize>(name: &[u8; N], line: &[u8; 16]) -> bool
    requires { (4 ≤ N) × (N ≤ 14) }
    ensures { result ≡ (stands name.now line.now 0 && is_digit (u8_at line.now N) && eqb (u8_at line.now (N + 1)) 10) }
{
    same(name, &line[..N]) & line[N].is_ascii_digit() & (line[N + 1] == b'\n')
}

// The number of the line at `at`, below the limit where the line is spelled, and the next line. Most numbers have one digit, and
// that is told of sixteen bytes at once.
#[inline(always)]
pub(crate) fn number_line<const N: usize>(
    name: &[u8; N],
    limit: u64,
    s: &[u8],
    at: usize,
) -> (Numeral, bool)
    requires { (at ≤ 32768) × (4 ≤ N) × (N ≤ 14) × (10 ≤ limit) × (limit ≤ 65536) }
    ensures read { result.0 ≡ number_in N s.now at }
    ensures spelled { Told (number_line name.now (result.0.value % limit)) s.now at result.1 result.0.next }
    ensures bounds { (result.0.value < 10000000000) × (result.0.next ≤ at + N + 11) }
{
    if let Some(line) = fields::chunk_at::<16>(s, at) {
        if has_one_digit(name, line) {
            let number = Numeral {
                value: u64::from(line[N].saturating_sub(48)),
                next: at + N + 2,
            };
            return (number, true);
        }
    }
    let (number, spelled) = digits(limit, s, at + N);
    (number, stands(name, s, at) & spelled)
}

#[tactic(auto, unfolding(form_reading::specs::Reading::code_lines_in))]
pub(crate) fn code_lines(s: &[u8]) -> (CodeLines, bool)
    ensures read { result.0 ≡ code_lines_in s.now }
    ensures spelled { Told (code_text result.0) s.now 0 result.1 result.0.next }
    ensures bounds { result.0.next ≤ 91 }
{
    let (unit, a) = number_line(b"unit=", 65536, s, 0);
    let (owner, b) = number_line(b"owner=", 65536, s, unit.next);
    let (record_type, c) = number_line(b"type=", 256, s, owner.next);
    let (operation, d) = number_line(b"operation=", 256, s, record_type.next);
    let (direction, e) = number_line(b"direction=", 256, s, operation.next);
    let lines = CodeLines {
        unit: (unit.value % 65536) as u16,
        owner: (owner.value % 65536) as u16,
        record_type: (record_type.value % 256) as u8,
        operation: (operation.value % 256) as u8,
        direction: (direction.value % 256) as u8,
        next: direction.next,
    };
    (lines, a & b & c & d & e)
}

fn is_hex(c: u8) -> bool
    ensures { result ≡ is_hex c }
{
    c.is_ascii_digit() | ((b'a' <= c) & (c <= b'f'))
}

// The byte of two digits, and whether they are spelled.
fn two_digits(high: u8, low: u8) -> (u8, bool)
    ensures value { result.0 ≡ (16 * hex_value high + hex_value low) % 256 }
    ensures spelled { result.1 ≡ (is_hex high && is_hex low) }
{
    let byte = hex_value(high)
        .wrapping_mul(16)
        .wrapping_add(hex_value(low));
    (byte, is_hex(high) & is_hex(low))
}

// Without a test of each place the loop becomes vector code.
fn hex_bytes(digits: &[u8; 32]) -> ([u8; 16], bool)
    ensures read { result.0 ≡ series (hex_byte digits.now 0) 0 16 }
    ensures spelled { Told (hex_text result.0) digits.now 0 result.1 32 }
{
    let mut bytes = [0u8; 16];
    let mut spelled = true;
    for j in 0..16usize {
        let (byte, is_spelled) = two_digits(digits[2 * j], digits[2 * j + 1]);
        bytes[j] = byte;
        spelled = spelled & is_spelled;
    }
    (bytes, spelled)
}

// Where the form ends among the digits.
#[cold]
fn identifier_cut(s: &[u8], at: usize) -> [u8; 16]
    ensures { result ≡ series (hex_byte s.now at) 0 16 }
{
    let (bytes, _) = hex_bytes(&fields::bytes_at::<32>(s, at));
    bytes
}

fn identifier(s: &[u8], at: usize) -> ([u8; 16], bool)
    ensures read { result.0 ≡ series (hex_byte s.now at) 0 16 }
    ensures spelled { Told (hex_text result.0) s.now at result.1 (at + 32) }
{
    match fields::chunk_at::<32>(s, at) {
        Some(digits) => hex_bytes(digits),
        None => (identifier_cut(s, at), false),
    }
}

#[inline(always)]
fn identifier_line_at(s: &[u8], at: usize) -> ([u8; 16], bool)
    requires { at ≤ 8192 }
    ensures read { result.0 ≡ series (hex_byte s.now (at + 11)) 0 16 }
    ensures spelled { Told (line (ascii "identifier=") (hex_text result.0)) s.now at result.1 (at + 44) }
{
    let (bytes, spelled) = identifier(s, at + 11);
    let stops = fields::u8_at(s, at + 11 + 32) == b'\n';
    (bytes, stands(b"identifier=", s, at) & (spelled & stops))
}

// Where the form ends in the line.
#[cold]
fn identifier_line_cut(s: &[u8], at: usize) -> ([u8; 16], bool)
    requires { at ≤ 8192 }
    ensures read { result.0 ≡ series (hex_byte s.now (at + 11)) 0 16 }
    ensures spelled { Told (line (ascii "identifier=") (hex_text result.0)) s.now at result.1 (at + 44) }
{
    identifier_line_at(s, at)
}

// The line is 44 bytes long. Those are fetched at once, so that the places in them need no test.
fn identifier_line(s: &[u8], at: usize) -> ([u8; 16], bool)
    requires { at ≤ 8192 }
    ensures read { result.0 ≡ series (hex_byte s.now (at + 11)) 0 16 }
    ensures spelled { Told (line (ascii "identifier=") (hex_text result.0)) s.now at result.1 (at + 44) }
{
    match fields::chunk_at::<44>(s, at) {
        Some(fetched) => identifier_line_at(fetched, 0),
        None => identifier_line_cut(s, at),
    }
}

#[tactic(auto, unfolding(form_reading::specs::Reading::mark_lines_in))]
pub(crate) fn mark_lines(s: &[u8], at: usize) -> (MarkLines, bool)
    requires { at ≤ 91 }
    ensures read { result.0 ≡ mark_lines_in s.now at }
    ensures spelled { Told (mark_text result.0) s.now at result.1 result.0.next }
    ensures bounds { result.0.next ≤ 221 }
{
    let (start, a) = number_line(b"start_mark=", 256, s, at);
    let (end, b) = number_line(b"end_mark=", 256, s, start.next);
    let (qualification, c) = number_line(b"qualification=", 256, s, end.next);
    let (ordinal, d) = number_line(b"ordinal=", 65536, s, qualification.next);
    let (identifier, e) = identifier_line(s, ordinal.next);
    let lines = MarkLines {
        start_mark: (start.value % 256) as u8,
        end_mark: (end.value % 256) as u8,
        qualification: (qualification.value % 256) as u8,
        ordinal: (ordinal.value % 65536) as u16,
        identifier,
        next: ordinal.next + 44,
    };
    (lines, a & b & c & d & e)
}

// The minute of the date at `at`; 0 where no date is there.
fn date(s: &[u8], at: usize) -> (Minute, bool)
    ensures read { result.0 ≡ date_at s.now at }
    ensures spelled { Told (print_of result.0) s.now at result.1 (at + 16) }
{
    match calendar::read_date(part(s, at, 16)) {
        Ok(m) => (m, true),
        Err(_) => (Minute(0), false),
    }
}

#[inline(always)]
fn date_line<const N: usize>(name: &[u8; N], s: &[u8], at: usize) -> (Minute, bool)
    requires { (at ≤ 8192) × (4 ≤ N) × (N ≤ 16) }
    ensures read { result.0 ≡ date_at s.now (at + N) }
    ensures spelled { Told (date_line name.now result.0) s.now at result.1 (at + N + 17) }
{
    let (m, spelled) = date(s, at + N);
    let stops = fields::u8_at(s, at + N + 16) == b'\n';
    (m, stands(name, s, at) & (spelled & stops))
}

#[tactic(auto, unfolding(form_reading::specs::Reading::date_lines_in))]
#[inline(always)]
fn date_lines_at(s: &[u8], at: usize) -> (DateLines, bool)
    requires { at ≤ 221 }
    ensures read { result.0 ≡ date_lines_in s.now at }
    ensures spelled { Told (date_text result.0) s.now at result.1 result.0.next }
    ensures bounds { result.0.next ≤ at + 67 }
{
    let (stamp, a) = date_line(b"stamp=", s, at);
    let (start, b) = date_line(b"start=", s, at + 23);
    let (end, c) = date_line(b"end=", s, at + 46);
    let period = Period { start, end };
    let lines = DateLines {
        stamp,
        period,
        next: at + 67,
    };
    (lines, a & b & c)
}

// Where the form ends among the lines.
#[cold]
fn date_lines_cut(s: &[u8], at: usize) -> (DateLines, bool)
    requires { at ≤ 221 }
    ensures read { result.0 ≡ date_lines_in s.now at }
    ensures spelled { Told (date_text result.0) s.now at result.1 result.0.next }
    ensures bounds { result.0.next ≤ at + 67 }
{
    date_lines_at(s, at)
}

// The three lines are 67 bytes long. Those are fetched at once, so that the places in them need no test.
pub(crate) fn date_lines(s: &[u8], at: usize) -> (DateLines, bool)
    requires { at ≤ 221 }
    ensures read { result.0 ≡ date_lines_in s.now at }
    ensures spelled { Told (date_text result.0) s.now at result.1 result.0.next }
    ensures bounds { result.0.next ≤ 288 }
{
    match fields::chunk_at::<67>(s, at) {
        Some(fetched) => {
            let (lines, spelled) = date_lines_at(fetched, 0);
            let moved = DateLines {
                stamp: lines.stamp,
                period: lines.period,
                next: at + 67,
            };
            (moved, spelled)
        }
        None => date_lines_cut(s, at),
    }
}
