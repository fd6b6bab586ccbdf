// What a person can look at where a form is refused. 24 names no line: this is found beside the answer.

use crate::from_forms::Collected;
use report::Head;
use report_input::LONGEST;
use std::io::Print;
use texts::Text;

// Tells a report that has no form.
pub(crate) fn tell_report<E: Print>(err: &E, number: u64, report: &[u8]) {
    let mut line = [0u8; 512];
    let mut text = Text::new(&mut line);
    text.put(b"report_forms: report ");
    text.put_decimal(number);
    text.put(b": 25, ");
    put_reason(&mut text, report);
    text.put(b"\n");
    let end = text.end();
    tell(err, &line, end);
}

// Tells a form that is refused.
pub(crate) fn tell_form<E: Print>(err: &E, form: &Collected) {
    let mut line = [0u8; 512];
    let mut text = Text::new(&mut line);
    text.put(b"report_forms: form ");
    text.put_decimal(form.number);
    text.put(b", lines ");
    text.put_decimal(form.first_line);
    text.put(b" to ");
    text.put_decimal(form.last_line());
    text.put(b": 24, ");
    put_hint(&mut text, form);
    text.put(b"\n");
    let end = text.end();
    tell(err, &line, end);
}

// Where the line itself can't be written, nobody can be told.
fn tell<E: Print>(err: &E, line: &[u8; 512], end: usize) {
    let _ = err.write_all(&line[..end.min(512)]);
}

// Why a report has no form.
fn put_reason(text: &mut Text, report: &[u8]) {
    let h = report::head_of(report);
    if !report::is_whole(report) {
        text.put(b"it is not whole (question 2)");
    } else if !validation::fields_in_range(h, report) {
        text.put(b"a field is out of range (question 4)");
    } else if let Err(broken) = validation::judge_cover(h, report) {
        put_broken(text, broken.part);
    } else {
        text.put(last_reason(h));
    }
}

fn put_broken(text: &mut Text, part: u16) {
    if part == 0 {
        text.put(b"it has no parts, or may have none (question 8)");
    } else {
        text.put(b"its parts do not cover its period, part ");
        text.put_decimal(u64::from(part));
        text.put(b" is wrong (question 8)");
    }
}

fn last_reason(h: Head) -> &'static [u8] {
    if !(1..=64).contains(&h.unit) {
        b"its unit is not 1 to 64"
    } else if !(1..=999).contains(&h.owner) {
        b"its owner is not 1 to 999"
    } else {
        b"its text is not printable ASCII"
    }
}

fn put_hint(text: &mut Text, form: &Collected) {
    let bytes = &form.bytes[..form.length];
    if bytes.contains(&b'\r') {
        text.put(b"it has a CR; a line ends in one line feed");
    } else if let Some(line) = misnamed(bytes) {
        put_line_number(text, form.first_line, line);
        text.put(b" has to begin with ");
        text.put(name_of(line));
    } else if !form.is_complete() {
        text.put(b"it ends before its line text=");
    } else if bytes.last() != Some(&b'\n') {
        text.put(b"its last line has no line feed");
    } else {
        put_difference(text, form.first_line, bytes);
    }
}

// The number of a form's line, from 0, in the file.
fn put_line_number(text: &mut Text, first_line: u64, line: usize) {
    text.put(b"line ");
    text.put_decimal(first_line.saturating_add(line as u64));
}

// The first line, from 0, that does not begin with the name of its place.
fn misnamed(form: &[u8]) -> Option<usize> {
    for (i, line) in form.split_inclusive(|c: &u8| *c == b'\n').enumerate() {
        if !is_named(i, line) {
            return Some(i);
        }
    }
    None
}

fn is_named(i: usize, line: &[u8]) -> bool {
    match i {
        0..=12 => line.starts_with(name_of(i)),
        13 => line.starts_with(b"resolution=") | line.starts_with(b"text="),
        _ => line.starts_with(b"point=") | line.starts_with(b"text="),
    }
}

fn name_of(i: usize) -> &'static [u8] {
    match i {
        0 => b"unit=",
        1 => b"owner=",
        2 => b"type=",
        3 => b"operation=",
        4 => b"direction=",
        5 => b"start_mark=",
        6 => b"end_mark=",
        7 => b"qualification=",
        8 => b"ordinal=",
        9 => b"identifier=",
        10 => b"stamp=",
        11 => b"start=",
        12 => b"end=",
        13 => b"resolution= or text=",
        _ => b"point= or text=",
    }
}

// The first line that is another one in the form of the report that the lines give, if it has a form.
fn put_difference(text: &mut Text, first_line: u64, form: &[u8]) {
    let mut scratch = [0u8; LONGEST];
    let report = form_reader::report_in(form, &mut scratch);
    let mut right = [0u8; 3584];
    match forms::write_form(report, &mut right) {
        Ok(length) => put_right_line(text, first_line, form, &right[..length]),
        Err(_) => put_reason(text, report),
    }
}

fn put_right_line(text: &mut Text, first_line: u64, form: &[u8], right: &[u8]) {
    let line = equal_lines(form, right);
    put_line_number(text, first_line, line);
    match line {
        0..=8 => text.put(
            b" has no number in its range, or one with zeros in front, a sign or a blank",
        ),
        9 => text.put(b" has no 32 digits 0 to 9 and a to f"),
        10..=12 => text.put(b" has no date such as 2026-03-01 00:10"),
        _ => put_line_of(text, line, right),
    }
}

fn put_line_of(text: &mut Text, line: usize, right: &[u8]) {
    match right.split_inclusive(|c: &u8| *c == b'\n').nth(line) {
        Some(right_line) if right_line.len() == 206 => {
            text.put(b" has more than 200 characters");
        }
        Some(right_line) if right_line.starts_with(b"point=") => {
            text.put(b" has no position, blank and power as they are written, or one out of range");
        }
        Some(right_line) => {
            text.put(b" has to be ");
            text.put(right_line.strip_suffix(b"\n").unwrap_or(right_line));
        }
        None => text.put(b" is one too many"),
    }
}

// How many lines are the same in both, from the first on.
fn equal_lines(form: &[u8], right: &[u8]) -> usize {
    let lines = form.split_inclusive(|c: &u8| *c == b'\n');
    let right_lines = right.split_inclusive(|c: &u8| *c == b'\n');
    lines.zip(right_lines).take_while(|(a, b)| a == b).count()
}
