// The shift log: a report's line and the totals as bytes, what a report adds to the log, and how the input is read.
// No line is longer than 128 bytes, and none with a remark than 1,024; what a shorter text has no room for is left out.
#![tactic(auto)]

ghost use Rattle.std.specs.Prelude.{◌≡◌, List, [], ◌∷◌, ◌++◌, ℕ, ◌+◌, ◌*◌, ◌/◌, ◌%◌, ◌≤◌, ◌<◌, length};
ghost use Rattle.std.proofs.Common.{rules};
ghost use Rattle.fields.specs.Lists.{pick, put};
ghost use Rattle.fields.specs.Ascii.{ascii};
ghost use Rattle.rules.specs.declared.Answer.{Answer};
ghost use Rattle.rules.specs.Desk.{answer_to};
ghost use Rattle.log_lines.specs.declared.Progress.{Progress};
ghost use Rattle.report.specs.Report.{most_parts, most_text, parts_start, text_after};
ghost use Rattle.texts.specs.Texts.{Writes, Puts};
ghost use Rattle.texts.specs.Numerals.{decimal, hex_digit, space, line_feed};
ghost use Rattle.log_lines.specs.Log.{fault_line, set_up_line, unit_text, stamp_text, number_column};
ghost use Rattle.log_lines.specs.Log.{line_text, log_header, header_with, log_line, line_with, totals_line};
ghost use Rattle.log_lines.specs.Remarks.{shown_byte, shown, remark_title, remark_column, remark_line, remarks_header};
ghost use Rattle.log_lines.specs.Run.{entry_begins, stated_length, most_counted, one_more, count_answer, progress_after, at_start};
ghost use Rattle.log_lines.specs.Run.{logged_at, logged_after, remark_logged, logged_after_with, next_line_with, log_from, log_of, shift_log};
ghost use Rattle.log_lines.specs.RosterA.{stream_a, log_a};

use quantities::Minute;
use report::{MOST_PARTS, MOST_TEXT, PART_SIZE, PARTS_START};
use rules::Answer;
use texts::Text;

// The reports accepted clean, accepted with warnings, and refused.
#[derive(Clone, Copy, Default)]
pub struct Totals {
    pub clean: u64,
    pub warned: u64,
    pub refused: u64,
}

// The lines written so far, and their totals.
#[derive(Clone, Copy, Default)]
pub struct Progress {
    pub lines: u64,
    pub totals: Totals,
}

// The progress after a report, the length of its line, and whether it was accepted, and ends the run: callers ask the two apart, and join
// each over many reports.
#[derive(Clone, Copy)]
pub struct Logged {
    pub progress: Progress,
    pub length: usize,
    pub accepted: bool,
    pub ends: bool,
}

fn put_number(text: &mut Text, n: u64)
    ensures { Writes 21 text.old (number_column n) text.new }
{
    text.put_decimal(n);
    text.put(b" ");
}

#[tactic(auto, using(texts::proofs::Texts::same_text), unfolding(crate::specs::Log::unit_text, fields::specs::Lists::pick))]
fn put_unit(text: &mut Text, number: u8, unit: u32)
    ensures { Writes 21 text.old (unit_text number unit ++ space) text.new }
{
    if number == 2 {
        text.put(b"- ");
    } else {
        put_number(text, unit as u64);
    }
}

// The date, or "-".
#[tactic(auto, using(texts::proofs::Texts::same_text), unfolding(crate::specs::Log::stamp_text, fields::specs::Lists::pick))]
fn put_stamp(text: &mut Text, number: u8, stamp: Minute)
    ensures { Writes 16 text.old (stamp_text number stamp) text.new }
{
    match calendar::print_date(stamp) {
        Ok(date) if number != 2 => text.put(&date),
        _ => text.put(b"-"),
    }
}

// The columns that every log has. The answer comes as `told` has it: each column is one of its numbers.
fn put_columns(text: &mut Text, line: u64, report: &[u8], a: Answer)
    ensures { Writes 121 text.old (line_text line report.now a) text.new }
{
    let h = reader::line_head(report);
    put_number(text, line);
    put_unit(text, a.number, h.unit);
    put_number(text, a.number as u64);
    put_number(text, a.warnings as u64);
    put_number(text, a.part as u64);
    put_stamp(text, a.number, h.stamp);
}

// Backslash, x and two hex digits.
fn put_escape(text: &mut Text, b: u8)
    ensures { Writes 4 text.old (ascii "\\x" ++ (hex_digit (b / 16) ∷ hex_digit (b % 16) ∷ [])) text.new }
{
    text.put(b"\\x");
    text.put_hex(b);
}

#[tactic(auto, using(texts::proofs::Texts::same_text), unfolding(crate::specs::Remarks::shown_byte, fields::specs::Lists::pick))]
fn put_shown_byte(text: &mut Text, b: u8)
    ensures { Writes 4 text.old (shown_byte b) text.new }
{
    if b == b'\\' {
        text.put(b"\\\\");
    } else if (0x20 <= b) & (b <= 0x7E) {
        text.put(&[b]);
    } else {
        put_escape(text, b);
    }
}

// A bar, and the bytes of a remark as they are shown.
#[tactic(auto, unfolding(crate::specs::Remarks::shown))]
fn put_shown(text: &mut Text, remark: &[u8])
    ensures { Writes (3 + 4 * length remark.now) text.old (ascii " | " ++ shown remark.now) text.new }
{
    text.put(b" | ");
    for b in remark {
        put_shown_byte(text, *b);
    }
}

// What a log has beside the columns of every log: the title, and what follows a report's stamp.
pub trait Lines {
    ghost title: { List ℕ };

    ghost column: { List ℕ → List ℕ };

    // how many bytes a line may take beyond 128
    ghost room: { ℕ };

    fn title() -> &'static [u8]
        ensures text { result.now ≡ title }
        ensures upper_bound { length result.now ≤ 97 };

    fn put_column(text: &mut Text, report: &[u8])
        ensures { Writes room text.old (column report.now) text.new };

    // no line is longer than 1,024 bytes
    ghost bounded: { room ≤ 896 };
}

// Nothing.
pub struct Plain;

impl Lines for Plain {
    ghost title = { [] };

    ghost column = { λ s. [] };

    ghost room = { 0 };

    fn title() -> &'static [u8] {
        b""
    }

    fn put_column(text: &mut Text, report: &[u8]) {
        text.put(b"");
    }

    ghost bounded = { Prim.search rules };
}

// Each report's remark.
pub struct WithRemarks;

impl Lines for WithRemarks {
    ghost title = { remark_title };

    ghost column = { remark_column };

    ghost room = { 896 };

    fn title() -> &'static [u8] {
        b" | remark"
    }

    fn put_column(text: &mut Text, report: &[u8]) {
        match report::remark(report, b"no remark") {
            Ok(found) => put_shown(text, found),
            Err(refused) => put_shown(text, refused.stretch),
        }
    }

    ghost bounded = { Prim.search rules };
}

// This and the functions below answer with the length of the whole text, which a part of a shorter buffer could not say.
pub fn put_header<L: Lines>(text: &mut [u8]) -> usize
    ensures { Puts 128 text.old (header_with L.title) text.new result }
{
    let mut text = Text::new(text);
    text.put(b"no unit answer warn part stamp");
    text.put(L::title());
    text.put(b"\n");
    text.end()
}

// The line of a report with its answer, at the start of the text; its length.
pub fn put_line<L: Lines>(text: &mut [u8], line: u64, report: &[u8], a: Answer) -> usize
    ensures { Puts (128 + L.room) text.old (line_with L.column line report.now a) text.new result }
{
    let mut text = Text::new(text);
    put_columns(&mut text, line, report, a);
    L::put_column(&mut text, report);
    text.put(b"\n");
    text.end()
}

pub fn put_totals(text: &mut [u8], t: Totals) -> usize
    ensures { Puts 128 text.old (totals_line t) text.new result }
{
    let mut text = Text::new(text);
    text.put(b"total ");
    put_number(&mut text, t.clean);
    put_number(&mut text, t.warned);
    text.put_decimal(t.refused);
    text.put(b"\n");
    text.end()
}

// A number after a word, on a line of its own.
fn put_number_line(text: &mut [u8], word: &[u8], n: u64) -> usize
    requires { length word.now ≤ 64 }
    ensures { Puts 128 text.old (word.now ++ decimal n ++ line_feed) text.new result }
{
    let mut text = Text::new(text);
    text.put(word);
    text.put_decimal(n);
    text.put(b"\n");
    text.end()
}

// What is printed where set-up refuses the roster. By number: `SetUpError` would refuse other numbers to callers.
#[tactic(auto, unfolding(crate::specs::Log::fault_line))]
pub fn put_fault(text: &mut [u8], number: u8) -> usize
    ensures { Puts 128 text.old (fault_line number) text.new result }
{
    put_number_line(text, b"roster ", number as u64)
}

// What is printed where set-up has made a register file.
#[tactic(auto, unfolding(crate::specs::Log::set_up_line))]
pub fn put_set_up(text: &mut [u8], units: u64) -> usize
    ensures { Puts 128 text.old (set_up_line units) text.new result }
{
    put_number_line(text, b"units set up: ", units)
}

#[tactic(auto, using(crate::proofs::Counts::saturated))]
fn one_more(n: u64) -> u64
    ensures { result ≡ one_more n }
{
    n.saturating_add(1)
}

// One `if`: `records::choose` would be one more crate below this one.
#[tactic(auto, unfolding(fields::specs::Lists::pick))]
fn counted(n: u64, counts: bool) -> u64
    ensures { result ≡ pick counts (one_more n) n }
{
    if counts { one_more(n) } else { n }
}

#[tactic(auto, unfolding(crate::specs::Run::count_answer))]
fn count_answer(t: Totals, a: Answer) -> Totals
    ensures { result ≡ count_answer t a }
{
    Totals {
        clean: counted(t.clean, (a.number == 0) & (a.warnings == 0)),
        warned: counted(t.warned, (a.number == 0) & (a.warnings != 0)),
        refused: counted(t.refused, a.number != 0),
    }
}

pub fn at_start() -> Progress
    ensures { result ≡ at_start }
{
    Progress::default()
}

fn progress_after(so_far: Progress, a: Answer) -> Progress
    ensures { result ≡ progress_after so_far a }
{
    let lines = one_more(so_far.lines);
    let known = so_far.totals;
    let totals = count_answer(known, a);
    Progress { lines, totals }
}

fn logged_at(progress: Progress, a: Answer, length: usize) -> Logged
    ensures { result ≡ logged_at progress a length }
{
    let accepted = a.number == 0;
    let ends = a.number == 2;
    Logged {
        progress,
        length,
        accepted,
        ends,
    }
}

// Answers a report on the register, and puts its line at the start of the text.
pub fn log_report<L: Lines>(
    register: &mut [u8],
    report: &[u8],
    so_far: Progress,
    text: &mut [u8],
) -> Logged
    ensures length_bound { result.length ≤ 128 + L.room }
    ensures value { result ≡ logged_after_with L.column so_far register.old report.now }
    ensures text_after { text.new ≡ put text.old 0 (next_line_with L.column so_far register.old report.now) }
    ensures register_after { register.new ≡ (answer_to register.old report.now).after }
{
    let a = desk::told(desk::answer_report(register, report));
    let progress = progress_after(so_far, a);
    let length = put_line::<L>(text, progress.lines, report, a);
    logged_at(progress, a, length)
}

// Another roster entry begins here: both bytes of its mark.
pub fn entry_begins(input: &[u8]) -> bool
    ensures { result ≡ entry_begins input.now }
{
    fields::u16_at(input, 0) == 0x474A
}

// A report's length by its own k and t.
#[tactic(auto, unfolding(crate::specs::Run::stated_length, fields::specs::Lists::pick))]
pub fn stated_length(head: &[u8]) -> usize
    ensures value { result ≡ stated_length head.now }
    ensures bounds { (parts_start ≤ result) × (result ≤ text_after most_parts + most_text) }
{
    let h = reader::line_head(head);
    if (h.part_count <= MOST_PARTS as u32) & (h.text_length <= MOST_TEXT as u32) {
        let text = PARTS_START + PART_SIZE * (h.part_count as usize) + 2;
        text + (h.text_length as usize)
    } else {
        PARTS_START
    }
}

// What is promised of a log with one column more is promised of the log and of the log with remarks.
pub fn both_logs_are_instances()
    ensures header { header_with ⟦<Plain as Lines>⟧.title ≡ log_header }
    ensures line { (n : ℕ) (s : List ℕ) (a : Answer) → line_with ⟦<Plain as Lines>⟧.column n s a ≡ log_line n s a }
    ensures logged { (so_far : Progress) (register s : List ℕ) → logged_after_with ⟦<Plain as Lines>⟧.column so_far register s ≡ logged_after so_far register s }
    ensures remarks_header { header_with ⟦<WithRemarks as Lines>⟧.title ≡ remarks_header }
    ensures remark_line { (n : ℕ) (s : List ℕ) (a : Answer) → line_with ⟦<WithRemarks as Lines>⟧.column n s a ≡ remark_line n s a }
    ensures remark_logged { (so_far : Progress) (register s : List ℕ) → logged_after_with ⟦<WithRemarks as Lines>⟧.column so_far register s ≡ remark_logged so_far register s }
{}

// The lines and totals that the steps write for a list of reports are those of the definition's answers: the totals count them.
pub fn totals_count_the_answers()
    ensures { (register : List ℕ) (ss : List (List ℕ)) → length ss ≤ most_counted → log_from at_start register ss ≡ log_of register ss }
{}

// The log of roster A's input is the one that paper 01 prints.
pub fn roster_a_gets_its_log()
    ensures { shift_log stream_a ≡ log_a }
{}
