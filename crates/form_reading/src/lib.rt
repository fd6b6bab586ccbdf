// What a form is read as, and the claims that make it right: the definition says by writing what a form's report is, and nothing in it has to
// be believed. `form_reader` has the code.
#![tactic(auto)]

ghost use Rattle.std.specs.Prelude.{◌≡◌, ℕ, ◌≤◌, true, List, length, Ok};
ghost use Rattle.report.specs.Report.{head_of, parts_of};
ghost use Rattle.forms.specs.Form.{text_of, has_form, all_fall, resolution_of, form_at, form_of, AreBytes, IsFormOf};
ghost use Rattle.form_reading.specs.Reading.{form_read};
ghost use Rattle.forms.specs.Lent.{no_report};
ghost use Rattle.form_reading.specs.TextCases.{texts_refused, dates_refused, AreRefused, AreReadBack};

use quantities::{Minute, Period, SignedKilowatt};
use report::Head;

// A number that was read, and the place after it.
#[derive(Clone, Copy)]
pub struct Numeral {
    pub value: u64,
    pub next: usize,
}

// What the first five lines give, and the place after them; the next five; the three dates.
#[derive(Clone, Copy)]
pub struct CodeLines {
    pub unit: u16,
    pub owner: u16,
    pub record_type: u8,
    pub operation: u8,
    pub direction: u8,
    pub next: usize,
}

#[derive(Clone, Copy)]
pub struct MarkLines {
    pub start_mark: u8,
    pub end_mark: u8,
    pub qualification: u8,
    pub ordinal: u16,
    pub identifier: [u8; 16],
    pub next: usize,
}

#[derive(Clone, Copy)]
pub struct DateLines {
    pub stamp: Minute,
    pub period: Period,
    pub next: usize,
}

// A point's position and power, and the place after its line.
#[derive(Clone, Copy)]
pub struct Point {
    pub position: u64,
    pub power: SignedKilowatt,
    pub next: usize,
}

// The period and the resolution on which points are counted.
#[derive(Clone, Copy)]
pub struct Grid {
    pub period: Period,
    pub step: u16,
}

// What a form's lines give, with the places of the first point and of the text.
#[derive(Clone, Copy)]
pub struct Lines {
    pub head: Head,
    pub step: u16,
    pub points_at: usize,
    pub text_at: usize,
}

// This does nothing: its contract is the claim, over all reports and all texts, that makes the reader's definition right whatever it
// is. A report that has a form comes back from it; what is read is bytes and has this form; two reports never share a form; 24 is
// exactly for texts that are the form of no report.
pub fn forms_are_read_back()
    ensures report { (s : List ℕ) → AreBytes s → has_form s ≡ true → form_read (form_of s) ≡ Ok s }
    ensures form { (form s : List ℕ) → form_read form ≡ Ok s → AreBytes s × IsFormOf form s }
    ensures apart { (s t : List ℕ) → AreBytes s → AreBytes t → has_form s ≡ true → has_form t ≡ true → form_of s ≡ form_of t → s ≡ t }
    ensures refused { (form : List ℕ) → ((s : List ℕ) → AreBytes s → IsFormOf form s → ⊥) → form_read form ≡ no_report }
    ensures only { (form : List ℕ) → form_read form ≡ no_report → (s : List ℕ) → AreBytes s → IsFormOf form s → ⊥ }
{}

// This does nothing: its contract is that "a form at a finer one is 24". A report with parts, written with any other step up to
// 1,440 on which all of it falls, is not read.
#[tactic(auto, using(crate::proofs::Round::finer))]
pub fn finer_forms_are_refused()
    ensures { (s : List ℕ) (step : ℕ) → AreBytes s → has_form s ≡ true → 1 ≤ length (parts_of s) → step ≤ 1440
        → all_fall (head_of s) (parts_of s) step ≡ true → (step ≡ resolution_of (head_of s) (parts_of s) → ⊥)
        → form_read (form_at step (head_of s) (parts_of s) (text_of s)) ≡ no_report }
{}

// This does nothing: its contract is that the worked forms give their reports back, and that our own texts, each close to a form, are 24.
#[tactic(auto, using(crate::proofs::TextCases::all_read, crate::proofs::TextCases::all_refused, crate::proofs::TextCases::dates_are_refused))]
pub fn worked_texts_are_answered_right()
    ensures read { AreReadBack }
    ensures refused { AreRefused texts_refused }
    ensures dates { AreRefused dates_refused }
{}
