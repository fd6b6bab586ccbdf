// Questions 10 to 19 on a unit's block, the number of the first "no", and what an accepted report does to the slots.
#![tactic(auto)]

ghost use Rattle.std.specs.Prelude.{◌≡◌, true, ◌&&◌, ◌+◌, ◌≤◌, ltb, map};
ghost use Rattle.std.specs.List.{list_all};
ghost use Rattle.std.specs.Option.{unwrap_or};
ghost use Rattle.fields.specs.Lists.{pick, series};
ghost use Rattle.rules.specs.Records.{same_identifier};
ghost use Rattle.rules.specs.Block.{slot_count, slot_numbered, slot_at, used};
ghost use Rattle.rules.specs.Questions.{record_at, live, range_of, creation_head, begins_by, changes_by, has_transition, question13, question14, must_leave};
ghost use Rattle.rules.specs.Minutes.{question17};
ghost use Rattle.rules.specs.After.{one_stop_one_levelled, warns_overlap, worth};
ghost use Rattle.rules.specs.Judge.{must};
ghost use Rattle.levels.specs.Counted.{swept_records};
ghost use Rattle.judge.specs.Survey.{holder_of, slot_answers as answers_of, used_record, answers_at, survey_of, free_among};
ghost use Rattle.judge.specs.Decided.{written_by, holder_asked, limits_asked, limits_decided, decision_of};
ghost use Rattle.judge.specs.Warned.{overlaps, overlap_at, minute_warnings, warnings_on};

use block::SLOT_COUNT;
use levels::{Limits, Swept};
use quantities::Minute;
use records::must;
use report::{Direction, Head, Mark, Operation, RecordType};
use rules::{Kind, Record, Refusal, Row, UnitHead};

// What is asked of a slot from question 15 on: does it count beside the report, is its clash with the report closed,
// does its record leave, does it stay, is the slot cleared.
#[derive(Clone, Copy)]
pub struct SlotAnswers {
    pub other: bool,
    pub closed: bool,
    pub leaves: bool,
    pub stays: bool,
    pub cleared: bool,
}

// Of a slot that no record is in.
const FREE: SlotAnswers = SlotAnswers {
    other: false,
    closed: true,
    leaves: false,
    stays: false,
    cleared: false,
};

// What an accepted report does: the slots that are cleared, the slot that is written, whether the state changes, and whether some
// record leaves.
#[derive(Clone, Copy)]
pub struct Decision {
    pub cleared: [bool; 8],
    pub written: Option<u8>,
    pub changes: bool,
    pub left: bool,
}

// A report on its unit's block, and the heads of both.
#[derive(Clone, Copy)]
struct Judged<'a> {
    block: &'a [u8],
    report: &'a [u8],
    head: Head,
    unit: UnitHead,
}

// A report's head, the slot that holds its identifier, and whether the unit's state changes.
#[derive(Clone, Copy)]
struct Placed {
    head: Head,
    slot: Option<u8>,
    changes: bool,
}

// The record in slot i, if the slot is used. Inlined, so that callers read of it what they ask for and no record is copied.
#[inline(always)]
#[tactic(auto, unfolding(crate::specs::Survey::used_record, fields::specs::Lists::pick))]
fn used_record(b: &[u8], i: u8) -> Option<Record>
    ensures { result ≡ used_record b.now i }
{
    let z = block::slot_at(b, i);
    block::is_used(z).then(|| block::record_in(z))
}

// Slot i is live and has the record's identifier.
#[tactic(auto, unfolding(crate::specs::Survey::used_record, rules::specs::Questions::live, fields::specs::Lists::pick))]
fn holds(b: &[u8], r: Record, i: u8) -> bool
    ensures { result ≡ (live b.now r.stamp.0 i && same_identifier r (record_at b.now i)) }
{
    used_record(b, i).is_some_and(|x| (r.stamp < x.period.end) & records::same_identifier(r, x))
}

// The live slot that has the record's identifier.
fn find_holder(b: &[u8], r: Record) -> Option<u8>
    ensures { result ≡ slot_numbered (holder_of b.now r) }
{
    (0..SLOT_COUNT).find(|i| holds(b, r, *i))
}

// The record in a slot; where there is none, what is read past the last slot, which is all zeros: questions 13 and 14 speak of a
// record in every case.
fn held_record(b: &[u8], slot: Option<u8>) -> Record
    ensures { result ≡ record_at b.now (unwrap_or slot slot_count) }
{
    block::record_in(block::slot_at(b, slot.unwrap_or(SLOT_COUNT)))
}

// Question 13. Head and held record go through five functions: a struct of both would stand in each clause, where the definitions take
// the two.
fn is_of_holder(h: Head, held: Record) -> bool
    ensures { result ≡ question13 h held }
{
    (h.operation == Operation::CREATE)
        | ((h.record_type == held.record_type)
            & (h.direction == held.direction)
            & (h.qualification == held.qualification)
            & (held.ordinal < h.ordinal))
}

// Question 14.
fn may_move(h: Head, held: Record) -> bool
    ensures { result ≡ question14 h held }
{
    (h.operation == Operation::CREATE)
        | records::choose(
            records::has_begun(held),
            (h.operation == Operation::CHANGE)
                & (h.period.start == held.period.start)
                & (h.start_mark == Mark::EXECUTED),
            !records::ends_early(h),
        )
}

// Questions 10 to 14. Flag and record apart: 13 and 14 are asked of a record in every case, as `held_record` says.
#[tactic(auto, unfolding(crate::specs::Decided::holder_asked))]
fn ask_holder(last: Minute, h: Head, is_held: bool, held: Record) -> Result<(), Refusal>
    ensures { result ≡ holder_asked last h is_held held }
{
    let creates = h.operation == Operation::CREATE;
    must(h, 10, last <= h.stamp)?;
    must(h, 11, !creates | !is_held)?;
    must(h, 12, creates | is_held)?;
    must(h, 13, is_of_holder(h, held))?;
    must(h, 14, may_move(h, held))
}

// A creation of types 1 to 5.
fn creates_record(h: Head) -> bool
    ensures { result ≡ creation_head h }
{
    (h.operation == Operation::CREATE) & !(h.record_type == RecordType::EVENT)
}

fn begins(h: Head, held: Record) -> bool
    ensures { result ≡ begins_by h held }
{
    records::holds_state(records::record_by(h))
        & ((h.operation == Operation::CREATE)
            | ((h.operation == Operation::CHANGE) & !records::has_begun(held)))
}

fn changes_state(kind: Kind, h: Head, held: Record) -> bool
    ensures { result ≡ changes_by kind.0 h held }
{
    (kind == Kind::W1) & ((h.record_type == RecordType::EVENT) | begins(h, held))
}

impl Placed {
    fn must_leave(self, x: Record) -> bool
        ensures { result ≡ must_leave self.head self.changes x }
    {
        let r = records::record_by(self.head);
        (!(self.head.operation == Operation::WITHDRAW)
            & records::records_clash(r, x)
            & records::record_closes(r, x))
            | (self.changes & records::holds_state(x))
    }

    // Of slot i with record x.
    #[tactic(auto, unfolding(crate::specs::Survey::slot_answers))]
    fn slot_answers(self, x: Record, i: u8) -> SlotAnswers
        ensures { result ≡ answers_of self.head self.slot self.changes true (ltb self.head.stamp.0 x.period.end.0) x i }
    {
        let r = records::record_by(self.head);
        let is_live = self.head.stamp < x.period.end;
        let is_holder = Some(i) == self.slot;
        let other = is_live & !((self.head.operation == Operation::CHANGE) & is_holder);
        let closed = !(other & records::records_clash(r, x)) | records::record_closes(r, x);
        let leaves = other & self.must_leave(x);
        let stays = is_live & !leaves & !(records::vacates_slot(self.head) & is_holder);
        SlotAnswers {
            other,
            closed,
            leaves,
            stays,
            cleared: !stays,
        }
    }

    #[tactic(auto, unfolding(crate::specs::Survey::used_record, crate::specs::Survey::answers_at, crate::specs::Survey::slot_answers, rules::specs::Questions::live, fields::specs::Lists::pick))]
    fn answers_at(self, b: &[u8], i: u8) -> SlotAnswers
        ensures { result ≡ answers_at b.now self.head self.slot self.changes i }
    {
        match used_record(b, i) {
            Some(x) => self.slot_answers(x, i),
            None => FREE,
        }
    }

    fn survey_slots(self, b: &[u8]) -> [SlotAnswers; 8]
        ensures { result ≡ survey_of b.now self.head self.slot self.changes }
    {
        std::array::from_fn(|i: usize| self.answers_at(b, i as u8))
    }

    // The slot that an accepted report writes.
    #[tactic(auto, unfolding(crate::specs::Decided::written_by, fields::specs::Lists::pick))]
    fn slot_written(self, free: Option<u8>) -> Option<u8>
        ensures { result ≡ written_by self.head self.slot free }
    {
        if creates_record(self.head) {
            free
        } else if (self.head.operation == Operation::CHANGE) & !records::ends_early(self.head) {
            self.slot
        } else {
            None
        }
    }
}

// The lowest slot that does not keep its record.
fn free_slot(slots: [SlotAnswers; 8]) -> Option<u8>
    ensures { result ≡ free_among slots }
{
    slots.iter().position(|a| !a.stays).map(|i| i as u8)
}

#[tactic(auto, unfolding(fields::specs::Lists::pick))]
fn has_transition(row: Row, h: Head) -> bool
    ensures { result ≡ has_transition row h }
{
    row::transition(row, h).is_some()
}

// Question 15.
fn all_closed(slots: [SlotAnswers; 8]) -> bool
    ensures { result ≡ list_all (λ a. a.closed) slots }
{
    slots.iter().all(|a| a.closed)
}

// What a unit's levels are held against.
fn limits_of(unit: UnitHead, direction: Direction) -> Limits
    ensures { result ≡ record { kind = unit.kind; range = range_of unit.powers direction.0 } }
{
    Limits {
        kind: unit.kind,
        range: records::range_of(unit.powers, direction),
    }
}

impl<'a> Judged<'a> {
    // Question 17.
    #[tactic(auto, unfolding(rules::specs::Minutes::question17, fields::specs::Lists::pick))]
    fn minutes_fit(&self, others: [bool; 8]) -> bool
        ensures { result ≡ question17 self.now.unit.kind.0 self.now.unit.powers (swept_records self.now.block.now self.now.report.now others true) self.now.head }
    {
        let h = self.head;
        if !records::is_levelled(h.record_type) {
            return true;
        }
        let swept = Swept {
            counted: others,
            with_report: true,
        };
        let limits = limits_of(self.unit, h.direction);
        levels::fits(
            self.block,
            self.report,
            swept,
            h.direction,
            h.period,
            limits,
        )
    }

    // Question 17; no minute is looked at where it is skipped.
    #[tactic(auto, unfolding(fields::specs::Lists::pick))]
    fn ask_minutes(&self, slots: [SlotAnswers; 8]) -> Result<(), Refusal>
        ensures { result ≡ must self.now.head 17 (question17 self.now.unit.kind.0 self.now.unit.powers (swept_records self.now.block.now self.now.report.now (map (λ a. a.other) slots) true) self.now.head) }
    {
        if records::skips_question(self.head, 17) {
            return Ok(());
        }
        must(self.head, 17, self.minutes_fit(slots.map(|a| a.other)))
    }

    // Questions 15 to 19.
    #[tactic(auto, unfolding(crate::specs::Decided::limits_asked))]
    fn ask_limits(
        &self,
        slots: [SlotAnswers; 8],
        changes: bool,
        deratings: bool,
    ) -> Result<(), Refusal>
        ensures { result ≡ limits_asked self.now.block.now self.now.report.now self.now.head self.now.unit slots changes deratings }
    {
        let h = self.head;
        must(h, 15, all_closed(slots))?;
        must(h, 16, deratings)?;
        self.ask_minutes(slots)?;
        must(h, 18, !changes | has_transition(self.unit.row, h))?;
        must(h, 19, !creates_record(h) | free_slot(slots).is_some())
    }

    // Questions 15 to 19, and what an accepted report does.
    fn decide_limits(
        &self,
        slot: Option<u8>,
        changes: bool,
        deratings: bool,
    ) -> Result<Decision, Refusal>
        ensures { result ≡ limits_decided self.now.block.now self.now.report.now self.now.head self.now.unit slot changes deratings }
    {
        let placed = Placed {
            head: self.head,
            slot,
            changes,
        };
        let slots = placed.survey_slots(self.block);
        self.ask_limits(slots, changes, deratings)?;
        Ok(Decision {
            cleared: slots.map(|a| a.cleared),
            written: placed.slot_written(free_slot(slots)),
            changes,
            left: slots.iter().any(|a| a.leaves),
        })
    }
}

// The first "no" of questions 4 to 19, or what an accepted report does to the slots.
pub fn decide(b: &[u8], report: &[u8]) -> Result<Decision, Refusal>
    ensures { result ≡ decision_of b.now report.now }
{
    let h = report::head_of(report);
    let unit = block::unit_head(b);
    let validated = validation::validate(unit, h, report);
    validated.passed?;
    let slot = find_holder(b, records::record_by(h));
    let held = held_record(b, slot);
    ask_holder(unit.last_stamp, h, slot.is_some(), held)?;
    let changes = changes_state(unit.kind, h, held);
    let judged = Judged {
        block: b,
        report,
        head: h,
        unit,
    };
    judged.decide_limits(slot, changes, validated.deratings)
}

fn one_stop_one_levelled(x: Record, y: Record) -> bool
    ensures { result ≡ one_stop_one_levelled x y }
{
    let x_levelled = records::is_levelled(x.record_type);
    let y_levelled = records::is_levelled(y.record_type);
    (x_levelled & (y.record_type == RecordType::STOP))
        | ((x.record_type == RecordType::STOP) & y_levelled)
}

// Warning 1, of a record in a slot.
fn overlaps(r: Record, x: Record) -> bool
    ensures { result ≡ overlaps r x }
{
    one_stop_one_levelled(r, x)
        & records::directions_meet(r.direction, x.direction)
        & quantities::overlapping(r.period, x.period)
}

// Warning 1, of slot i.
#[tactic(auto, unfolding(crate::specs::Survey::used_record, fields::specs::Lists::pick))]
fn overlaps_at(after: &[u8], r: Record, i: u8) -> bool
    ensures { result ≡ overlap_at after.now r i }
{
    used_record(after, i).is_some_and(|x| overlaps(r, x))
}

fn warns_overlap(after: &[u8], h: Head) -> bool
    ensures { result ≡ warns_overlap after.now h }
{
    let r = records::record_by(h);
    (0..SLOT_COUNT).any(|i| overlaps_at(after, r, i))
}

fn used_slots(b: &[u8]) -> [bool; 8]
    ensures { result ≡ series (λ i. used (slot_at b.now i)) 0 slot_count }
{
    std::array::from_fn(|i: usize| block::is_used(block::slot_at(b, i as u8)))
}

#[tactic(auto, unfolding(fields::specs::Lists::pick))]
// `records::choose` of n and 0, with the bound that the sums of warnings need.
fn worth_of(n: u8, t: bool) -> u8
    ensures { (result ≡ worth n t) × (result ≤ n) }
{
    if t { n } else { 0 }
}

// Warnings 2 and 4.
#[tactic(auto, unfolding(rules::specs::After::warns_minute, fields::specs::Lists::pick))]
fn minute_warnings(after: &[u8], h: Head) -> u8
    ensures { (result ≡ minute_warnings after.now h) × (result ≤ 6) }
{
    if h.record_type != RecordType::FORCED_WORK {
        return 0;
    }
    let counted = used_slots(after);
    let unit = block::unit_head(after);
    let limits = limits_of(unit, h.direction);
    let g = levels::warn(after, counted, h.direction, h.period, limits);
    worth_of(2, g.above) + worth_of(4, g.below)
}

// The warnings of an accepted report, 1, 2, 4 and 8 as the papers add them up, on the block afterwards; `left`: some record left.
#[tactic(auto, unfolding(crate::specs::Warned::warnings_on, fields::specs::Lists::pick))]
pub fn warnings_on(after: &[u8], h: Head, left: bool) -> u8
    ensures { result ≡ warnings_on after.now h left }
{
    if (h.record_type == RecordType::EVENT) | records::vacates_slot(h) {
        return 0;
    }
    let overlap = worth_of(1, warns_overlap(after, h));
    let left_by_stop = worth_of(8, (h.record_type == RecordType::STOP) & left);
    overlap + minute_warnings(after, h) + left_by_stop
}
