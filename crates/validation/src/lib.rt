// Questions 4 to 9 and 16: what is asked of a report and its unit's kind and powers.
#![tactic(auto)]

ghost use Rattle.std.specs.Prelude.{◌≡◌, ◌&&◌, ◌||◌, []};
ghost use Rattle.fields.specs.Lists.{all};
ghost use Rattle.report.specs.Report.{parts_of};
ghost use Rattle.rules.specs.Codes.{between, stop, event, create, withdraw};
ghost use Rattle.rules.specs.Records.{part_times, begun};
ghost use Rattle.rules.specs.Questions.{record_by, quarter_hour, part_on_quarter, derating_fits, end_mark_in_range, early_end_times, question4, question6, question8};
ghost use Rattle.validation.specs.Parts.{part_of_size, answers_of, event_times, record_times, head_on_quarters, cover_asked, validation_asked, validated_of};

use quantities::{Kilowatt, Minute};
use records::must;
use report::{Broken, Head, Mark, Operation, Part, RecordType};
use rules::{Kind, PowerRange, Refusal, UnitHead};

// What is asked of each part: its times (question 4), its end on a quarter hour (7), its power (9), its derating (16).
#[derive(Clone, Copy)]
pub struct PartAnswers {
    pub times: bool,
    pub on_quarters: bool,
    pub powers: bool,
    pub deratings: bool,
}

// The first "no" of questions 4 to 9, if there is one, and what question 16 is answered.
#[derive(Clone, Copy)]
pub struct Validated {
    pub passed: Result<(), Refusal>,
    pub deratings: bool,
}

fn part_is_times(p: Part) -> bool
    ensures { result ≡ part_times p }
{
    quantities::is_time(p.period.start) & quantities::is_time(p.period.end)
}

fn is_quarter_hour(m: Minute) -> bool
    ensures { result ≡ quarter_hour m }
{
    m.0 % 15 == 0
}

fn part_is_on_quarter(p: Part, stamp: Minute) -> bool
    ensures { result ≡ part_on_quarter stamp p }
{
    (p.period.end <= stamp) | is_quarter_hour(p.period.end)
}

#[tactic(auto, unfolding(rules::specs::Questions::derating_fits))]
fn derating_fits(range: PowerRange, record_type: RecordType, size: Kilowatt) -> bool
    ensures { result ≡ derating_fits range record_type.0 (part_of_size size) }
{
    let power = quantities::wide(size);
    let max = quantities::wide(range.max);
    let min = quantities::wide(range.min);
    (!(record_type == RecordType::POSITIVE_DERATING) | (power <= max))
        & (!(record_type == RecordType::NEGATIVE_DERATING) | (power + min <= max))
}

// One pass over the parts. Each derating fits if the largest does. By number: tried as `(0..k).fold(..)`, which takes 0.17 µs more for a
// hundred parts; chunks would need a second loop beside theirs, for a report that ends before its parts.
fn ask_parts(
    report: &[u8],
    stamp: Minute,
    range: PowerRange,
    record_type: RecordType,
) -> PartAnswers
    ensures { result ≡ answers_of (parts_of report.now) stamp range record_type.0 }
{
    let k = report::part_count(report);
    let mut times = true;
    let mut on_quarters = true;
    let mut powers = true;
    let mut largest = Kilowatt(0);
    for i in 0..k {
        let p = report::part_at(report, i);
        times = times & part_is_times(p);
        on_quarters = on_quarters & part_is_on_quarter(p, stamp);
        powers = powers & quantities::is_signed_power(p.power);
        largest = largest.max(quantities::size_of(p.power));
    }
    let deratings = (k == 0) | derating_fits(range, record_type, largest);
    PartAnswers {
        times,
        on_quarters,
        powers,
        deratings,
    }
}

// Question 4, of the end mark.
fn end_mark_in_range(h: Head) -> bool
    ensures { result ≡ end_mark_in_range h }
{
    let event_or_withdrawal = (h.record_type == RecordType::EVENT)
        | (h.operation == Operation::WITHDRAW);
    (h.end_mark == Mark::PLANNED) | (records::ends_early(h) & !event_or_withdrawal)
}

// A test for each code, as in `records`, and for the reason there.
fn type_in_range(t: RecordType) -> bool
    ensures { result ≡ between stop event t.0 }
{
    (RecordType::STOP <= t) & (t <= RecordType::EVENT)
}

fn operation_in_range(o: Operation) -> bool
    ensures { result ≡ between create withdraw o.0 }
{
    (Operation::CREATE <= o) & (o <= Operation::WITHDRAW)
}

// Question 4, but for the parts.
#[tactic(auto, unfolding(rules::specs::Questions::question4, fields::specs::Lists::every, fields::specs::Lists::and_each))]
pub fn head_passes(h: Head) -> bool
    ensures { result ≡ question4 h [] }
{
    let r = records::record_by(h);
    let zero = records::identifier_zero(r);
    type_in_range(h.record_type)
        & operation_in_range(h.operation)
        & end_mark_in_range(h)
        & records::fields_in_range(r)
        & (!(h.record_type == RecordType::EVENT) | ((h.operation == Operation::CREATE) & zero))
}

// Question 4's times of each part.
fn parts_are_times(report: &[u8]) -> bool
    ensures { result ≡ all part_times (parts_of report.now) }
{
    let k = report::part_count(report);
    let mut times = true;
    for i in 0..k {
        times = times & part_is_times(report::part_at(report, i));
    }
    times
}

// Question 4 alone, for who asks neither 7 nor 9: a pass of its own over the parts.
#[tactic(auto, using(crate::proofs::InOrder::fields_at))]
pub fn fields_in_range(h: Head, report: &[u8]) -> bool
    ensures { result ≡ question4 h (parts_of report.now) }
{
    head_passes(h) & parts_are_times(report)
}

// Question 6, of an early end.
#[tactic(auto, unfolding(fields::specs::Lists::every, fields::specs::Lists::and_each))]
fn early_end_is_consistent(h: Head) -> bool
    ensures { result ≡ early_end_times h }
{
    (h.operation == Operation::CHANGE)
        & records::is_levelled(h.record_type)
        & (h.start_mark == Mark::EXECUTED)
        & (h.period.start < h.period.end)
        & (h.period.end <= h.stamp)
}

// Question 6, of an event.
#[tactic(auto, unfolding(fields::specs::Lists::every, fields::specs::Lists::and_each))]
fn event_is_consistent(h: Head) -> bool
    ensures { result ≡ event_times h }
{
    (h.start_mark == Mark::EXECUTED)
        & (h.period.start <= h.stamp)
        & (h.period.end == h.period.start)
}

// Question 6, of types 1 to 5 that don't end early.
#[tactic(auto, unfolding(fields::specs::Lists::every, fields::specs::Lists::and_each))]
fn record_is_consistent(h: Head) -> bool
    ensures { result ≡ record_times h }
{
    let begun = h.start_mark == Mark::EXECUTED;
    (h.period.start < h.period.end)
        & (h.stamp < h.period.end)
        & records::choose(begun, h.period.start <= h.stamp, h.stamp < h.period.start)
        & (!(h.record_type == RecordType::OFF_GRID) | begun)
}

// Question 6.
#[tactic(auto, unfolding(rules::specs::Questions::question6))]
fn times_are_consistent(h: Head) -> bool
    ensures { result ≡ question6 h }
{
    records::choose(
        h.record_type == RecordType::EVENT,
        event_is_consistent(h),
        records::choose(
            records::ends_early(h),
            early_end_is_consistent(h),
            record_is_consistent(h),
        ),
    )
}

// Question 7, but for the parts.
fn head_is_on_quarters(h: Head) -> bool
    ensures { result ≡ head_on_quarters h }
{
    let begun = h.start_mark == Mark::EXECUTED;
    is_quarter_hour(h.period.end) & (begun | is_quarter_hour(h.period.start))
}

// Question 8.
#[tactic(auto, unfolding(rules::specs::Questions::question8, rules::specs::Records::cover_by, fields::specs::Lists::pick))]
pub fn judge_cover(h: Head, report: &[u8]) -> Result<(), Broken>
    ensures { result ≡ question8 h (parts_of report.now) }
{
    if (h.operation == Operation::WITHDRAW) | !records::is_levelled(h.record_type) {
        return report::no_parts(report);
    }
    report::cover_of(report, h.period)
}

// Its refusal, which carries the part that breaks cover.
fn must_cover(h: Head, report: &[u8]) -> Result<(), Refusal>
    ensures { result ≡ cover_asked h (parts_of report.now) }
{
    judge_cover(h, report).map_err(|broken| Refusal {
        number: 8,
        part: broken.part,
    })
}

// Questions 4 to 9, in their order.
#[tactic(auto, unfolding(crate::specs::Parts::validation_asked))]
fn ask(kind: Kind, h: Head, report: &[u8], parts: PartAnswers) -> Result<(), Refusal>
    ensures { result ≡ validation_asked kind.0 h (parts_of report.now) parts }
{
    must(h, 4, head_passes(h) & parts.times)?;
    must(h, 5, records::kind_allows(kind, records::record_by(h)))?;
    must(h, 6, times_are_consistent(h))?;
    let quarters = (h.record_type == RecordType::EVENT)
        | (head_is_on_quarters(h) & parts.on_quarters);
    must(h, 7, quarters)?;
    must_cover(h, report)?;
    must(h, 9, parts.powers)
}

// Questions 4 to 9 and 16.
#[tactic(auto, using(crate::proofs::InOrder::validated_in_order))]
pub fn validate(unit: UnitHead, h: Head, report: &[u8]) -> Validated
    ensures { result ≡ validated_of unit h (parts_of report.now) }
{
    let range = records::range_of(unit.powers, h.direction);
    let parts = ask_parts(report, h.stamp, range, h.record_type);
    Validated {
        passed: ask(unit.kind, h, report, parts),
        deratings: parts.deratings,
    }
}
