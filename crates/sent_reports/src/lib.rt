// Roster A and the reports that paper 01 sends, as bytes, and a register fresh from roster A.
#![tactic(auto)]

ghost use Rattle.std.specs.Prelude.{◌≡◌, ◌+◌, ◌≤◌, [], ◌∷◌, ◌++◌, length, take, min};
ghost use Rattle.fields.specs.Fields.{bytes_of};
ghost use Rattle.fields.specs.Lists.{pick, put};
ghost use Rattle.report.specs.Encoded.{encode_head, encode_part, encode_parts};
ghost use Rattle.rules.specs.Samples.{powers_of, entry_for, entry_bytes};
ghost use Rattle.rules.specs.Codes.{is_levelled, executed};
ghost use Rattle.rules.specs.Cases.{roster_a};
ghost use Rattle.rules.specs.Desk.{set_up, new_register};
ghost use Rattle.sent_reports.specs.Sent.{sent_as, derating_over, derating_sent, forced_sent, stop_sent, event_sent, parts_sent, length_sent, part_sent, levels_sent, head_sent, report_sent};

use quantities::{Kilowatt, Minute, Period, SignedKilowatt};
use report::{Direction, Head, Mark, Operation, Part, RecordType};
use rules::{Kind, PowerRange, Powers, RosterEntry, Row, State};

// "D is 13,760,640, which is 2026-03-01 00:00."
pub const D: u32 = 13760640;

// The most bytes of a report that is sent here, and those of roster A's register: two blocks.
pub const MOST_BYTES: usize = 82;

pub const REGISTER_SIZE: usize = 14336;

// Where a report's power changes, and the power from then on.
#[derive(Clone, Copy)]
pub struct Step {
    pub at: u32,
    pub power: u32,
}

// Numbers as the papers write them, D+60 and 20,000, and no Minutes and Kilowatts: `compose` makes bytes of them.
// A creation with direction 1 and ordinal 1. Levelled types have one part, or two where the power changes at a step.
#[derive(Clone, Copy)]
pub struct Sent {
    pub unit: u16,
    pub owner: u16,
    pub record_type: RecordType,
    pub start_mark: Mark,
    pub qualification: u8,
    pub place: u8,
    pub stamp: u32,
    pub start: u32,
    pub end: u32,
    pub power: u32,
    pub step: Option<Step>,
}

// "Unless said: create, positive derating, owner 7, direction 1, planned, ordinal 1, t = 0, .. 20,000 in one part D+60 to D+120"
pub fn derating(place: u8) -> Sent
    ensures { result ≡ derating_sent place }
{
    Sent {
        unit: 1,
        owner: 7,
        record_type: RecordType::POSITIVE_DERATING,
        start_mark: Mark::PLANNED,
        qualification: 0,
        place,
        stamp: D + 10,
        start: D + 60,
        end: D + 120,
        power: 20000,
        step: None,
    }
}

pub fn derating_over(place: u8, stamp: u32, start: u32, end: u32) -> Sent
    ensures { result ≡ derating_over place stamp start end }
{
    Sent {
        stamp,
        start,
        end,
        ..derating(place)
    }
}

pub fn forced(place: u8, power: u32) -> Sent
    ensures { result ≡ forced_sent place power }
{
    Sent {
        record_type: RecordType::FORCED_WORK,
        power,
        ..derating(place)
    }
}

// A record that has begun.
fn begun(record_type: RecordType, place: u8, qualification: u8, start: u32, end: u32) -> Sent
    ensures { result ≡ sent_as record_type.0 executed qualification place (D + 10) start end 20000 }
{
    Sent {
        record_type,
        start_mark: Mark::EXECUTED,
        qualification,
        start,
        end,
        ..derating(place)
    }
}

// "stops and "one from" end D+180"
pub fn begun_stop(place: u8, qualification: u8, start: u32) -> Sent
    ensures { result ≡ stop_sent place qualification start }
{
    begun(RecordType::STOP, place, qualification, start, D + 180)
}

// "events start at D+10, end = start, mark 2, identifier zero"
pub fn event(code: u8) -> Sent
    ensures { result ≡ event_sent code }
{
    begun(RecordType::EVENT, 0, code, D + 10, D + 10)
}

#[tactic(auto, unfolding(fields::specs::Lists::pick))]
fn part_count(s: Sent) -> u16
    ensures upper_bound { result ≤ 2 }
    ensures value { result ≡ parts_sent s }
{
    if !records::is_levelled(s.record_type) {
        return 0;
    }
    match s.step {
        None => 1,
        Some(_) => 2,
    }
}

// How many bytes the report has.
pub fn length_of(s: Sent) -> usize
    ensures bounds { (50 ≤ result) × (result ≤ 82) }
    ensures value { result ≡ length_sent s }
{
    report::text_after(part_count(s))
}

// A creation with direction 1 and ordinal 1; the identifier's bytes are all the place.
fn head_of(s: Sent) -> Head
    ensures { result ≡ head_sent s }
{
    Head {
        unit: s.unit,
        owner: s.owner,
        record_type: s.record_type,
        operation: Operation::CREATE,
        direction: Direction::GENERATION,
        start_mark: s.start_mark,
        end_mark: Mark::PLANNED,
        qualification: s.qualification,
        ordinal: 1,
        part_count: part_count(s),
        identifier: [s.place; 16],
        stamp: Minute(s.stamp),
        period: period(s.start, s.end),
        text_length: 0,
    }
}

fn period(start: u32, end: u32) -> Period
    ensures { result ≡ record { start = record { 0 = start }; end = record { 0 = end } } }
{
    Period {
        start: Minute(start),
        end: Minute(end),
    }
}

fn put_head(report: &mut [u8], s: Sent)
    ensures { report.new ≡ put report.old 0 (encode_head (head_sent s)) }
{
    fields::put_bytes(report, 0, &encoder::head_bytes(head_of(s)));
}

fn put_part(report: &mut [u8], at: usize, start: u32, end: u32, power: u32)
    ensures { report.new ≡ put report.old at (encode_part (part_sent start end power)) }
{
    let part = Part {
        period: period(start, end),
        power: SignedKilowatt(power.cast_signed()),
    };
    fields::put_bytes(report, at, &encoder::part_bytes(part));
}

#[tactic(auto, using(crate::proofs::Reports::one_put, crate::proofs::Reports::two_put))]
fn put_levels(report: &mut [u8], s: Sent)
    ensures { report.new ≡ put report.old 48 (encode_parts (levels_sent s s.step)) }
{
    match s.step {
        None => put_part(report, 48, s.start, s.end, s.power),
        Some(step) => {
            put_part(report, 48, s.start, step.at, s.power);
            put_part(report, 64, step.at, s.end, step.power);
        }
    }
}

#[tactic(auto, unfolding(fields::specs::Lists::pick, fields::specs::Lists::put, report::specs::Encoded::encode_parts))]
fn put_parts(report: &mut [u8], s: Sent)
    ensures { report.new ≡ put report.old 48 (encode_parts (pick (is_levelled s.record_type.0) (levels_sent s s.step) [])) }
{
    if records::is_levelled(s.record_type) {
        put_levels(report, s);
    }
}

#[tactic(auto, using(crate::proofs::Reports::whole_put), unfolding(crate::specs::Sent::report_sent))]
fn put_report(report: &mut [u8], s: Sent)
    ensures { report.new ≡ put report.old 0 (report_sent s) }
{
    put_head(report, s);
    put_parts(report, s);
    fields::put_u16(report, length_of(s) - 2, 0x5854);
}

// Puts the report's bytes at the start of the buffer, and lends them, as far as there is room.
#[tactic(auto, using(crate::proofs::Reports::report_read))]
pub fn compose(buffer: &mut [u8], s: Sent) -> &mut [u8]
    ensures upper_bound { length result.now ≤ MOST_BYTES }
    ensures length { length result.now ≡ min (length_sent s) (length buffer.old) }
    ensures value { result.now ≡ take (length_sent s) (put buffer.old 0 (report_sent s)) }
    ensures whole { MOST_BYTES ≤ length buffer.old → result.now ≡ report_sent s }
{
    put_report(buffer, s);
    let end = length_of(s).min(buffer.len());
    &mut buffer[..end]
}

// An owner's unit of a kind, in this state since D, with powers of generation alone.
fn entry(owner: u16, kind: Kind, state: State, max: u32, min: u32) -> RosterEntry
    ensures { result ≡ entry_for owner kind.0 state.0 (powers_of max min 0 0) }
{
    let row = Row {
        state,
        qualification: 0,
        since: Minute(D),
    };
    let generation = PowerRange {
        max: Kilowatt(max),
        min: Kilowatt(min),
    };
    let consumption = PowerRange {
        max: Kilowatt(0),
        min: Kilowatt(0),
    };
    let powers = Powers {
        generation,
        consumption,
    };
    RosterEntry {
        owner,
        kind,
        row,
        powers,
    }
}

#[tactic(auto, using(crate::proofs::Entries::entry_put))]
fn put_entry(roster: &mut [u8], at: usize, e: RosterEntry)
    requires { at ≤ 28 }
    ensures { roster.new ≡ put roster.old at (entry_bytes e) }
{
    fields::put_u16(roster, at, 0x474A);
    fields::put_u16(roster, at + 2, e.owner);
    let row = [e.kind.0, e.row.state.0, e.row.qualification, 0];
    fields::put_bytes(roster, at + 4, &row);
    fields::put_u32(roster, at + 8, e.row.since.0);
    put_range(roster, at + 12, e.powers.generation);
    put_range(roster, at + 20, e.powers.consumption);
}

#[tactic(auto, using(crate::proofs::Entries::range_put))]
fn put_range(roster: &mut [u8], at: usize, r: PowerRange)
    requires { at ≤ 48 }
    ensures { roster.new ≡ put roster.old at (bytes_of 4 r.max.0 ++ bytes_of 4 r.min.0) }
{
    fields::put_u32(roster, at, r.max.0);
    fields::put_u32(roster, at + 4, r.min.0);
}

// "unit 1, owner 7, W1, state 5, since D, 200,000 and 80,000; unit 2, owner 9, Z1, since D, 50,000 and 0"
#[tactic(auto, using(crate::proofs::Entries::roster_put))]
pub fn put_roster_a(roster: &mut [u8])
    ensures { roster.new ≡ put roster.old 0 roster_a }
{
    put_entry(roster, 0, entry(7, Kind::W1, State::P, 200000, 80000));
    put_entry(roster, 28, entry(9, Kind::Z1, State::NONE, 50000, 0));
}

// Sets the register up from roster A. One of another size stays as it is.
#[tactic(auto, using(crate::proofs::Entries::roster_alone))]
pub fn fresh(register: &mut [u8])
    ensures { register.new ≡ (set_up roster_a register.old).after }
{
    let mut roster = [0u8; 56];
    put_roster_a(&mut roster);
    let _ = setup::set_up(&roster, register);
}

// The register of roster A, as it is before each case.
#[tactic(auto, using(crate::proofs::Entries::fresh_after))]
pub fn fresh_register() -> [u8; REGISTER_SIZE]
    ensures { result ≡ new_register roster_a }
{
    let mut register = [0u8; REGISTER_SIZE];
    fresh(&mut register);
    register
}
