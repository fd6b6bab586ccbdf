// A unit's block and the roster: decoded, and question 1.
#![tactic(auto)]

ghost use Rattle.std.specs.Prelude.{◌≡◌, Bool, false, not, ◌&&◌, ◌||◌, eqb, ltb, leb, List, ℕ, ◌+◌, ◌*◌, ◌≤◌, ◌<◌, length, drop, get_or, []};
ghost use Rattle.std.specs.List.{list_all, All};
ghost use Rattle.std.specs.Option.{MatchOption};
ghost use Rattle.std.proofs.Common.{lit≤};
ghost use Rattle.fields.specs.Fields.{u32_at};
ghost use Rattle.fields.specs.Lists.{all, series, part, put};
ghost use Rattle.quantities.specs.Quantities.{minute_at, kilowatt_at};
ghost use Rattle.rules.specs.declared.Record.{Record};
ghost use Rattle.rules.specs.declared.UnitHead.{UnitHead};
ghost use Rattle.report.specs.Report.{most_parts};
ghost use Rattle.rules.specs.Roster.{most_units, powers_at, entry_of, entry_good, pieces_pass, roster_good};
ghost use Rattle.rules.specs.Block.{pair_start, block_size, zeros, zeros_at, unit_head, HeadFits, slot_at, used, record_in, stored_count};
ghost use Rattle.rules.specs.Codes.{between, stop, off_grid};
ghost use Rattle.rules.specs.Records.{begun};
ghost use Rattle.rules.specs.Whole.{records_apart, slot_whole, slots_apart, block_whole, register_whole};
ghost use Rattle.rules.specs.After.{put_row};
ghost use Rattle.block.specs.Codec.{put_unit, put_last_stamp, put_powers, put_unit_head, codes_bytes, times_bytes, put_record, pair_bytes_of};
ghost use Rattle.block.specs.Codec.{head_fields_end, slot_fields_end, RecordFits, HoldsRecord, PairFits};
ghost use Rattle.block.specs.declared.Pair.{Pair};
ghost use Rattle.block.specs.Slot.{pair_at, pairs_of, ends_rise, pairs_rise, holds_alone, slots_of, each_apart, head_whole, FreeFrom};

use fields::{bytes_at, chunk_at, put_bytes, put_u8, put_u16, u8_at, u16_at};
use quantities::{Kilowatt, Minute, Period, kilowatt_at, minute_at, put_kilowatt, put_minute};
use records::{choose, fields_in_range, has_begun, is_levelled, kind_allows};
use report::{Direction, MOST_PARTS, Mark, RecordType};
use rules::{Kind, PowerRange, Powers, Record, RosterEntry, Row, State, UnitHead};

// A block's head, and its slots, each of fields and pairs.
pub const HEAD_SIZE: usize = 64;

pub const PAIRS_START: usize = 88;

pub const PAIR_SIZE: usize = 8;

pub const SLOT_SIZE: usize = PAIRS_START + PAIR_SIZE * (MOST_PARTS as usize);

pub const SLOT_COUNT: u8 = 8;

pub const BLOCK_SIZE: usize = HEAD_SIZE + SLOT_SIZE * (SLOT_COUNT as usize);

// Six stretches are the slots of a block, and none of their bytes is left over by loads of 16.
const STRETCH_SIZE: usize = 1184;

// A roster entry, and the most units of a register.
pub const ENTRY_SIZE: usize = 28;

pub const MOST_UNITS: usize = 64;

// Where a part in a slot ends, and its power. `report::PartLevel` has the same of a report: a From would serve two lines.
#[derive(Clone, Copy)]
pub struct Pair {
    pub end: Minute,
    pub power: Kilowatt,
}

// What one pass over the pairs finds; the bound stands whether they rise or not.
#[derive(Clone, Copy)]
pub struct EndsFound {
    pub rise: bool,
    pub bound: u32,
}

// The n bytes from `at` on; what would lie past the end is left out.
#[tactic(auto, unfolding(fields::specs::Lists::part))]
pub fn slice_at<'a>(s: &'a [u8], at: usize, n: usize) -> &'a [u8]
    ensures { result.now ≡ part s.now at n }
{
    let rest = s.get(at..).unwrap_or(&[]);
    rest.get(..n).unwrap_or(rest)
}

pub fn powers_at(s: &[u8], at: usize) -> Powers
    ensures { result ≡ powers_at s.now at }
{
    let powers = bytes_at::<16>(s, at);
    Powers {
        generation: range_at(&powers, 0),
        consumption: range_at(&powers, 8),
    }
}

// The highest power, then the lowest.
fn range_at(s: &[u8], at: usize) -> PowerRange
    requires { at < 18446744073709551612 }
    ensures { result ≡ record { max = kilowatt_at s.now at; min = kilowatt_at s.now (at + 4) } }
{
    let max = kilowatt_at(s, at);
    let min = kilowatt_at(s, at + 4);
    PowerRange { max, min }
}

pub fn entry_of(s: &[u8]) -> RosterEntry
    ensures { result ≡ entry_of s.now }
{
    let since = minute_at(s, 8);
    let row = Row {
        state: State(u8_at(s, 5)),
        qualification: u8_at(s, 6),
        since,
    };
    let powers = powers_at(s, 12);
    RosterEntry {
        owner: u16_at(s, 2),
        kind: Kind(u8_at(s, 4)),
        row,
        powers,
    }
}

pub fn unit_head(b: &[u8]) -> UnitHead
    ensures { result ≡ unit_head b.now }
{
    let head = bytes_at::<48>(b, 0);
    let since = minute_at(&head, 12);
    let row = Row {
        state: State(head[7]),
        qualification: head[8],
        since,
    };
    let last_stamp = minute_at(&head, 16);
    let powers = powers_at(&head, 20);
    UnitHead {
        unit: u16_at(&head, 2),
        owner: u16_at(&head, 4),
        kind: Kind(head[6]),
        row,
        last_stamp,
        powers,
    }
}

// Slot i, from 0.
#[tactic(auto, unfolding(rules::specs::Block::slot_at))]
pub fn slot_at<'a>(b: &'a [u8], i: u8) -> &'a [u8]
    ensures { result.now ≡ slot_at b.now i }
{
    slice_at(b, HEAD_SIZE + SLOT_SIZE * (i as usize), SLOT_SIZE)
}

pub fn is_used(z: &[u8]) -> bool
    ensures { result ≡ used z.now }
{
    u16_at(z, 0) == 0x475A
}

pub fn record_in(z: &[u8]) -> Record
    ensures { result ≡ record_in z.now }
{
    let slot = bytes_at::<48>(z, 0);
    let identifier = bytes_at::<16>(&slot, 8);
    let stamp = minute_at(&slot, 24);
    let period = quantities::period_at(&slot, 28);
    Record {
        record_type: RecordType(slot[2]),
        direction: Direction(slot[3]),
        qualification: slot[4],
        start_mark: Mark(slot[5]),
        ordinal: u16_at(&slot, 6),
        identifier,
        stamp,
        period,
    }
}

pub fn stored_count(z: &[u8]) -> u16
    ensures { result ≡ stored_count z.now }
{
    u16_at(z, 36)
}

// A pair by its bytes.
fn pair_in(pair: &[u8]) -> Pair
    ensures { result ≡ record { end = minute_at pair.now 0; power = kilowatt_at pair.now 4 } }
{
    let end = minute_at(pair, 0);
    let power = kilowatt_at(pair, 4);
    Pair { end, power }
}

// Pair j of a slot that ends before it does, with zeros past the end.
#[cold]
fn pair_past_end(z: &[u8], j: u16) -> Pair
    ensures { result ≡ pair_at z.now j }
{
    let at = PAIRS_START + PAIR_SIZE * (j as usize);
    pair_in(&bytes_at::<PAIR_SIZE>(z, at))
}

// Pair j of a slot, from 0, read where it lies, as a part of a report is.
pub fn pair_at(z: &[u8], j: u16) -> Pair
    ensures { result ≡ pair_at z.now j }
{
    let at = PAIRS_START + PAIR_SIZE * (j as usize);
    match chunk_at::<PAIR_SIZE>(z, at) {
        Some(pair) => pair_in(pair),
        None => pair_past_end(z, j),
    }
}

// One test after all bytes, which are read in wide loads.
fn is_zero(z: &[u8]) -> bool
    ensures { result ≡ zeros_at z.now 0 (length z.now) }
{
    z.iter().fold(0, |bits, b| bits | *b) == 0
}

// The compiler knows a stretch's size, so that it makes one run of loads of it.
fn all_zero(z: &[u8]) -> bool
    ensures { result ≡ zeros_at z.now 0 (length z.now) }
{
    let (stretches, rest) = z.as_chunks::<STRETCH_SIZE>();
    let mut ok = true;
    for stretch in stretches {
        ok = ok & is_zero(stretch);
    }
    ok & is_zero(rest)
}

// A byte past the end counts as 0.
pub fn zeros_at(s: &[u8], at: usize, n: usize) -> bool
    ensures { result ≡ zeros_at s.now at n }
{
    all_zero(slice_at(s, at, n))
}

// The first k pairs of a slot, each by its bytes.
fn pairs_of(z: &[u8; SLOT_SIZE], k: u16) -> &[[u8; PAIR_SIZE]]
    requires { k ≤ most_parts }
    ensures { result.now ≡ pairs_of z.now k }
{
    let (_, rest) = z.split_at(PAIRS_START);
    let (pairs, _) = rest.as_chunks::<PAIR_SIZE>();
    &pairs[..k as usize]
}

// Whether the part ends rise from the period's start to its end, and a number that no power is above. Compared as signed
// numbers, which takes fewer instructions; a time is below 2 to the 31.
fn ends_rise(pairs: &[[u8; PAIR_SIZE]], period: Period) -> EndsFound
    requires { (period.start.0 < 2147483648) × (period.end.0 < 2147483648) }
    ensures rise_value { result.rise ≡ ends_rise pairs.now period.start.0 period.end.0 }
    ensures powers_within { All (λ pair. u32_at pair 4 ≤ result.bound) pairs.now }
{
    let mut rise = true;
    let mut bound = 0u32;
    let mut start = period.start.0.cast_signed();
    for bytes in pairs {
        let pair = pair_in(bytes);
        let end = pair.end.0.cast_signed();
        bound = bound | pair.power.0;
        rise = rise & (start < end);
        start = end;
    }
    EndsFound {
        rise: rise & (start == period.end.0.cast_signed()),
        bound,
    }
}

// The part ends rise from the period's start to its end, and every power is in range.
fn pairs_rise(pairs: &[[u8; PAIR_SIZE]], period: Period) -> bool
    ensures { result ≡ pairs_rise pairs.now period.start.0 period.end.0 }
{
    let mut ok = true;
    let mut start = period.start;
    for bytes in pairs {
        let Pair { end, power } = pair_in(bytes);
        ok = ok & ((start < end) & quantities::is_power(power));
        start = end;
    }
    ok & (start == period.end)
}

// The same by `ends_rise` where its bound is a power, as a rule; else by a test of each power. One loop for both would be told the test,
// and carry the bound through every turn of it.
fn pairs_fit(pairs: &[[u8; PAIR_SIZE]], period: Period) -> bool
    requires { (period.start.0 < 2147483648) × (period.end.0 < 2147483648) }
    ensures { result ≡ pairs_rise pairs.now period.start.0 period.end.0 }
{
    let found = ends_rise(pairs, period);
    if quantities::is_power(Kilowatt(found.bound)) {
        return found.rise;
    }
    pairs_rise(pairs, period)
}

// An event is not kept, and off-grid work only once begun.
fn type_holds(r: Record) -> bool
    ensures { result ≡ (between stop off_grid r.record_type.0 && (not (eqb r.record_type.0 off_grid) || begun r)) }
{
    (RecordType::STOP <= r.record_type)
        & (r.record_type <= RecordType::OFF_GRID)
        & (!(r.record_type == RecordType::OFF_GRID) | has_begun(r))
}

fn times_hold(last: Minute, r: Record) -> bool
    ensures { result ≡ (ltb r.period.start.0 r.period.end.0 && leb r.stamp.0 last.0 && (not (begun r) || leb r.period.start.0 r.stamp.0)) }
{
    (r.period.start < r.period.end)
        & (r.stamp <= last)
        & (!has_begun(r) | (r.period.start <= r.stamp))
}

// What question 1 asks of a record, but for its parts. Kind and last stamp are all that a slot is asked beside of its unit's head.
#[tactic(auto, using(std::proofs::lemmas::Bool::Decides::nat_tests), unfolding(crate::specs::Slot::holds_alone, fields::specs::Lists::every, fields::specs::Lists::and_each))]
fn holds_alone(kind: Kind, last: Minute, r: Record) -> bool
    ensures { result ≡ holds_alone kind.0 last r }
{
    type_holds(r) & fields_in_range(r) & kind_allows(kind, r) & times_hold(last, r)
}

fn slot_whole(kind: Kind, last: Minute, z: &[u8; SLOT_SIZE]) -> bool
    ensures { result ≡ slot_whole kind.0 last z.now }
{
    if is_used(z) {
        let k = stored_count(z);
        if MOST_PARTS < k {
            return false;
        }
        let r = record_in(z);
        if !holds_alone(kind, last, r) {
            return false;
        }
        let from = PAIRS_START + PAIR_SIZE * (k as usize);
        return choose(
            is_levelled(r.record_type),
            (1 <= k) & pairs_fit(pairs_of(z, k), r.period),
            k == 0,
        ) & zeros_at(z, 38, 50)
            & zeros_at(z, from, SLOT_SIZE - from);
    }
    all_zero(z)
}

// The slots of a block.
fn slots_of(b: &[u8; BLOCK_SIZE]) -> &[[u8; SLOT_SIZE]]
    ensures { result.now ≡ slots_of b.now }
{
    let (_, rest) = b.split_at(HEAD_SIZE);
    let (slots, _) = rest.as_chunks::<SLOT_SIZE>();
    slots
}

fn last_used(slots: &[[u8; SLOT_SIZE]]) -> Option<usize>
    ensures { MatchOption result (All (λ z. used z ≡ false) slots.now) (λ i. (i < length slots.now) × All (λ z. used z ≡ false) (drop (i + 1) slots.now)) }
{
    slots.iter().rposition(|z| is_used(z))
}

// The first slot from which on all are free.
fn free_from(slots: &[[u8; SLOT_SIZE]]) -> usize
    ensures { FreeFrom slots.now result }
{
    last_used(slots).map_or(0, |i| i + 1)
}

// Each slot; those that are free at the end are zeros in one stretch.
fn slots_whole(kind: Kind, last: Minute, slots: &[[u8; SLOT_SIZE]], end: usize) -> bool
    requires { FreeFrom slots.now end }
    ensures { result ≡ list_all (slot_whole kind.0 last) slots.now }
{
    let (taken, free) = slots.split_at(end);
    taken.iter().all(|z| slot_whole(kind, last, z)) && all_zero(free.as_flattened())
}

// A record and what is in a slot.
fn slot_apart(r: Record, z: &[u8]) -> bool
    ensures { result ≡ (not (used z.now) || records_apart r (record_in z.now)) }
{
    !is_used(z) || records::records_apart(r, record_in(z))
}

// A record and what is in slots.
fn apart_from(r: Record, slots: &[[u8; SLOT_SIZE]]) -> bool
    ensures { result ≡ list_all (λ z. not (used z) || records_apart r (record_in z)) slots.now }
{
    slots.iter().all(|z| slot_apart(r, z))
}

// A slot and those below it.
fn slot_apart_below(y: &[u8], below: &[[u8; SLOT_SIZE]]) -> bool
    ensures { result ≡ list_all (slots_apart y.now) below.now }
{
    !is_used(y) || apart_from(record_in(y), below)
}

#[tactic(auto, using(crate::proofs::FreeSlots::apart_more, crate::proofs::FreeSlots::apart_all))]
fn slots_apart(slots: &[[u8; SLOT_SIZE]]) -> bool
    ensures { result ≡ each_apart [] slots.now }
{
    let mut ok = true;
    for (i, y) in slots.iter().enumerate() {
        ok = ok & slot_apart_below(y, &slots[..i]);
    }
    ok
}

#[tactic(auto, unfolding(crate::specs::Slot::head_whole, fields::specs::Lists::every, fields::specs::Lists::and_each))]
fn head_whole(unit: u16, b: &[u8]) -> bool
    ensures { result ≡ head_whole unit b.now }
{
    let h = unit_head(b);
    (u16_at(b, 0) == 0x4E55)
        & (h.unit == unit)
        & zeros_at(b, 9, 3)
        & zeros_at(b, 36, 28)
        & records::head_in_range(h)
}

// Question 1, of the block of a unit.
pub fn block_whole(unit: u16, b: &[u8]) -> bool
    ensures { result ≡ block_whole unit b.now }
{
    let Some(b) = b.as_array::<BLOCK_SIZE>() else {
        return false;
    };
    if !head_whole(unit, b) {
        return false;
    }
    let h = unit_head(b);
    let slots = slots_of(b);
    let end = free_from(slots);
    slots_whole(h.kind, h.last_stamp, slots, end) && slots_apart(&slots[..end])
}

// What stands in pieces of one size, and when one is good.
trait Pieces<const SIZE: usize> {
    ghost good: { ℕ → List ℕ → Bool };

    ghost size_in_range: { (1 ≤ SIZE) × (SIZE ≤ block_size) };

    fn is_good(number: u16, piece: &[u8; SIZE]) -> bool
        ensures { result ≡ good number piece.now };
}

// The blocks of a register.
struct Blocks;

impl Pieces<BLOCK_SIZE> for Blocks {
    ghost good = { block_whole };

    ghost size_in_range = { (lit≤ tt, lit≤ tt) };

    fn is_good(number: u16, piece: &[u8; BLOCK_SIZE]) -> bool {
        block_whole(number, piece)
    }
}

// The entries of a roster.
struct Entries;

impl Pieces<ENTRY_SIZE> for Entries {
    ghost good = { λ number entry. entry_good entry };

    ghost size_in_range = { (lit≤ tt, lit≤ tt) };

    fn is_good(_number: u16, piece: &[u8; ENTRY_SIZE]) -> bool {
        entry_good(piece)
    }
}

fn each_good<const SIZE: usize, P: Pieces<SIZE>>(pieces: &[[u8; SIZE]]) -> bool
    requires { length pieces.now ≤ most_units }
    ensures { result ≡ all (λ i. P.good (i + 1) (get_or pieces.now i [])) (series (λ i. i) 0 (length pieces.now)) }
{
    for (i, piece) in pieces.iter().enumerate() {
        if !P::is_good(i as u16 + 1, piece) {
            return false;
        }
    }
    true
}

// 1 to 64 pieces, each good.
fn pieces_good<const SIZE: usize, P: Pieces<SIZE>>(s: &[u8]) -> bool
    ensures { result ≡ pieces_pass SIZE P.good s.now }
{
    let (pieces, rest) = s.as_chunks::<SIZE>();
    let n = pieces.len();
    if rest.is_empty() & ((1 <= n) & (n <= MOST_UNITS)) {
        each_good::<SIZE, P>(pieces)
    } else {
        false
    }
}

// Question 1.
pub fn register_whole(register: &[u8]) -> bool
    ensures { result ≡ register_whole register.now }
{
    pieces_good::<BLOCK_SIZE, Blocks>(register)
}

// A good roster entry.
#[tactic(auto, unfolding(rules::specs::Roster::entry_good, fields::specs::Lists::every, fields::specs::Lists::and_each))]
pub fn entry_good(s: &[u8]) -> bool
    ensures { result ≡ entry_good s.now }
{
    let e = entry_of(s);
    (u16_at(s, 0) == 0x474A)
        & records::owner_in_range(e.owner)
        & records::kind_in_range(e.kind)
        & records::row_in_range(e.kind, e.row)
        & (u8_at(s, 7) == 0)
        & records::powers_in_order(e.kind, e.powers)
}

// Question 20: 1 to 64 good entries.
pub fn roster_good(roster: &[u8]) -> bool
    ensures { result ≡ roster_good roster.now }
{
    pieces_good::<ENTRY_SIZE, Entries>(roster)
}

// Every byte becomes 0.
#[tactic(auto, unfolding(rules::specs::Block::zeros))]
pub fn clear(b: &mut [u8])
    ensures { b.new ≡ zeros (length b.old) }
{
    b.fill(0);
}

#[tactic(auto, unfolding(crate::specs::Codec::put_unit))]
fn put_unit(b: &mut [u8], unit: u16, owner: u16, kind: Kind)
    ensures { b.new ≡ put_unit b.old unit owner kind.0 }
{
    put_u16(b, 0, 0x4E55);
    put_u16(b, 2, unit);
    put_u16(b, 4, owner);
    put_u8(b, 6, kind.0);
}

pub fn put_row(b: &mut [u8], row: Row)
    ensures { b.new ≡ put_row b.old row }
{
    put_u8(b, 7, row.state.0);
    put_u8(b, 8, row.qualification);
    put_minute(b, 12, row.since);
}

#[tactic(auto, unfolding(crate::specs::Codec::put_last_stamp))]
pub fn put_last_stamp(b: &mut [u8], stamp: Minute)
    ensures { b.new ≡ put_last_stamp b.old stamp.0 }
{
    put_minute(b, 16, stamp);
}

#[tactic(auto, unfolding(crate::specs::Codec::put_powers))]
fn put_powers(b: &mut [u8], p: Powers)
    ensures { b.new ≡ put_powers b.old p }
{
    put_kilowatt(b, 20, p.generation.max);
    put_kilowatt(b, 24, p.generation.min);
    put_kilowatt(b, 28, p.consumption.max);
    put_kilowatt(b, 32, p.consumption.min);
}

// A unit's head, as unit_head reads it.
#[tactic(auto, unfolding(crate::specs::Codec::put_unit_head))]
pub fn put_unit_head(b: &mut [u8], h: UnitHead)
    ensures { b.new ≡ put_unit_head b.old h }
{
    put_unit(b, h.unit, h.owner, h.kind);
    put_row(b, h.row);
    put_last_stamp(b, h.last_stamp);
    put_powers(b, h.powers);
}

fn put_codes(z: &mut [u8], r: Record)
    ensures { z.new ≡ put z.old 0 (codes_bytes r) }
{
    put_u16(z, 0, 0x475A);
    put_u8(z, 2, r.record_type.0);
    put_u8(z, 3, r.direction.0);
    put_u8(z, 4, r.qualification);
    put_u8(z, 5, r.start_mark.0);
    put_u16(z, 6, r.ordinal);
}

fn put_identifier(z: &mut [u8], identifier: [u8; 16])
    ensures { z.new ≡ put z.old 8 identifier }
{
    put_bytes(z, 8, &identifier);
}

fn put_times(z: &mut [u8], r: Record, count: u16)
    ensures { z.new ≡ put z.old 24 (times_bytes r count) }
{
    put_minute(z, 24, r.stamp);
    put_minute(z, 28, r.period.start);
    put_minute(z, 32, r.period.end);
    put_u16(z, 36, count);
}

// The fields of a slot, as record_in and stored_count read them.
#[tactic(auto, unfolding(crate::specs::Codec::put_record))]
pub fn put_record(z: &mut [u8], r: Record, count: u16)
    ensures { z.new ≡ put_record z.old r count }
{
    let identifier = r.identifier;
    put_codes(z, r);
    put_identifier(z, identifier);
    put_times(z, r, count);
}

// Pair j of a slot, as pair_at reads it.
pub fn put_pair(z: &mut [u8], j: u16, p: Pair)
    ensures { z.new ≡ put z.old (pair_start j) (pair_bytes_of p) }
{
    let at = PAIRS_START + PAIR_SIZE * (j as usize);
    let next = at + 4;
    put_minute(z, at, p.end);
    put_kilowatt(z, next, p.power);
}

// What is put is read back: a head; a record and how many pairs it has, which leave the slot's other bytes; a pair.
pub fn what_is_written_is_read_back()
    ensures head { (b : List ℕ) (h : UnitHead) → head_fields_end ≤ length b → HeadFits h → unit_head (put_unit_head b h) ≡ h }
    ensures slot { (z : List ℕ) (r : Record) (k : ℕ) → slot_fields_end ≤ length z → RecordFits r → k < 65536 → HoldsRecord (put_record z r k) r k }
    ensures others { (z : List ℕ) (r : Record) (k : ℕ) → slot_fields_end ≤ length z → RecordFits r → drop slot_fields_end (put_record z r k) ≡ drop slot_fields_end z }
    ensures pair { (z : List ℕ) (j : ℕ) (p : Pair) → pair_start (j + 1) ≤ length z → PairFits p → pair_at (put z (pair_start j) (pair_bytes_of p)) j ≡ p }
{}
