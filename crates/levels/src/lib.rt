// Rule 20 in every minute of a period, by one turn for each change of a level.
#![tactic(auto)]

ghost use Rattle.std.specs.Prelude.{ℕ, ◌≡◌, true, false, is_some, ◌-◌, ◌<◌, ◌≤◌, min};
ghost use Rattle.std.specs.Option.{IfSome};
ghost use Rattle.fields.specs.Lists.{series};
ghost use Rattle.rules.specs.Minutes.{fits_w1_m1, fits_z1, fits_beside, levels_fit, is_high, is_low, power_of, above_max, below_min, levels_at, levels_every};
ghost use Rattle.levels.specs.Pairs.{pairs_of, level_among_pairs, Passed};
ghost use Rattle.levels.specs.Counted.{counted_records, swept_records};
ghost use Rattle.levels.specs.Lanes.{lane_count, lane_of, report_lane, slot_lane, lane_at, lane_pair, lane_level, lane_levels, Stepped, Placed, Held, Chosen, chosen_levels, span_at, moved, soonest, Ready};
ghost use Rattle.levels.specs.Result.{with_span, both_found, found_in, Ran};
ghost use Rattle.levels.specs.Extremes.{with_type, counted_types, swept_types, types_meet, LaneWithin, with_power, CoversType, highest_of, extremes_fit, common, joined_with, AsksType};
ghost use Rattle.levels.specs.Gathered.{GathersPairs, GathersLanes};
ghost use Rattle.rules.specs.Codes.{forced_work};
ghost use Rattle.levels.specs.Within.{power_within, pairs_within, slot_within, forced_within, level_warnings};

use block::{Pair, SLOT_COUNT};
use quantities::{Kilowatt, Minute, Period};
use report::{Direction, RecordType};
use rules::{Kind, Levels, PowerRange, Record};

// The lanes of a sweep: the report's and one for each slot.
pub const LANE_COUNT: u8 = SLOT_COUNT + 1;

// No minute is after it. As an `until`: for good. No Option, since each `until` is joined with others by `min`.
const LAST: Minute = Minute(4294967295);

// A level, if there is one, and a later minute up to which it stays.
#[derive(Clone, Copy)]
pub struct LevelSpan {
    pub level: Option<Kilowatt>,
    pub until: Minute,
}

// What a sweep reads: the slots that count, and whether the reported record does. A flag and no Option of the report: `fits` is lent one
// in any case, and the definitions, `swept_records` too, ask the flag.
#[derive(Clone, Copy)]
pub struct Swept {
    pub counted: [bool; 8],
    pub with_report: bool,
}

// A record that counts, as a sweep reads it: its type, its period and how many pairs it has.
#[derive(Clone, Copy)]
pub struct Lane {
    pub record_type: RecordType,
    pub period: Period,
    pub count: u16,
}

// The lanes of one direction, those of records that count: lane 0 is the report's, lane i + 1 that of slot i. By
// number, in one array: rule 20 takes the first lane that has a level, and the report's comes first.
#[derive(Clone, Copy)]
pub struct Lanes<'a> {
    pub block: &'a [u8],
    pub report: &'a [u8],
    pub each: [Option<Lane>; 9],
}

// Where a record's pairs lie. Pairs go by number and count, no slice of them: of bytes that end before their pairs the rest is read as
// zeros, for any block.
#[derive(Clone, Copy)]
pub enum Source<'a> {
    Report(&'a [u8]),
    Slot(&'a [u8]),
}

// A lane's level, and its place: the pairs before it have ended.
#[derive(Clone, Copy)]
pub struct LaneSpan {
    pub span: LevelSpan,
    pub place: u16,
}

// A place among the pairs of a record.
#[derive(Clone, Copy)]
pub struct Place<'a> {
    pub pairs: Source<'a>,
    pub count: u16,
    pub place: u16,
}

// The place of the lane that has a type's level, if one has; so it is up to a minute.
#[derive(Clone, Copy)]
pub struct Choice<'a> {
    pub at: Option<Place<'a>>,
    pub until: Minute,
}

#[derive(Clone, Copy)]
pub struct Choices<'a> {
    pub forced: Choice<'a>,
    pub positive: Choice<'a>,
    pub negative: Choice<'a>,
}

// The lowest and the highest of some powers.
#[derive(Clone, Copy)]
pub struct Extremes {
    pub lowest: Kilowatt,
    pub highest: Kilowatt,
}

// What levels are held against: a unit's kind and its powers in one direction.
#[derive(Clone, Copy)]
pub struct Limits {
    pub kind: Kind,
    pub range: PowerRange,
}

// The types that question 17 is about, among the records that count.
#[derive(Clone, Copy)]
pub struct CountedTypes {
    pub forced: bool,
    pub positive: bool,
    pub negative: bool,
}

// Question 17, and warnings 2 and 4. They are found together: `sweep_lanes` serves both, which differ in what is asked before it.
#[derive(Clone, Copy)]
pub struct SweepResult {
    pub fits: bool,
    pub above: bool,
    pub below: bool,
}

// What was found up to a minute.
#[derive(Clone, Copy)]
pub struct Stretch {
    pub found: SweepResult,
    pub until: Minute,
}

// Warnings 2 and 4.
#[derive(Clone, Copy)]
pub struct LevelWarnings {
    pub above: bool,
    pub below: bool,
}

impl<'a> Source<'a> {
    // Part j of a report, or pair j of a slot.
    fn pair(self, j: u16) -> Pair
        ensures { result ≡ pairs_of self.entry j }
    {
        match self {
            Source::Report(report) => {
                let part = report::part_level(report, j);
                Pair {
                    end: part.end,
                    power: part.power,
                }
            }
            Source::Slot(z) => block::pair_at(z, j),
        }
    }

    // The power of the first pair that ends after the minute; it stays up to that end. Three functions ask that a minute is before `LAST`: a
    // type of such minutes would have to be made anew at each turn of the sweep.
    fn step_among(self, count: u16, place: u16, m: Minute) -> LaneSpan
        requires m_bound { m.0 < 4294967295 }
        requires passed { Passed (pairs_of self) count place m.0 }
        ensures { Stepped (pairs_of self.entry) count m.0 (level_among_pairs (series (pairs_of self.entry) 0 count)) result }
    {
        let Some(place) = (place..count).find(|j| m < self.pair(*j).end) else {
            let span = level_at(None);
            return LaneSpan { span, place: count };
        };
        let at = Place {
            pairs: self,
            count,
            place,
        };
        let span = level_at(Some(at));
        LaneSpan { span, place }
    }

    // The level of a lane with these pairs.
    fn level_in(self, lane: Lane, place: u16, m: Minute) -> LaneSpan
        requires m_bound { m.0 < 4294967295 }
        requires passed { Passed (pairs_of self) lane.count place m.0 }
        ensures { Stepped (pairs_of self.entry) lane.count m.0 (lane_level lane (pairs_of self.entry) lane.record_type.0) result }
    {
        let start = lane.period.start;
        let end = lane.period.end;
        if m < start {
            let span = LevelSpan {
                level: None,
                until: start,
            };
            return LaneSpan { span, place };
        }
        if end <= m {
            let span = LevelSpan {
                level: None,
                until: LAST,
            };
            return LaneSpan { span, place };
        }
        let among = self.step_among(lane.count, place, m);
        let level = among.span.level;
        let until = among.span.until.min(end);
        let span = LevelSpan { level, until };
        LaneSpan {
            span,
            place: among.place,
        }
    }

    // Up to it a lane whose level was found has one: the last pair's end or, where that has passed, the level's.
    fn held_until(self, lane: Lane, step: LaneSpan, m: Minute) -> Minute
        requires has_level { is_some step.span.level ≡ true }
        requires stepped { Stepped (pairs_of self) lane.count m.0 (lane_level lane (pairs_of self) lane.record_type.0) step }
        ensures { Held (pairs_of self.entry) lane m.0 result.0 }
    {
        let last = self.pair(lane.count - 1).end;
        if m < last {
            return last.min(lane.period.end);
        }
        step.span.until
    }

    // What a closure makes of a lane's pairs in turn; it is told the minute at which a pair's own begin, where the one before it ends.
    // By number: a fold would carry that minute beside what is gathered, and be no plainer.
    fn gather<G: Copy, F: Fn(G, Minute, Pair) -> G + Copy>(
        self,
        lane: Lane,
        seen: G,
        with_pair: F,
    ) -> G
        requires { F.IsAlwaysCallable with_pair }
        ensures { GathersPairs (F.post with_pair) (series (pairs_of self.entry) 0 lane.count) lane.period.start seen result }
    {
        let mut gathered = seen;
        let mut from = lane.period.start;
        for j in 0..lane.count {
            let pair = self.pair(j);
            gathered = with_pair(gathered, from, pair);
            from = pair.end;
        }
        gathered
    }
}

// The level at a place, up to the end of the pair there.
fn level_at(at: Option<Place>) -> LevelSpan
    ensures { result ≡ span_at at.entry }
{
    match at {
        Some(p) => {
            let pair = p.pairs.pair(p.place);
            LevelSpan {
                level: Some(pair.power),
                until: pair.end,
            }
        }
        None => LevelSpan {
            level: None,
            until: LAST,
        },
    }
}

// The place after a minute: one further where its pair has ended.
fn moved<'a>(at: Option<Place<'a>>, until: Minute, m: Minute) -> Option<Place<'a>>
    requires { IfSome at (λ p. p.place < p.count) }
    ensures { result ≡ moved at.entry until.0 m.0 }
{
    let Some(p) = at else {
        return None;
    };
    if until <= m {
        return Some(Place {
            pairs: p.pairs,
            count: p.count,
            place: p.place + 1,
        });
    }
    at
}

// A record's lane, if it is of the direction asked.
#[tactic(auto, unfolding(crate::specs::Lanes::lane_of, fields::specs::Lists::pick))]
fn lane_of(r: Record, count: u16, direction: Direction) -> Option<Lane>
    ensures { result ≡ lane_of r count direction.0 }
{
    if r.direction != direction {
        return None;
    }
    Some(Lane {
        record_type: r.record_type,
        period: r.period,
        count,
    })
}

fn report_lane(report: &[u8], direction: Direction) -> Option<Lane>
    ensures { result ≡ report_lane report.now direction.0 }
{
    let h = report::head_of(report);
    lane_of(records::record_by(h), h.part_count, direction)
}

fn slot_lane(b: &[u8], i: u8, direction: Direction) -> Option<Lane>
    ensures { result ≡ slot_lane b.now i direction.0 }
{
    let z = block::slot_at(b, i);
    lane_of(block::record_in(z), block::stored_count(z), direction)
}

// Lane i, if its record counts. Block, report and what counts of them are what `fits` is called with; a struct of them would serve only the
// functions from here to `lanes_of` and `swept_types`.
fn lane_at(b: &[u8], report: &[u8], swept: Swept, direction: Direction, i: u8) -> Option<Lane>
    requires { i < lane_count }
    ensures { result ≡ lane_at b.now report.now swept direction.0 i }
{
    if i == 0 {
        return if swept.with_report {
            report_lane(report, direction)
        } else {
            None
        };
    }
    let slot = i - 1;
    if swept.counted[slot as usize] {
        slot_lane(b, slot, direction)
    } else {
        None
    }
}

// The lanes of one direction have the levels of the records that count.
fn lanes_of<'a>(b: &'a [u8], report: &'a [u8], swept: Swept, direction: Direction) -> Lanes<'a>
    ensures { (m : ℕ) → lane_levels result m ≡ levels_at (swept_records b.now report.now swept.counted swept.with_report) direction.0 m }
{
    // `from_fn` in place of the loop: 25 to 38 ns more for question 17 on eight slots.
    let mut each = [None; 9];
    for i in 0..LANE_COUNT {
        let lane = lane_at(b, report, swept, direction, i);
        each[i as usize] = lane;
    }
    Lanes {
        block: b,
        report,
        each,
    }
}

impl<'a> Lanes<'a> {
    // The pairs of lane i.
    fn pairs(&self, i: u8) -> Source<'a>
        ensures { pairs_of result ≡ lane_pair self.now i }
    {
        if i == 0 {
            return Source::Report(self.report);
        }
        Source::Slot(block::slot_at(self.block, i - 1))
    }

    // The first lane of a type that has a level; so it is up to its last change or to the start of a lane before it.
    fn choose_lane(&self, places: &mut [u16; 9], record_type: RecordType, m: Minute) -> Choice<'a>
        requires m_bound { m.0 < 4294967295 }
        requires placed { Placed self.now places.old m.0 }
        ensures chosen { Chosen self.now record_type.0 m.0 result }
        ensures placed_after { Placed self.now places.new m.0 }
    {
        let mut until = LAST;
        // By number: a lane's pairs and its place go by it.
        for i in 0..LANE_COUNT {
            let Some(lane) = self.each[i as usize] else {
                continue;
            };
            if lane.record_type != record_type {
                continue;
            }
            let pairs = self.pairs(i);
            let step = pairs.level_in(lane, places[i as usize], m);
            places[i as usize] = step.place;
            if step.span.level.is_some() {
                let held = pairs.held_until(lane, step, m);
                let at = Place {
                    pairs,
                    count: lane.count,
                    place: step.place,
                };
                return Choice {
                    at: Some(at),
                    until: until.min(held),
                };
            }
            until = until.min(step.span.until);
        }
        Choice { at: None, until }
    }

    // In every minute of a period, by the changes of levels. Without forced work nothing is found, so changes of deratings are
    // passed over.
    fn sweep_lanes(&self, period: Period, limits: Limits) -> SweepResult
        ensures { result ≡ found_in (lane_levels self.now) limits period.start.0 period.end.0 }
    {
        let end = period.end;
        // Beside the lanes and not in them: a place moves on with the minutes, and the lanes are lent to all that asks of them.
        let mut places = [0u16; 9];
        let mut m = period.start;
        let mut g = nothing_found();
        // Compared as numbers: the minutes left are the loop's measure.
        while m.0 < end.0 {
            let forced = self.choose_lane(&mut places, RecordType::FORCED_WORK, m);
            if forced.at.is_some() {
                let positive = self.choose_lane(&mut places, RecordType::POSITIVE_DERATING, m);
                let negative = self.choose_lane(&mut places, RecordType::NEGATIVE_DERATING, m);
                let chosen = Choices {
                    forced,
                    positive,
                    negative,
                };
                let start = m;
                let stretch = limits.sweep_chosen(chosen, Period { start, end });
                let more = stretch.found;
                g = both_found(g, more);
                m = stretch.until;
            } else {
                m = forced.until.min(end);
            }
        }
        g
    }

    // Lane i, where it is of the type and shares a minute with the period.
    fn lane_within(&self, i: u8, record_type: RecordType, period: Period) -> Option<Lane>
        requires { i < lane_count }
        ensures { LaneWithin self.now i record_type.0 period result }
    {
        let lane = self.each[i as usize]?;
        let is_within = (lane.record_type == record_type)
            & quantities::overlapping(lane.period, period);
        if is_within { Some(lane) } else { None }
    }

    // What a closure makes of the pairs of the lanes of a type that share a minute with the period. By number: a lane's pairs go by it.
    fn gather<G: Copy, F: Fn(G, Minute, Pair) -> G + Copy>(
        &self,
        record_type: RecordType,
        period: Period,
        seen: G,
        with_pair: F,
    ) -> G
        requires { F.IsAlwaysCallable with_pair }
        ensures { GathersLanes (F.post with_pair) self.now record_type.0 period 0 lane_count seen result }
    {
        let mut gathered = seen;
        for i in 0..LANE_COUNT {
            let Some(lane) = self.lane_within(i, record_type, period) else {
                continue;
            };
            gathered = self.pairs(i).gather(lane, gathered, with_pair);
        }
        gathered
    }

    // The extremes of the lanes of a type that share a minute with the period.
    fn extremes_of(&self, record_type: RecordType, period: Period) -> Option<Extremes>
        ensures { CoversType self.now record_type.0 period result }
    {
        // Of no power: the lowest is above the highest. Joining then needs no case for the first pair, which an Option would.
        let none = Extremes {
            lowest: Kilowatt(4294967295),
            highest: Kilowatt(0),
        };
        let e = self.gather(
            record_type,
            period,
            none,
            |e: Extremes, _from: Minute, pair: Pair| -> Extremes
                ensures { result ≡ with_power e pair.power }
            { with_power(e, pair.power) },
        );
        if e.lowest <= e.highest { Some(e) } else { None }
    }

    // The minutes of a period to be asked: outside them every forced level passes the test.
    fn asked_of<F: Fn(Kilowatt) -> bool + Copy>(&self, period: Period, passes: F) -> Period
        requires { F.IsAlwaysCallable passes }
        ensures { AsksType self.now forced_work period (λ p. F.post passes p true) result }
    {
        // Of no minute: it ends before it begins, so that joining needs no case for it, as in `extremes_of`.
        let none = Period {
            start: LAST,
            end: Minute(0),
        };
        self.gather(
            RecordType::FORCED_WORK,
            period,
            none,
            |asked: Period, from: Minute, pair: Pair| {
                if passes(pair.power) {
                    asked
                } else {
                    joined_with(asked, from, pair.end)
                }
            },
        )
    }
}

// The minutes of two periods.
fn common(p: Period, q: Period) -> Period
    ensures { result ≡ common p q }
{
    Period {
        start: p.start.max(q.start),
        end: p.end.min(q.end),
    }
}

// Not `Levels`: there the forced level is an Option, and each of these would ask for it again.
fn fits_w1_m1(
    range: PowerRange,
    level: Kilowatt,
    positive: Option<Kilowatt>,
    negative: Option<Kilowatt>,
) -> bool
    ensures { result ≡ fits_w1_m1 range level.0 positive negative }
{
    let level = quantities::wide(level);
    let max = quantities::wide(range.max);
    let min = quantities::wide(range.min);
    positive.is_none_or(|p| level + quantities::wide(p) <= max)
        & negative.is_none_or(|n| min + quantities::wide(n) <= level)
}

fn power_of(level: Option<Kilowatt>) -> u64
    ensures { (result ≡ power_of level) × (result < 4294967296) }
{
    level.map_or(0, |p| quantities::wide(p))
}

fn fits_z1(
    range: PowerRange,
    level: Kilowatt,
    positive: Option<Kilowatt>,
    negative: Option<Kilowatt>,
) -> bool
    ensures { result ≡ fits_z1 range level.0 positive negative }
{
    let sum = quantities::wide(level)
        + quantities::wide(range.min)
        + power_of(positive)
        + power_of(negative);
    !(positive.is_some() | negative.is_some()) | (sum <= quantities::wide(range.max))
}

impl Limits {
    fn fits_beside(
        self,
        level: Kilowatt,
        positive: Option<Kilowatt>,
        negative: Option<Kilowatt>,
    ) -> bool
        ensures { result ≡ fits_beside self.kind.0 self.range level.0 positive negative }
    {
        let others = !((self.kind == Kind::W1) | (self.kind == Kind::M1))
            | fits_w1_m1(self.range, level, positive, negative);
        let z1 = fits_z1(self.range, level, positive, negative);
        records::choose(self.kind == Kind::Z1, z1, others)
    }

    #[tactic(auto, unfolding(rules::specs::Minutes::levels_fit))]
    fn levels_fit(self, l: Levels) -> bool
        ensures { result ≡ levels_fit self.kind.0 self.range l }
    {
        match l.forced {
            Some(level) => self.fits_beside(level, l.positive, l.negative),
            None => true,
        }
    }

    fn is_high(self, level: Kilowatt) -> bool
        ensures { result ≡ is_high self.kind.0 self.range level.0 }
    {
        let level = quantities::wide(level);
        let max = quantities::wide(self.range.max);
        records::choose(
            self.kind == Kind::Z1,
            max < level + quantities::wide(self.range.min),
            max < level,
        )
    }

    fn is_low(self, level: Kilowatt) -> bool
        ensures { result ≡ is_low self.kind.0 self.range level.0 }
    {
        ((self.kind == Kind::W1) | (self.kind == Kind::M1)) & (level < self.range.min)
    }

    // Warnings 2 and 4 are two rules: one function over a derating and a test would be no shorter than both, and name neither.
    #[tactic(auto, unfolding(rules::specs::Minutes::above_max))]
    fn above_max(self, l: Levels) -> bool
        ensures { result ≡ above_max self.kind.0 self.range l }
    {
        l.positive.is_none() & l.forced.is_some_and(|level| self.is_high(level))
    }

    #[tactic(auto, unfolding(rules::specs::Minutes::below_min))]
    fn below_min(self, l: Levels) -> bool
        ensures { result ≡ below_min self.kind.0 self.range l }
    {
        l.negative.is_none() & l.forced.is_some_and(|level| self.is_low(level))
    }

    // What a stretch of minutes with these levels adds.
    fn add_span(self, g: SweepResult, l: Levels) -> SweepResult
        ensures { result ≡ with_span g self l }
    {
        SweepResult {
            fits: g.fits & self.levels_fit(l),
            above: g.above | self.above_max(l),
            below: g.below | self.below_min(l),
        }
    }

    // As long as the choices stay, a turn for each change of a level; it stops where a pair does not end after the minute.
    fn sweep_chosen(self, chosen: Choices, period: Period) -> Stretch
        requires start_lt_end { period.start.0 < period.end.0 }
        requires ready { Ready chosen period.start.0 }
        ensures { Ran (chosen_levels chosen.entry) self period.start.0 (soonest chosen.entry period.end) result }
    {
        let end = chosen.forced.until.min(chosen.positive.until);
        let end = end.min(chosen.negative.until).min(period.end);
        let mut f = chosen.forced.at;
        let mut p = chosen.positive.at;
        let mut n = chosen.negative.at;
        let mut m = period.start;
        let mut found = nothing_found();
        // Compared as numbers, as in `sweep_lanes`.
        while m.0 < end.0 {
            let forced = level_at(f);
            let positive = level_at(p);
            let negative = level_at(n);
            let sooner = forced.until.min(positive.until);
            let until = sooner.min(negative.until).min(end);
            if until <= m {
                return Stretch { found, until: m };
            }
            let levels = Levels {
                forced: forced.level,
                positive: positive.level,
                negative: negative.level,
            };
            found = self.add_span(found, levels);
            m = until;
            f = moved(f, forced.until, m);
            p = moved(p, positive.until, m);
            n = moved(n, negative.until, m);
        }
        Stretch { found, until: m }
    }

    // The lowest and the highest forced level fit beside the highest deratings.
    fn extremes_fit(
        self,
        forced: Extremes,
        positive: Option<Kilowatt>,
        negative: Option<Kilowatt>,
    ) -> bool
        ensures { result ≡ extremes_fit self forced positive negative }
    {
        self.fits_beside(forced.highest, positive, negative)
            & self.fits_beside(forced.lowest, positive, negative)
    }

    // What warnings 2 and 4 ask of a level itself.
    fn power_within(self, power: Kilowatt) -> bool
        ensures { result ≡ power_within self power.0 }
    {
        !self.is_high(power) & !self.is_low(power)
    }

    // Every pair is tested, without an early exit: the turns are then alike. As a fold: 47 ns in place of 35 for ten pairs in each slot.
    fn pairs_within(self, z: &[u8]) -> bool
        ensures { result ≡ pairs_within z.now self }
    {
        let count = block::stored_count(z);
        let mut ok = true;
        for j in 0..count {
            let pair = block::pair_at(z, j);
            ok = ok & self.power_within(pair.power);
        }
        ok
    }

    #[tactic(auto, unfolding(crate::specs::Within::slot_within))]
    fn slot_within(self, b: &[u8], i: u8, direction: Direction) -> bool
        ensures { result ≡ slot_within b.now i direction.0 self }
    {
        let z = block::slot_at(b, i);
        let r = block::record_in(z);
        let is_forced = (r.record_type == RecordType::FORCED_WORK) & (r.direction == direction);
        !is_forced || self.pairs_within(z)
    }

    // As `all` of a range: 42 ns in place of 35.
    fn forced_within(self, b: &[u8], counted: [bool; 8], direction: Direction) -> bool
        ensures { result ≡ forced_within b.now counted direction.0 self }
    {
        let mut ok = true;
        for i in 0..SLOT_COUNT {
            if !counted[i as usize] {
                continue;
            }
            ok = ok & self.slot_within(b, i, direction);
        }
        ok
    }
}

fn nothing_found() -> SweepResult
    ensures { result ≡ record { fits = true; above = false; below = false } }
{
    SweepResult {
        fits: true,
        above: false,
        below: false,
    }
}

// What two stretches of minutes hold together.
fn both_found(g: SweepResult, h: SweepResult) -> SweepResult
    ensures { result ≡ both_found g h }
{
    SweepResult {
        fits: g.fits & h.fits,
        above: g.above | h.above,
        below: g.below | h.below,
    }
}

fn with_power(e: Extremes, power: Kilowatt) -> Extremes
    ensures { result ≡ with_power e power }
{
    Extremes {
        lowest: e.lowest.min(power),
        highest: e.highest.max(power),
    }
}

// With the minutes of a pair whose level does not fit, and those between. Of the shape of `with_power`, over minutes: one for both would
// need a trait for two fields each.
fn joined_with(asked: Period, from: Minute, to: Minute) -> Period
    ensures { result ≡ joined_with asked from to }
{
    Period {
        start: asked.start.min(from),
        end: asked.end.max(to),
    }
}

impl CountedTypes {
    // A record of a type counts as well.
    fn with_type(self, record_type: RecordType) -> CountedTypes
        ensures { result ≡ with_type self record_type.0 }
    {
        CountedTypes {
            forced: self.forced | (record_type == RecordType::FORCED_WORK),
            positive: self.positive | (record_type == RecordType::POSITIVE_DERATING),
            negative: self.negative | (record_type == RecordType::NEGATIVE_DERATING),
        }
    }

    // Forced work and a derating count.
    fn meet(self) -> bool
        ensures { result ≡ types_meet self }
    {
        self.forced & (self.positive | self.negative)
    }
}

// Which types the slots that count have. In one walk: a question for each type takes 28 ns in place of 10 where no slot counts. By number:
// a slot is read by it.
fn counted_types(b: &[u8], counted: [bool; 8]) -> CountedTypes
    ensures { result ≡ counted_types b.now counted }
{
    let mut types = CountedTypes {
        forced: false,
        positive: false,
        negative: false,
    };
    for i in 0..SLOT_COUNT {
        if !counted[i as usize] {
            continue;
        }
        let z = block::slot_at(b, i);
        types = types.with_type(block::record_in(z).record_type);
    }
    types
}

// The report's record among them, where it counts.
#[tactic(auto, unfolding(crate::specs::Extremes::swept_types, fields::specs::Lists::pick))]
fn swept_types(b: &[u8], report: &[u8], swept: Swept) -> CountedTypes
    ensures { result ≡ swept_types b.now report.now swept }
{
    let types = counted_types(b, swept.counted);
    if swept.with_report {
        return types.with_type(report::head_of(report).record_type);
    }
    types
}

// Question 17 in every minute of a period, of the records of one direction. Swept are only minutes between forced levels that do not
// fit beside the highest deratings; none without forced work or without a derating.
pub fn fits(
    b: &[u8],
    report: &[u8],
    swept: Swept,
    direction: Direction,
    period: Period,
    limits: Limits,
) -> bool
    ensures { result ≡ levels_every (levels_fit limits.kind.0 limits.range) (swept_records b.now report.now swept.counted swept.with_report) direction.0 period.start.0 period.end.0 }
{
    if !swept_types(b, report, swept).meet() {
        return true;
    }
    let lanes = lanes_of(b, report, swept, direction);
    let Some(forced) = lanes.extremes_of(RecordType::FORCED_WORK, period) else {
        return true;
    };
    let positive = highest_of(lanes.extremes_of(RecordType::POSITIVE_DERATING, period));
    let negative = highest_of(lanes.extremes_of(RecordType::NEGATIVE_DERATING, period));
    if limits.extremes_fit(forced, positive, negative) {
        return true;
    }
    let asked = lanes.asked_of(
        period,
        |p: Kilowatt| -> bool
            ensures { result ≡ fits_beside limits.kind.0 limits.range p.0 positive negative }
        { limits.fits_beside(p, positive, negative) },
    );
    lanes.sweep_lanes(common(period, asked), limits).fits
}

fn highest_of(e: Option<Extremes>) -> Option<Kilowatt>
    ensures { result ≡ highest_of e }
{
    e.map(|e| e.highest)
}

// Warnings 2 and 4 of the slots that count, in a period. Swept are only minutes between levels that are beyond the limits.
pub fn warn(
    b: &[u8],
    counted: [bool; 8],
    direction: Direction,
    period: Period,
    limits: Limits,
) -> LevelWarnings
    ensures { result ≡ level_warnings limits.kind.0 limits.range (counted_records b.now counted) direction.0 period.start.0 period.end.0 }
{
    if limits.forced_within(b, counted, direction) {
        return LevelWarnings {
            above: false,
            below: false,
        };
    }
    let swept = Swept {
        counted,
        with_report: false,
    };
    // No report counts, so none is read: the block stands in its place.
    let lanes = lanes_of(b, b, swept, direction);
    let asked = lanes.asked_of(
        period,
        |p: Kilowatt| -> bool
            ensures { result ≡ power_within limits p.0 }
        { limits.power_within(p) },
    );
    let g = lanes.sweep_lanes(common(period, asked), limits);
    LevelWarnings {
        above: g.above,
        below: g.below,
    }
}
