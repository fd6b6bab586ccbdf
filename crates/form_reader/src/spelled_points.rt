// The lines of points, told to be spelled as they are written, while they are read.
ghost use Rattle.std.specs.Prelude.{◌≡◌, ◌+◌, ◌≤◌, ◌<◌, ◌++◌, true, false, eqb};
ghost use Rattle.fields.specs.Fields.{u8_at, bytes_of};
ghost use Rattle.std.specs.Int.{w32};
ghost use Rattle.std.proofs.Common.{to_z};
ghost use Rattle.report.specs.declared.Head.{Head};
ghost use Rattle.report.specs.Encoded.{encode_part, encode_parts};
ghost use Rattle.texts.specs.Texts.{Writes};
ghost use Rattle.texts.specs.Numerals.{line_feed};
ghost use Rattle.forms.specs.Values.{signed_decimal};
ghost use Rattle.forms.specs.Form.{point_line, point_lines};
ghost use Rattle.form_reading.specs.Reading.{power_at, point_in, point_at, point_count, part_in, parts_in};
ghost use Rattle.form_reader.specs.Spelled.{Told};
ghost use Rattle.form_reader.specs.SpelledPoint.{is_position};

use crate::spelled::{is_plain, stands};
use crate::{Points, is_point, number_at, opposite, part_of};
use form_reading::{Grid, Numeral, Point};
use quantities::SignedKilowatt;
use report::{MOST_PARTS, Part};
use texts::Text;

// A power without a hyphen, before a line feed, and the place after that.
#[tactic(auto, unfolding(form_reading::specs::Reading::power_at, fields::specs::Lists::pick))]
fn plus_at(s: &[u8], at: usize) -> (Numeral, bool)
    requires { (at ≤ 32768) × (eqb (u8_at s.now at) 45 ≡ false) }
    ensures read { result.0 ≡ power_at s.now at }
    ensures told { Told (signed_decimal (to_z w32 result.0.value) ++ line_feed) s.now at result.1 result.0.next }
    ensures bounds { (result.0.value < 4294967296) × (result.0.next ≤ at + 12) }
{
    let n = number_at(s, at);
    let spelled = is_plain(fields::u8_at(s, at), n.next == at + 1)
        & (n.value < 2147483648)
        & (fields::u8_at(s, n.next) == b'\n');
    let power = Numeral {
        value: n.value % 4294967296,
        next: n.next + 1,
    };
    (power, spelled)
}

// A power behind a hyphen.
#[tactic(auto, unfolding(form_reading::specs::Reading::power_at, fields::specs::Lists::pick))]
fn minus_at(s: &[u8], at: usize) -> (Numeral, bool)
    requires { (at ≤ 32768) × (eqb (u8_at s.now at) 45 ≡ true) }
    ensures read { result.0 ≡ power_at s.now at }
    ensures told { Told (signed_decimal (to_z w32 result.0.value) ++ line_feed) s.now at result.1 result.0.next }
    ensures bounds { (result.0.value < 4294967296) × (result.0.next ≤ at + 12) }
{
    let digits = at + 1;
    let n = number_at(s, digits);
    let spelled = is_plain(fields::u8_at(s, digits), n.next == digits + 1)
        & ((1 <= n.value) & (n.value <= 2147483648))
        & (fields::u8_at(s, n.next) == b'\n');
    let power = Numeral {
        value: opposite(n.value),
        next: n.next + 1,
    };
    (power, spelled)
}

// The power at `at`, before a line feed, and the place after that.
fn spelled_power(s: &[u8], at: usize) -> (Numeral, bool)
    requires { at ≤ 32768 }
    ensures read { result.0 ≡ power_at s.now at }
    ensures told { Told (signed_decimal (to_z w32 result.0.value) ++ line_feed) s.now at result.1 result.0.next }
    ensures bounds { (result.0.value < 4294967296) × (result.0.next ≤ at + 12) }
{
    if fields::u8_at(s, at) == b'-' {
        return minus_at(s, at);
    }
    plus_at(s, at)
}

// A position that its minute gives back.
fn is_position(grid: Grid, position: u64) -> bool
    requires { position < 10000000000 }
    ensures value { result ≡ is_position grid position }
    ensures early { grid.period.start.0 < 4294967296 }
{
    let after = position.saturating_sub(1) * u64::from(grid.step);
    (1 <= position)
        & ((1 <= grid.step) | (position == 1))
        & (u64::from(grid.period.start.0) + after < 4294967296)
}

// The point whose line is at `at`.
#[tactic(auto, unfolding(form_reading::specs::Reading::point_in))]
fn spelled_point(s: &[u8], at: usize, grid: Grid) -> (Point, bool)
    requires { at ≤ 8192 }
    ensures read { result.0 ≡ point_in s.now at }
    ensures told { (h : Head) → h.period ≡ grid.period → Told (point_line h grid.step (part_in s.now grid at)) s.now at result.1 result.0.next }
    ensures bounds { (result.0.position < 10000000000) × (result.0.next ≤ at + 29) }
{
    let digits = at + 6;
    let n = number_at(s, digits);
    let (power, power_spelled) = spelled_power(s, n.next + 1);
    let spelled = stands(b"point=", s, at)
        & is_plain(fields::u8_at(s, digits), n.next == digits + 1)
        & is_position(grid, n.value)
        & (fields::u8_at(s, n.next) == b' ')
        & power_spelled;
    let point = Point {
        position: n.value,
        power: SignedKilowatt((power.value as u32).cast_signed()),
        next: power.next,
    };
    (point, spelled)
}

// Two numbers at once.
fn put_pair(report: &mut Text, a: u32, b: u32)
    ensures { Writes 8 report.old (bytes_of 4 a ++ bytes_of 4 b) report.new }
{
    let pair = u64::from(a) + u64::from(b) * 4294967296;
    report.put(&pair.to_le_bytes());
}

// A part with its mark and zeros.
fn put_part(report: &mut Text, p: Part)
    ensures { Writes 16 report.old (encode_part p) report.new }
{
    put_pair(report, 0x4B50, p.period.start.0);
    put_pair(report, p.period.end.0, p.power.0.cast_unsigned());
}

// The parts of the points from `at` on. Each line is read once, for its own part and for the end of the one before it.
pub(crate) fn put_points(report: &mut Text, s: &[u8], at: usize, grid: Grid) -> (Points, bool)
    requires { at ≤ 310 }
    ensures count { result.0.count ≡ point_count s.now at }
    ensures next { result.0.next ≡ point_at s.now at result.0.count }
    ensures told { (h : Head) → h.period ≡ grid.period → Told (point_lines h grid.step (parts_in s.now grid at result.0.count)) s.now at result.1 result.0.next }
    ensures put { Writes 1600 report.old (encode_parts (parts_in s.now grid at result.0.count)) report.new }
    ensures bounds { (result.0.count ≤ 100) × (result.0.next ≤ 3210) }
{
    report.put(b"");
    let mut place = at;
    let mut spelled = true;
    let (mut point, mut here) = spelled_point(s, at, grid);
    for j in 0..MOST_PARTS {
        if !is_point(s, place) {
            return (
                Points {
                    count: j,
                    next: place,
                },
                spelled,
            );
        }
        let more = is_point(s, point.next);
        let (next, ahead) = spelled_point(s, point.next, grid);
        put_part(report, part_of(grid, point, more, next));
        place = point.next;
        spelled = spelled & here;
        point = next;
        here = ahead;
    }
    let points = Points {
        count: MOST_PARTS,
        next: place,
    };
    (points, spelled)
}
