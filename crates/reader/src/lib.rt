// A reader that holds a report and its place, and the head's fields that a line of the shift log shows.
#![tactic(auto)]

ghost use Rattle.std.specs.Prelude.{◌≡◌};
ghost use Rattle.reader.specs.Reading.{cursor_past, taken, at_first, reader_at, taken_here, moved_on, line_head};

use quantities::Minute;

// A place in a report.
#[derive(Clone, Copy)]
pub struct Cursor {
    pub place: usize,
}

// A number, and the cursor after it.
#[derive(Clone, Copy)]
pub struct Taken {
    pub value: u32,
    pub next: Cursor,
}

#[derive(Drop)]
pub struct Reader<'a> {
    pub report: &'a [u8],
    pub cursor: Cursor,
}

#[derive(Clone, Copy)]
pub struct LineHead {
    pub unit: u32,
    pub part_count: u32,
    pub stamp: Minute,
    pub text_length: u32,
}

impl Cursor {
    // The cursor n bytes on. It stops at the highest number that a place can be.
    #[tactic(auto, unfolding(fields::specs::Lists::pick, crate::specs::Reading::place_past))]
    pub fn past(self, n: usize) -> Cursor
        ensures { result ≡ cursor_past self n }
    {
        Cursor {
            place: self.place.saturating_add(n),
        }
    }

    // The number that begins `gap` bytes on, two bytes wide or else four. A type of two widths would refuse other numbers to callers.
    #[tactic(auto, unfolding(fields::specs::Lists::pick))]
    pub fn take(self, report: &[u8], gap: usize, width: usize) -> Taken
        ensures { result ≡ taken report.now self gap width }
    {
        let from = self.past(gap);
        if width == 2 {
            return Taken {
                value: u32::from(fields::u16_at(report, from.place)),
                next: from.past(2),
            };
        }
        Taken {
            value: fields::u32_at(report, from.place),
            next: from.past(4),
        }
    }
}

impl<'a> Reader<'a> {
    // A reader at the report's start.
    pub fn start(report: &'a [u8]) -> Reader<'a>
        ensures { result ≡ reader_at report.entry at_first }
    {
        let cursor = Cursor { place: 0 };
        Reader { report, cursor }
    }

    pub fn read(&mut self, gap: usize, width: usize) -> u32
        ensures { (result ≡ (taken_here self.old gap width).value) × (self.new ≡ moved_on self.old gap width) }
    {
        let taken = self.cursor.take(self.report, gap, width);
        self.cursor = taken.next;
        taken.value
    }
}

// The fields of a report's head that a line of the log shows, and those that say its length.
#[tactic(auto, unfolding(fields::specs::Lists::pick, crate::specs::Reading::place_past))]
pub fn line_head(report: &[u8]) -> LineHead
    ensures { result ≡ line_head report.now }
{
    let mut r = Reader::start(report);
    let unit = r.read(2, 2);
    let part_count = r.read(10, 2);
    let stamp = Minute(r.read(16, 4));
    let text_length = r.read(8, 2);
    LineHead {
        unit,
        part_count,
        stamp,
        text_length,
    }
}
