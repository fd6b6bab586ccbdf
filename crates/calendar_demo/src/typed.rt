// Dates typed back in, in plain words: what just passes and what just fails.
use std::io;
use std::io::Print;

// In words, and the text.
const CASES: [(&str, &str); 26] = [
    ("the example of the paper", "2026-03-01 00:10"),
    ("the last day of a month of 30", "2025-04-30 00:00"),
    ("the 31st of a month of 30", "2025-04-31 00:00"),
    ("29 February of a leap year", "2024-02-29 00:00"),
    ("29 February of another year", "2025-02-29 00:00"),
    ("day 00", "2026-03-00 00:10"),
    ("day 32", "2026-03-32 00:10"),
    ("the last month", "2026-12-31 00:00"),
    ("month 13", "2026-13-01 00:10"),
    ("month 00", "2026-00-01 00:10"),
    ("the last minute of a day", "2026-03-01 23:59"),
    ("24:00 is not the next day's 00:00", "2026-03-01 24:00"),
    ("minute 60", "2026-03-01 00:60"),
    ("the first minute", "2000-01-01 00:00"),
    ("the minute before it", "1999-12-31 23:59"),
    ("the last minute", "2049-12-31 23:59"),
    ("the minute after it", "2050-01-01 00:00"),
    ("T for the blank", "2026-03-01T00:10"),
    ("strokes for hyphens", "2026/03/01 00:10"),
    ("a point for the colon", "2026-03-01 00.10"),
    ("a sign", "+026-03-01 00:10"),
    ("a blank for a zero", "2026-03- 1 00:10"),
    ("a letter for a digit", "2O26-03-01 00:10"),
    ("a month of one digit", "2026-3-01 00:10"),
    ("a blank after it", "2026-03-01 00:10 "),
    ("no text", ""),
];

pub(crate) fn print_cases(rt: &impl Print) -> io::Result<()> {
    for (words, text) in CASES {
        print!(rt; "{words}: '{text}' is ")?;
        match calendar::read_date(text.as_bytes()) {
            Ok(minute) => {
                print!(rt; "minute {}, printed ", minute.0)?;
                super::print_date(rt, minute)?;
            }
            Err(error) => println!(rt; "refused with {}", u8::from(error))?,
        }
    }
    Ok(())
}
