// Prints the first and the last minute of every month, some minutes between, and one past the end,
// each with its date or its refusal; then dates that are read.
#![tactic(auto)]

mod typed;

use calendar::Date;
use quantities::Minute;
use std::io;
use std::io::Print;

fn main(rt: HostRuntime) -> io::Result<()> {
    print_month_bounds(&rt)?;
    print_between(&rt)?;
    print_line(&rt, 26298720)?;
    typed::print_cases(&rt)
}

fn print_month_bounds(rt: &impl Print) -> io::Result<()> {
    print_line(rt, 0)?;
    for day in 1..18263 {
        if Date::from(Minute(day * 1440)).day == 1 {
            print_line(rt, day * 1440 - 1)?;
            print_line(rt, day * 1440)?;
        }
    }
    print_line(rt, 26298719)
}

// Each minute is computed and has to fit; `step_by` would ask nothing, and the edit `wide_step` would pass.
fn print_between(rt: &impl Print) -> io::Result<()> {
    for step in 0..338 {
        print_line(rt, 12345 + step * 77777)?;
    }
    Ok(())
}

fn print_line(rt: &impl Print, minute: u32) -> io::Result<()> {
    print!(rt; "{minute} ")?;
    print_date(rt, Minute(minute))
}

// The date, or the number of its refusal.
fn print_date(rt: &impl Print, minute: Minute) -> io::Result<()> {
    match calendar::print_date(minute) {
        Ok(text) => rt.write_all(&text)?,
        Err(error) => rt.print(u8::from(error))?,
    }
    rt.write_all(b"\n")
}
