// The reports of paper 01 that no theorem has, and the bench findings, run on the proved desk.
#![tactic(auto)]

mod words;

ghost use Rattle.std.specs.Prelude.{◌≡◌, ◌≤◌, is_ok, eqb};
ghost use Rattle.rules.specs.Judge.{told};
ghost use Rattle.rules.specs.Desk.{answer_to};
ghost use Rattle.sent_reports.specs.Sent.{report_sent};

use rules::Refusal;
use sent_reports::{
    D, MOST_BYTES, Sent, Step, begun_stop, derating, derating_over, event, forced, fresh_register,
};
use std::io;
use words::InWords;

fn main(rt: HostRuntime) -> io::Result<()> {
    without_star(&rt)?;
    bench_findings(&rt)
}

fn answer(register: &mut [u8], s: Sent) -> Result<u8, Refusal>
    ensures value { told result ≡ (answer_to register.old (report_sent s)).answer }
    ensures accepted { is_ok result ≡ eqb (answer_to register.old (report_sent s)).answer.number 0 }
    ensures register_after { register.new ≡ (answer_to register.old (report_sent s)).after }
{
    let mut buffer = [0u8; MOST_BYTES];
    let report = sent_reports::compose(&mut buffer, s);
    desk::answer_report(register, report)
}

// A report after those before it.
fn then(rt: &impl Print, register: &mut [u8], words: &str, s: Sent) -> io::Result<()>
    ensures { register.new ≡ (answer_to register.old (report_sent s)).after }
{
    let a = InWords(answer(register, s));
    println!(rt; "{words}: {a}")
}

// Reports one after the other on fresh roster A, each behind its words.
fn case(rt: &impl Print, reports: &[(&str, Sent)]) -> io::Result<()> {
    let mut register = fresh_register();
    for (words, s) in reports {
        then(rt, &mut register, words, *s)?;
    }
    Ok(())
}

fn cases(rt: &impl Print, all: &[&[(&str, Sent)]]) -> io::Result<()> {
    for reports in all {
        case(rt, *reports)?;
    }
    Ok(())
}

fn on_unit(unit: u16) -> Sent {
    Sent {
        unit,
        ..derating(1)
    }
}

fn without_star(rt: &impl Print) -> io::Result<()> {
    println!(rt; "Reports of paper 01 on fresh roster A, unit 1")?;
    let above_max = Sent {
        power: 200001,
        ..derating(1)
    };
    let overlapping = derating_over(2, D + 10, D + 105, D + 180);
    let early = derating_over(1, D - 1, D + 60, D + 120);
    let all: [&[(&str, Sent)]; 7] = [
        &[("a derating on unit 3, which is not there", on_unit(3))],
        &[("a derating of 200,001 kW, above Pmax", above_max)],
        &[
            ("a derating D+60 to D+120", derating(1)),
            ("  then one from D+105, which overlaps it", overlapping),
        ],
        &[("event 1 at D+10, though the unit works", event(1))],
        &[
            ("a begun stop RA from D+5", begun_stop(1, 1, D + 5)),
            ("  then one from D+8, RA as well", begun_stop(2, 1, D + 8)),
        ],
        &[("stamp D-1, before the unit's last", early)],
        &[("forced work at 79,999 kW, below Pmin", forced(1, 79999))],
    ];
    cases(rt, &all)?;
    ninth_record(rt, &mut fresh_register())
}

// Eight deratings, a quarter of an hour each, and one more.
fn ninth_record(rt: &impl Print, register: &mut [u8]) -> io::Result<()> {
    for i in 0..8u8 {
        let words = "one of eight deratings, one after the other";
        then(rt, register, words, one_of_eight(i))?;
    }
    let ninth = derating_over(9, D + 10, D + 180, D + 195);
    then(rt, register, "  then a ninth live record", ninth)
}

fn one_of_eight(i: u8) -> Sent
    requires { i ≤ 7 }
{
    let start = D + 60 + 15 * (i as u32);
    derating_over(1 + i, D + 10, start, start + 15)
}

fn bench_findings(rt: &impl Print) -> io::Result<()> {
    println!(rt; "\nWhat the bench found")?;
    let step = Step {
        at: D + 90,
        power: 50000,
    };
    let stepping = Sent {
        step: Some(step),
        ..derating(1)
    };
    let all: [&[(&str, Sent)]; 3] = [
        &[("unit 3, which is not there", on_unit(3))],
        &[("unit 2, which is another's: the same answer", on_unit(2))],
        &[
            (
                "a derating of 20,000 kW that steps up to 50,000 kW at D+90",
                stepping,
            ),
            (
                "  then forced work at 160,000 kW, which fits only before the step",
                forced(2, 160000),
            ),
            (
                "  then forced work at 150,000 kW, which fits in every minute",
                forced(2, 150000),
            ),
        ],
    ];
    cases(rt, &all)?;
    dead_slots(rt)?;
    last_stamp(rt)
}

// Eight records that have ended count as free.
fn dead_slots(rt: &impl Print) -> io::Result<()> {
    let mut register = fresh_register();
    ninth_record(rt, &mut register)?;
    let s = derating_over(9, D + 180, D + 195, D + 210);
    then(
        rt,
        &mut register,
        "  the same at D+180, when the eight have ended",
        s,
    )
}

fn last_stamp(rt: &impl Print) -> io::Result<()> {
    let off_grid = derating_over(1, D + 30, D + 61, D + 120);
    let earlier = derating_over(1, D + 20, D + 60, D + 120);
    let reports = [
        ("stamp D+30, off the quarter hour", off_grid),
        (
            "  then stamp D+20: the rejected report has not moved the last stamp",
            earlier,
        ),
    ];
    case(rt, &reports)
}
