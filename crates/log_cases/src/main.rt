// The edges of the shift log.
#![tactic(auto)]

use log_lines::Plain;
use sent_reports::{MOST_BYTES, REGISTER_SIZE, compose, derating, fresh_register, put_roster_a};
use std::io;

fn main(rt: HostRuntime) -> io::Result<()> {
    rosters(&rt)?;
    cut_short(&rt)?;
    not_whole(&rt)?;
    columns(&rt)?;
    thousands(&rt)
}

fn rosters(rt: &impl Print) -> io::Result<()> {
    println!(rt; "\nThe shift log: what set-up refuses")?;
    let mut roster = [0u8; 56];
    put_roster_a(&mut roster);
    let all: [(&str, &[u8]); 3] = [
        ("no input at all", &roster[..0]),
        ("the second entry cut short by a byte", &roster[..55]),
        ("roster A whole", &roster),
    ];
    for (words, bytes) in all {
        print!(rt; "{words}: ")?;
        fault(rt, bytes)?;
    }
    Ok(())
}

// What is printed of a roster that is lent to set-up.
fn fault(rt: &impl Print, roster: &[u8]) -> io::Result<()> {
    let Err(error) = setup::set_up(roster, &mut [0u8; REGISTER_SIZE]) else {
        return println!(rt; "no fault");
    };
    let mut text = [0u8; 128];
    let end = log_lines::put_fault(&mut text, u8::from(error));
    rt.write_all(&text[..end])
}

// The report's line as the first of a log, and whether it ends the run.
fn line(rt: &impl Print, words: &str, report: &[u8]) -> io::Result<()> {
    let mut register = fresh_register();
    let mut text = [0u8; 128];
    let logged = log_lines::log_report::<Plain>(
        &mut register,
        report,
        log_lines::at_start(),
        &mut text,
    );
    let ends = if logged.ends { " (ends the run)" } else { "" };
    print!(rt; "{words}{ends}: ")?;
    rt.write_all(&text[..logged.length])
}

fn lines(rt: &impl Print, all: &[(&str, &[u8])]) -> io::Result<()> {
    for (words, report) in all {
        line(rt, *words, *report)?;
    }
    Ok(())
}

// A derating in whose head a field is another, as far as its length is read.
fn changed(rt: &impl Print, all: &[(&str, usize, u16)]) -> io::Result<()> {
    for (words, at, value) in all {
        let mut buffer = [0u8; 1850];
        compose(&mut buffer, derating(1));
        fields::put_u16(&mut buffer, *at, *value);
        let end = log_lines::stated_length(&buffer);
        line(rt, *words, &buffer[..end])?;
    }
    Ok(())
}

fn cut_short(rt: &impl Print) -> io::Result<()> {
    println!(rt; "\nThe shift log: a report that is cut short")?;
    let mut plain = [0u8; 66];
    compose(&mut plain, derating(1));
    let mut with_text = [0u8; 71];
    compose(&mut with_text, derating(1));
    fields::put_u16(&mut with_text, 44, 5);
    let all: [(&str, &[u8]); 5] = [
        ("the input ends inside a head", &plain[..20]),
        ("the input ends inside a part", &plain[..60]),
        ("the input ends before the text's mark", &plain[..64]),
        ("the input ends inside the text", &with_text[..68]),
        ("the same report, whole", &with_text),
    ];
    lines(rt, &all)
}

fn not_whole(rt: &impl Print) -> io::Result<()> {
    println!(rt; "\nThe shift log: a report that is not whole")?;
    let heads = [
        ("a wrong mark", 0, 0x5053),
        ("101 parts: the head alone is judged", 14, 101),
        ("201 bytes of text: likewise", 44, 201),
    ];
    changed(rt, &heads)?;
    let mut roster = [0u8; 56];
    put_roster_a(&mut roster);
    let entries: [(&str, &[u8]); 2] = [
        ("a ninth roster entry", &roster[..28]),
        ("one byte 4A after good entries", &roster[..1]),
    ];
    lines(rt, &entries)
}

fn columns(rt: &impl Print) -> io::Result<()> {
    println!(rt; "\nThe shift log: its columns")?;
    let all = [
        ("a unit number that no one has", 2, 65535),
        ("a stamp after 2049", 34, 402),
        ("a part that starts a minute late", 52, 0xF8BD),
    ];
    changed(rt, &all)
}

// One report, sent again and again: accepted once.
fn thousands(rt: &impl Print) -> io::Result<()> {
    println!(rt; "\nThe shift log: one report, sent 5,000 times; the last line and the totals")?;
    let mut register = fresh_register();
    let mut buffer = [0u8; MOST_BYTES];
    let report = compose(&mut buffer, derating(1));
    let mut text = [0u8; 128];
    let mut progress = log_lines::at_start();
    for _ in 0..4999u32 {
        progress = log_lines::log_report::<Plain>(
            &mut register,
            report,
            progress,
            &mut text,
        ).progress;
    }
    let last = log_lines::log_report::<Plain>(&mut register, report, progress, &mut text);
    rt.write_all(&text[..last.length])?;
    let end = log_lines::put_totals(&mut text, last.progress.totals);
    rt.write_all(&text[..end])
}
