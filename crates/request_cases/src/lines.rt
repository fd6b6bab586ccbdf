// What the program prints of a report.
use log_lines::Plain;
use std::io;

// The report's line as the first of a log. `log_cases` has the same three calls, with words between them: a crate for them would be
// longer than they are.
pub(crate) fn print_line(rt: &impl Print, register: &mut [u8], report: &[u8]) -> io::Result<()> {
    let mut text = [0u8; 128];
    let logged = log_lines::log_report::<Plain>(register, report, log_lines::at_start(), &mut text);
    rt.write_all(&text[..logged.length])
}
