// What the program prints of an answer.
use rules::Refusal;
use std::fmt;

// An answer in words.
#[derive(Clone, Copy)]
pub(crate) struct InWords(pub(crate) Result<u8, Refusal>);

impl fmt::Display for InWords {
    fn fmt<W: fmt::Write>(&self, f: &mut fmt::Formatter<W>) -> fmt::Result {
        match self.0 {
            Ok(0) => f.write_str("accepted"),
            Ok(warnings) => write!(f, "accepted with warning {}", warnings),
            Err(refusal) => write!(f, "refused with {}", refusal.number),
        }
    }
}
