// What the programs say, on standard output. What cannot be written is left unsaid: the work goes on.
use records::refusal::Refusal;
use std::fmt;
use std::fmt::Display;

// Bytes as they are: a name need not be text.
pub fn say(rt: &impl Print, bytes: &[u8]) {
    let _ = rt.write_all(bytes);
}

// A line that begins with a name: pump.job: NOT PACKED
pub(crate) fn say_of(rt: &impl Print, name: &[u8], what: impl Display + Drop) {
    say(rt, name);
    let _ = println!(rt; ": {what}");
}

// A line of a job: pump.job: line 7: malformed: ..
pub fn say_line(rt: &impl Print, name: &[u8], line: usize, what: impl Display + Drop) {
    say_of(rt, name, format_args!("line {line}: {what}"));
}

// offer refused, 8: the image is too large for an empty page
#[derive(Clone, Copy)]
pub struct Refused {
    pub operation: &'static str,
    pub refusal: Refusal,
}

impl Display for Refused {
    fn fmt<W: fmt::Write>(&self, f: &mut fmt::Formatter<W>) -> fmt::Result {
        let operation = self.operation;
        let refusal = self.refusal;
        let number = u32::from(refusal);
        write!(f, "{operation} refused, {number}: {refusal}")
    }
}
