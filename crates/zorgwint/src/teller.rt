use plan_progress::Teller;
use std::io::{Stderr, Write};

/// Writes lines to standard error. A line that can't be written is left out.
#[derive(Drop)]
pub struct ErrorTeller {
    out: Stderr,
}

impl ErrorTeller {
    pub fn new(out: Stderr) -> ErrorTeller {
        ErrorTeller { out }
    }
}

impl Teller for ErrorTeller {
    fn tell(&self, line: &[u8]) {
        let mut out = self.out;
        let _ = out.write_all(line);
    }
}
