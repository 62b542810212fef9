// Opening a file, running its next line, and finishing.
ghost use Rattle.std.specs.Prelude.{◌≡◌};
ghost use Rattle.transcript.specs.Turns.{ending};
ghost use Rattle.transcript.specs.HandViews.{all_told};
ghost use Rattle.transcript.specs.Running.{running, Opened, RunAnswered};

use crate::in_hand::CaseInHand;
use crate::outcome::Outcome;
use crate::outcome::writing::LEAST_BUFFER;
use crate::refusal::RunRefusal;
use crate::runner::{OpenRefusal, Printed, Runner};
use casefile::reader::Reader;
use std::alloc::Global;

// The most bytes that a file may have.
pub const MOST_FILE: usize = 32_768;

impl<'a> Runner<'a> {
    // A runner at the first line of a file, over a new case.
    pub fn open(number: u32, file: &'a [u8], heap: Global) -> Result<Runner<'a>, OpenRefusal>
        ensures result { Opened number file.now result }
    {
        if file.len() > MOST_FILE {
            return Err(RunRefusal::FileTooLong.into());
        }
        let hand = CaseInHand::new(number, heap)?;
        Ok(Runner {
            reader: Reader::new(file),
            count: 0,
            hand,
        })
    }

    // Runs the next line, if there is one, and writes its text to the front of the buffer.
    pub fn run_line(&mut self, out: &mut [u8]) -> Result<Option<Printed>, RunRefusal>
        ensures result { RunAnswered (running self.old) out.old result (running self.new) out.new }
    {
        if out.len() < LEAST_BUFFER {
            return Err(RunRefusal::BufferTooShort);
        }
        let Some(line) = self.reader.next_line() else {
            return Ok(None);
        };
        let outcome = self.hand.run(line);
        self.count += 1;
        let bytes = outcome.write(self.count, out)?;
        Ok(Some(Printed { outcome, bytes }))
    }

    // Ends the run. A sheet that is still out is returned, and that is told.
    pub fn finish(self) -> Option<Outcome>
        ensures ending { all_told result ≡ ending self.entry.hand.sheet }
    {
        let Runner {
            reader: _,
            count: _,
            hand,
        } = self;
        hand.put_away()
    }
}
