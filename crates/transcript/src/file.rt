// A whole file: run against a new case, line by line, into one growing text.
ghost use Rattle.std.specs.Prelude.{◌≡◌, ℕ, [], ◌∷◌, ◌++◌, IfOk, Option, OnOk};
ghost use Rattle.cases.specs.declared.sheet.Sheet.{Sheet as AnySheet};
ghost use Rattle.transcript.specs.Outcomes.{run_number};
ghost use Rattle.transcript.specs.Texts.{refused_fields, as_text};
ghost use Rattle.transcript.specs.Turns.{ending};
ghost use Rattle.transcript.specs.HandViews.{all_told};
ghost use Rattle.transcript.specs.Files.{texts};
ghost use Rattle.transcript.specs.Transcripts.{Transcribed};
ghost use Rattle.transcript.specs.Running.{running, Ran};

use crate::outcome::Outcome;
use crate::outcome::writing::{LEAST_BUFFER, refused_text};
use crate::refusal::RunRefusal;
use crate::runner::{OpenRefusal, Runner};
use std::alloc::{AllocError, Global};

// The number of the case that a file is run against.
pub const FILE_CASE: u32 = 1;

// Runs the lines that are left and appends their texts.
fn run_lines(runner: &mut Runner<'_>, text: &mut Vec<u8>) -> Result<(), AllocError>
    ensures ran { OnOk result (Ran (running runner.old) text.old.items (running runner.new) text.new.items) }
{
    let mut buffer = [0; LEAST_BUFFER];
    // No line is refused its buffer, which has the least room that is asked for. A `for` would want an iterator, which a
    // runner that may refuse its buffer is not.
    while let Ok(Some(printed)) = runner.run_line(&mut buffer) {
        text.extend_from_slice(&buffer[..printed.bytes])?;
    }
    Ok(())
}

// Appends what is told at the end of a file, whose line number no text names.
fn push_ending(told: Option<Outcome>, text: &mut Vec<u8>) -> Result<(), AllocError>
    ensures text { (sheet : Option AnySheet) (number : ℕ) → all_told told ≡ ending sheet → OnOk result (text.new.items ≡ text.old.items ++ texts number (ending sheet)) }
{
    match told {
        None => Ok(()),
        Some(outcome) => {
            let mut buffer = [0; LEAST_BUFFER];
            match outcome.write(0, &mut buffer) {
                Ok(bytes) => text.extend_from_slice(&buffer[..bytes]),
                // The buffer has the least room that is asked for.
                Err(_) => unreachable(),
            }
        }
    }
}

// The one line that is printed for a file that is not run.
fn push_refusal(refusal: RunRefusal, text: &mut Vec<u8>) -> Result<(), AllocError>
    ensures text { OnOk result (text.new.items ≡ text.old.items ++ as_text (refused_fields 0 (run_number refusal) ∷ [])) }
{
    text.extend_from_slice(refused_text(0, refusal.number()).as_bytes())
}

// The text that is printed for a file: a new case is made, the lines of the file are run against it, and what each comes
// to is written. A sheet that is still out at the end is returned, also where memory was wanted on the way.
pub fn transcribe(file: &[u8], heap: Global) -> Result<Vec<u8>, AllocError>
    ensures transcript { IfOk result (λ text. Transcribed file.now text.items) }
{
    let mut text = Vec::new(heap);
    match Runner::open(FILE_CASE, file, heap) {
        Ok(mut runner) => {
            let ran = run_lines(&mut runner, &mut text);
            let told = runner.finish();
            ran?;
            push_ending(told, &mut text)?;
            Ok(text)
        }
        Err(OpenRefusal::Refused(refusal)) => {
            push_refusal(refusal, &mut text)?;
            Ok(text)
        }
        Err(OpenRefusal::NoMemory(error)) => Err(error),
    }
}
