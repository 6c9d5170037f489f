//! What is written to a new file.
ghost use Rattle.std.specs.Prelude.{◌≡◌, IfOk};
ghost use Rattle.replacer.specs.Printed.{Prints};

use crate::job::Job;
use program_text::failure::Failure;
use std::alloc::Global;
use std::io::{BufReader, BufWriter, Read, Write};

/// Reads an input to its end, and writes what is printed of it to the file. Returns the file, to which all is written.
///
/// Fails if the input cannot be read, the file cannot be written or allocation failed. Then the file has a beginning of
/// what was to be written.
pub fn write_printed<R: Read + Drop, W: Write + Drop>(
    alloc: Global,
    job: &mut Job<'_>,
    input: R,
    file: W,
) -> Result<W, Failure>
    ensures printed { IfOk result (λ written. Prints job.old (R.remaining input) (W.contents file)
        (W.contents written)) }
    ensures kept { job.new ≡ job.old }
{
    let Ok(mut input) = BufReader::new(alloc, input) else {
        return Err(Failure::Memory);
    };
    let Ok(mut out) = BufWriter::new(alloc, file) else {
        return Err(Failure::Memory);
    };
    job.print(alloc, &mut input, &mut out)?;
    match out.into_inner() {
        Ok(file) => Ok(file),
        Err(error) => Err(Failure::Write(error.into_error())),
    }
}
