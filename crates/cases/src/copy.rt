//! Reports that are read and written again.
use program::Fault;
use report::{read_record, write_record};
use std::alloc::Global;
use std::io::{Read, Write};
use texts::Metered;

/// Reads a report, and writes its record.
pub(crate) fn copy_over<R: Read, O: Write>(
    alloc: Global,
    report: &mut R,
    out: &mut Metered<O>,
) -> Result<(), Fault> {
    let record = read_record(alloc, &mut Metered::new(report))?;
    write_record(alloc, &record, out)?;
    Ok(())
}
