//! A run as a page of a browser: the report's rows, and a script that steps through them.
use crate::page_script::SCRIPT;
use crate::page_template::{BODY, HEAD};
use crate::style::{SIGNS, STYLE};
use record::Record;
use report::{WriteFault, write_record};
use std::alloc::Global;
use std::io::Write;
use texts::{Metered, send};

/// What stands before the rows of the report.
const REPORT: &str = "</svg>\n<script type=\"text/csv\" id=\"report\">\n";

const END: &str = "</script>\n</body>\n</html>\n";

/// Writes the page of a run: one file that loads nothing else. Whether the run is lawful is not
/// asked. All rows of a report are numbers and names of this program, which HTML reads as they are.
pub fn write_page<W: Write>(
    alloc: Global,
    record: &Record,
    to: &mut Metered<W>,
) -> Result<(), WriteFault> {
    send_all(&[HEAD, STYLE, BODY, SIGNS, REPORT], to)?;
    write_record(alloc, record, to)?;
    send_all(&["</script>\n<script>", SCRIPT, END], to)
}

fn send_all<W: Write>(parts: &[&str], to: &mut Metered<W>) -> Result<(), WriteFault> {
    for part in parts {
        send(part.as_bytes(), to)?;
    }
    Ok(())
}
