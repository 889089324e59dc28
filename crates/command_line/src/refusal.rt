//! Why a text is refused: which row, which field of it, what was found and what is wanted.
use crate::complaint::Complaint;
use crate::excerpt::excerpt;
use crate::field::Field;
use crate::forms::{schedule_fields, script_fields};
use crate::report_forms::ReportSoFar;
use crate::row_fault::{Form, RowFault, absent_fault, fault_of, field_fault, form_fault, name_at};
use crate::sheet_rows::{FoundRow, row_of};
use crate::source::Source;
use arena::{Mode, NoMemory};
use audit::{AuditFault, Watch, audit_watched};
use csv::StringRecord;
use explaining::explain;
use record::Record;
use report::{ReportFault, read_record};
use script::{Schedule, Script, TextFault, read_schedule, read_script};
use std::alloc::{AllocError, Global};
use texts::{Metered, number_of};

/// The first row of a script.
const SCRIPT_HEAD: &str = "limits,passes,nodes,scx,tries";

/// The first row of a schedule.
const SCHEDULE_ROW: &str = "one of a schedule, or end,0,,";

/// The first row of a report, and its last.
const REPORT_HEAD: &str = "report,2,MODE,,,,";

const REPORT_END: &str = "end,STEPS,REPLIES,LOGS,,,";

/// The script that a text says.
pub(crate) fn script_of(
    alloc: Global,
    mode: Mode,
    source: &Source<'_>,
) -> Result<Script, Complaint> {
    match read_script(alloc, mode, &mut Metered::new(source.bytes.as_slice())) {
        Ok(script) => Ok(script),
        Err(TextFault::Bad { row, cause: _ }) => {
            let fault = script_fault(alloc, mode, source, row)?;
            Err(refused(alloc, source, row, &fault)?)
        }
        Err(_) => Err(Complaint::NoMemory),
    }
}

/// What is wrong with a row of a script.
fn script_fault(
    alloc: Global,
    mode: Mode,
    source: &Source<'_>,
    row: u64,
) -> Result<RowFault, AllocError> {
    let before = row.saturating_sub(2);
    let end = format!(in alloc; "end,{before},,,")?;
    let found = match row_of(alloc, source, row) {
        FoundRow::Row(found) => found,
        absent => return absent_fault(alloc, &absent, row, SCRIPT_HEAD, end.as_str()),
    };
    let command = found.get(1).unwrap_or("");
    let fields = script_fields(row, command, mode, passes_of(alloc, source));
    let mut form = Form {
        fields: fields.as_slice(),
        entry: None,
        scx_at: scx_at(command, 2),
    };
    if row > 1 {
        form.entry = Some((before, end.as_str()));
    }
    fault_of(alloc, source, row, &found, &form)
}

/// Where the arguments of a command begin, if it is an `scx`.
fn scx_at(command: &str, place: usize) -> Option<usize> {
    if command == "scx" { Some(place) } else { None }
}

/// The number of passes that the first row of a script says.
fn passes_of(alloc: Global, source: &Source<'_>) -> u128 {
    match row_of(alloc, source, 1) {
        FoundRow::Row(first) => number_of::<u128>(first.get(1).unwrap_or("")).unwrap_or(0),
        _ => 0,
    }
}

/// The schedule that a text says.
pub(crate) fn schedule_of(
    alloc: Global,
    script: &Script,
    source: &Source<'_>,
) -> Result<Schedule, Complaint> {
    match read_schedule(alloc, script, &mut Metered::new(source.bytes.as_slice())) {
        Ok(schedule) => Ok(schedule),
        Err(TextFault::Bad { row, cause: _ }) => {
            let fault = schedule_fault(alloc, script, source, row)?;
            Err(refused(alloc, source, row, &fault)?)
        }
        Err(_) => Err(Complaint::NoMemory),
    }
}

/// What is wrong with a row of a schedule.
fn schedule_fault(
    alloc: Global,
    script: &Script,
    source: &Source<'_>,
    row: u64,
) -> Result<RowFault, AllocError> {
    let before = row.saturating_sub(1);
    let end = format!(in alloc; "end,{before},,")?;
    let found = match row_of(alloc, source, row) {
        FoundRow::Row(found) => found,
        absent => return absent_fault(alloc, &absent, row, SCHEDULE_ROW, end.as_str()),
    };
    let fields = schedule_fields(found.get(0).unwrap_or(""), u128::from(script.limits.passes));
    let form = Form {
        fields: fields.as_slice(),
        entry: Some((before, end.as_str())),
        scx_at: None,
    };
    fault_of(alloc, source, row, &found, &form)
}

/// What is said of a row, and of its field that is at fault, if one is.
fn refused(
    alloc: Global,
    source: &Source<'_>,
    row: u64,
    fault: &RowFault,
) -> Result<Complaint, AllocError> {
    let (text, name) = (fault.text.as_str(), fault.name);
    Ok(Complaint::Refused(if name.is_empty() {
        format!(in alloc; "{}, row {row}: {text}", source.name)?
    } else {
        format!(in alloc; "{}, row {row}, {name}: {text}", source.name)?
    }))
}

/// The record that a report says.
pub(crate) fn record_of(alloc: Global, source: &Source<'_>) -> Result<Record, Complaint> {
    match read_record(alloc, &mut Metered::new(source.bytes.as_slice())) {
        Ok(record) => Ok(record),
        Err(ReportFault::NotLawful { row }) => {
            let fault = report_fault(alloc, source, row)?;
            Err(refused_report(alloc, source, row, &fault)?)
        }
        Err(_) => Err(Complaint::NoMemory),
    }
}

/// What is wrong with a row of a report.
fn report_fault(alloc: Global, source: &Source<'_>, row: u64) -> Result<RowFault, AllocError> {
    let found = match row_of(alloc, source, row) {
        FoundRow::Row(found) => found,
        absent => return absent_fault(alloc, &absent, row, REPORT_HEAD, REPORT_END),
    };
    if let Some(fault) = form_fault(alloc, source, row, &found, 7)? {
        return Ok(fault);
    }
    let fields = report_fields(alloc, source, row, &found);
    let scx_at = scx_at(found.get(3).unwrap_or(""), 4);
    field_fault(alloc, &found, fields.as_slice(), scx_at)
}

/// What the fields of a row of a report are to be.
fn report_fields(alloc: Global, source: &Source<'_>, row: u64, found: &StringRecord) -> [Field; 7] {
    let so_far = ReportSoFar::of(alloc, source, row, found);
    so_far.fields(found.get(0).unwrap_or(""), found.get(3).unwrap_or(""))
}

/// The same of a row of a report, which is shown with its neighbours.
fn refused_report(
    alloc: Global,
    source: &Source<'_>,
    row: u64,
    fault: &RowFault,
) -> Result<Complaint, AllocError> {
    let shown = excerpt(alloc, source, row, fault.field)?;
    let RowFault {
        field: _,
        name,
        text,
    } = fault;
    let comma = if name.is_empty() { "" } else { ", " };
    Ok(Complaint::Refused(format!(in alloc;
        "{}, row {row}{comma}{name}: {text}{shown}",
        source.name
    )?))
}

/// Asks whether a record is of a lawful run; somebody is told how far that is.
pub(crate) fn require_lawful<W: Watch>(
    alloc: Global,
    source: &Source<'_>,
    record: &Record,
    watch: &mut W,
) -> Result<(), Complaint> {
    match audit_watched(alloc, record, watch) {
        Ok(()) => Ok(()),
        Err(AuditFault::NotLawful { row }) => match unlawful(alloc, source, record, row) {
            Ok(complaint) => Err(complaint),
            Err(NoMemory) => Err(Complaint::NoMemory),
        },
        Err(AuditFault::NoMemory) => Err(Complaint::NoMemory),
    }
}

/// Says which condition this row breaks.
fn unlawful(
    alloc: Global,
    source: &Source<'_>,
    record: &Record,
    row: u64,
) -> Result<Complaint, NoMemory> {
    let head = (record.script.calls.len() as u64).saturating_add(3);
    let breach = explain(alloc, record, row.saturating_sub(head) as usize)?;
    let name = match row_of(alloc, source, row) {
        FoundRow::Row(found) => {
            let fields = report_fields(alloc, source, row, &found);
            name_at(fields.as_slice(), breach.field)
        }
        _ => "",
    };
    let shown = excerpt(alloc, source, row, Some(breach.field))?;
    let text = breach.text.as_str();
    Ok(Complaint::Refused(format!(in alloc;
        "{}, row {row}, {name}: not lawful: {text}{shown}",
        source.name
    )?))
}
