//! Texts of csv rows: entries, and an end row that counts them.
ghost use Rattle.std.specs.Prelude.{◌≡◌, ◌≢◌, ◌≤◌, ◌<◌, ◌↔◌, ◌^◌, ◌-◌, ◌+◌, ℕ, List, [], ◌∷◌, ◌++◌, decimal, Err, IfOk, IfErr, IfSome, IfNone, OnOk, IsErrOf, IsTrue, All, length, min, vec_len, MatchBool, Some, codes};
ghost use Rattle.texts.specs.declared.fault.TextFault.{TextFault};
ghost use Rattle.csv.specs.Records.{fields_of};
ghost use Rattle.texts.specs.Fields.{field_of};
ghost use Rattle.texts.specs.Reads.{HasRead, IsAtRow, last_row};
ghost use Rattle.texts.specs.Texts.{AreRows, BeginWithRows, Grammar, IfBad, IsEndFault, IsEndRow, IsFirstFault, IsRow, SayEntries, end_row};

use crate::fault::{Cause, TextFault};
use crate::number::{is_number, small_number_of};
use csv::{ErrorKind, Reader, ReaderBuilder, StringRecord};
use std::alloc::Global;
use std::io::Read;

/// How many entries a text may have.
const MOST_ENTRIES: usize = 65536;

/// What a row that is no end row says.
pub trait Format {
    type Entry: Drop;

    type Cause: Cause;

    const WIDTH: usize;

    ghost WIDTH: { ℕ };

    /// How rows say entries, and why a row says none.
    ghost grammar: { Self → Grammar Self.Entry Self.Cause };

    fn entry(&self, row: &StringRecord) -> Result<Self::Entry, Self::Cause>
        ensures accepted { IfOk result (grammar self.now).Accepts }
        ensures row { IfOk result (λ entry. length (fields_of row.now) ≡ WIDTH →
            fields_of row.now ≡ (grammar self.now).row_of entry) }
        ensures cause { IfErr result (λ cause. length (fields_of row.now) ≡ WIDTH →
            (grammar self.now).IsNoEntry (fields_of row.now) cause) };

    ghost width: { (format : Self) → ((grammar format).width ≡ WIDTH) × (2 ≤ WIDTH) };

    ghost causes: { (format : Self) → ((grammar format).fields ≡ Self.Cause.FIELDS) × ((grammar format).end ≡ Self.Cause.END)
        × ((grammar format).long ≡ Self.Cause.LONG) };
}

/// The field of a row at this place; an empty one where the row has none.
pub fn field(row: &StringRecord, place: usize) -> &str
    ensures { result.now ≡ field_of (fields_of row.now) place }
{
    row.get(place).unwrap_or("")
}

/// Whether an end row counts this many entries, and says nothing else.
fn counts(row: &StringRecord, entries: usize) -> bool
    ensures { (width : ℕ) → 2 ≤ width → length (fields_of row.now) ≡ width → field_of (fields_of row.now) 0 ≡ codes "end"
        → IsTrue result ↔ (fields_of row.now ≡ end_row width entries) }
{
    if !is_number(field(row, 1), entries as u64) {
        return false;
    }
    for place in 2..row.len() {
        if !field(row, place).is_empty() {
            return false;
        }
    }
    true
}

/// The rows of a text as csv yields them, with no header row, one at a time, and the number of the
/// one that was read last, counted from 1.
#[derive(Drop)]
pub struct Rows<R> {
    reader: Reader<R>,
    row: StringRecord,
    number: u64,
}

impl<R: Read + Drop> Rows<R> {
    /// The rows of a reader, with none read yet.
    pub fn new(alloc: Global, from: R) -> Rows<R>
        ensures none { (bytes : List ℕ) → R.remaining from ≡ Some bytes →
            HasRead R.remaining bytes [] result }
        ensures number { result.number ≡ 0 }
    {
        Rows {
            reader: ReaderBuilder::new()
                .has_headers(false)
                .flexible(true)
                .from_reader(alloc, from),
            row: StringRecord::new(alloc),
            number: 0,
        }
    }

    /// Advances to the next row, which has `width` fields, or past the last row,
    /// when it answers false. A row of another number of fields, or that is no text, is refused as
    /// `FIELDS`.
    pub fn advance<C: Cause>(&mut self, width: usize) -> Result<bool, TextFault<C>>
        ensures number { self.new.number ≡ min (self.old.number + 1) (2 ^ 64 - 1) }
        ensures row { (bytes : List ℕ) (so_far : List (List (List ℕ))) → HasRead R.remaining bytes so_far self.old
            → IfOk result (λ found. MatchBool found (IsRow width (last_row self.new)
            × HasRead R.remaining bytes (so_far ++ last_row self.new ∷ []) self.new) (AreRows bytes so_far)) }
        ensures fault { (bytes : List ℕ) (so_far : List (List (List ℕ))) → HasRead R.remaining bytes so_far self.old
            → IfErr result (IfBad (λ row cause. (row ≡ self.new.number) × (cause ≡ C.FIELDS) × (fields : List (List ℕ))
            × BeginWithRows bytes (so_far ++ fields ∷ []) × ¬ (IsRow width fields))) }
    {
        self.number = self.number.saturating_add(1);
        match self.reader.read_record(&mut self.row) {
            Ok(true) if self.row.len() == width => Ok(true),
            Ok(true) => Err(self.fault(C::FIELDS)),
            Ok(false) => Ok(false),
            Err(error) => Err(match error.kind() {
                ErrorKind::Io(_) => TextFault::Read,
                ErrorKind::OutOfMemory => TextFault::NoMemory,
                _ => self.fault(C::FIELDS),
            }),
        }
    }

    /// The row that was read last.
    pub fn row(&self) -> &StringRecord
        ensures { fields_of result.now ≡ last_row self.now }
    {
        &self.row
    }

    /// What is said of that row.
    pub fn fault<C>(&self, cause: C) -> TextFault<C>
        ensures { result ≡ TextFault.Bad self.now.number cause }
    {
        TextFault::Bad {
            row: self.number,
            cause,
        }
    }

    /// Reads the rest of the text: its entries, and the end row, which is the last.
    pub fn entries<F: Format>(
        &mut self,
        alloc: Global,
        format: &F,
    ) -> Result<Vec<F::Entry>, TextFault<F::Cause>>
        ensures few { IfOk result (λ entries. vec_len entries ≤ 65536) }
        ensures accepted { IfOk result (λ entries. All (F.grammar format.now).Accepts entries.items) }
        ensures entries { (bytes : List ℕ) (head : List (List (List ℕ))) → HasRead R.remaining bytes head self.old
            → IfOk result (λ entries. SayEntries (F.grammar format.now) bytes head entries.items) }
        ensures fault { (bytes : List ℕ) (head : List (List (List ℕ))) → HasRead R.remaining bytes head self.old
            → self.old.number ≡ length head → length head < 2 ^ 32
            → IfErr result (IfBad (IsFirstFault (F.grammar format.now) bytes head)) }
    {
        let mut entries = Vec::new(alloc);
        while self.advance(F::WIDTH)? {
            if field(&self.row, 0) == "end" {
                self.end(format, entries.len())?;
                return Ok(entries);
            }
            let entry = self.entry(format)?;
            if entries.len() == MOST_ENTRIES {
                return Err(self.fault(F::Cause::LONG));
            }
            entries.push(entry).map_err(|_| TextFault::NoMemory)?;
        }
        Err(self.fault(F::Cause::END))
    }

    fn entry<F: Format>(&self, format: &F) -> Result<F::Entry, TextFault<F::Cause>>
        ensures accepted { IfOk result (F.grammar format.now).Accepts }
        ensures row { IfOk result (λ entry. length (last_row self.now) ≡ F.WIDTH →
            last_row self.now ≡ (F.grammar format.now).row_of entry) }
        ensures fault { length (last_row self.now) ≡ F.WIDTH
            → IfErr result (IfBad (λ row cause. (row ≡ self.now.number) ×
            (F.grammar format.now).IsNoEntry (last_row self.now) cause)) }
    {
        match format.entry(&self.row) {
            Ok(entry) => Ok(entry),
            Err(cause) => Err(self.fault(cause)),
        }
    }

    /// Tests the end row, and that no row follows. Another fault of that row goes first.
    fn end<F: Format>(&mut self, format: &F, entries: usize) -> Result<(), TextFault<F::Cause>>
        ensures ok { (bytes : List ℕ) (before : List (List (List ℕ)))
            → IsAtRow R.remaining bytes before (F.grammar format.now).width self.old
            → IsEndRow (F.grammar format.now) (last_row self.old)
            → OnOk result ((last_row self.old ≡ end_row (F.grammar format.now).width entries)
            × AreRows bytes (before ++ last_row self.old ∷ [])) }
        ensures fault { (bytes : List ℕ) (before : List (List (List ℕ)))
            → IsAtRow R.remaining bytes before (F.grammar format.now).width self.old
            → IsEndRow (F.grammar format.now) (last_row self.old) → self.old.number < 2 ^ 64 - 1
            → IfErr result (IfBad (IsEndFault (F.grammar format.now) bytes before (last_row self.old) entries self.old.number)) }
    {
        if !counts(&self.row, entries) {
            return Err(self.fault(F::Cause::END));
        }
        if !self.advance(F::WIDTH)? {
            return Ok(());
        }
        if field(&self.row, 0) != "end" {
            self.entry(format)?;
        }
        Err(self.fault(F::Cause::END))
    }
}

/// What is reported of a text, by the count of its reader's failures before and after: `Read`
/// exactly if it rose. If it can't rise, `Read` is reported for a failed read too.
pub fn by_failure_count<T: Drop, C: Drop>(
    read: Result<T, TextFault<C>>,
    before: u64,
    after: u64,
) -> Result<T, TextFault<C>>
    ensures failed { before ≢ after → IsErrOf result TextFault.Read }
    ensures read { IsErrOf result TextFault.Read → before < 2 ^ 64 - 1 → before ≢ after }
    ensures ok { OnOk result (before ≡ after × result ≡ read) }
    ensures bad { IfErr result (IfBad (λ row cause. read ≡ Err (TextFault.Bad row cause))) }
    ensures kept { before ≡ after → (read ≡ Err TextFault.Read → before ≡ 2 ^ 64 - 1) →
        result ≡ read }
{
    match read {
        _ if before != after => Err(TextFault::Read),
        Err(TextFault::Read) if before < u64::MAX => Err(TextFault::NoMemory),
        read => read,
    }
}
