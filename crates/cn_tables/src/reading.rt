ghost use Rattle.std.specs.Prelude.{◌≡◌, ◌∷◌, [], true, false, map, length, IfOk, IfErr, OnOk, OnErr, slice_index_or};
ghost use Rattle.csv.specs.Reading.{default_config, records, strip_bom};
ghost use Rattle.csv.specs.Records.{fields_of};
ghost use Rattle.cn_tables.specs.RowsValue.{IsReading, left_of};
ghost use Rattle.cn_tables.specs.Fault.{IsTableFault};
ghost use Rattle.cn_tables.specs.Table as spec;

use crate::fault::{RowKind, TableFault};
use cn_base::NoMemory;
use csv::{ByteRecord, Reader, ReaderBuilder};
use std::alloc::Global;
use std::marker::Model;

// The next record of a reader, and whether there was one.
fn read_next(reader: &mut Reader<&[u8]>, fields: &mut ByteRecord) -> Result<bool, NoMemory>
    requires { IsReading reader.old }
    ensures going { IfOk result (λ found. found ≡ true → IsReading reader.new) }
    ensures row { IfOk result (λ found. found ≡ true → left_of (λ s. Some s.now) reader.old ≡ fields_of fields.new ∷ left_of (λ s. Some s.now) reader.new) }
    ensures end { IfOk result (λ found. found ≡ false → left_of (λ s. Some s.now) reader.old ≡ []) }
{
    let Ok(found) = reader.read_byte_record(fields) else {
        return Err(NoMemory);
    };
    Ok(found)
}

/// The rows of a text, one after the other.
#[derive(Drop)]
pub struct Rows<'a> {
    reader: Reader<&'a [u8]>,
    fields: ByteRecord,
    over: bool,
}

impl<'a> Model for Rows<'a> {
    ghost use Rattle.std.specs.Prelude.{◌≡◌, Some, [], if◌then◌else◌, false};
    ghost use Rattle.csv.specs.Records.{fields_of};
    ghost use Rattle.cn_tables.specs.RowsValue.{RowsLeft, IsReading, left_of};

    ghost Value = { RowsLeft };

    ghost view = { λ a. record { current = fields_of a.fields; left = if a.over then [] else left_of (λ s. Some s.now) a.reader } };

    ghost invariant = { λ a. a.over ≡ false → IsReading a.reader };
}

impl<'a> Rows<'a> {
    /// The rows of a text, the first one too.
    pub fn over(alloc: Global, text: &'a [u8]) -> Rows<'a>
        ensures { result.left ≡ records default_config (strip_bom text.now) }
    {
        let reader = ReaderBuilder::new()
            .has_headers(false)
            .flexible(true)
            .from_reader(alloc, text);
        Rows {
            reader,
            fields: ByteRecord::new(alloc),
            over: false,
        }
    }

    /// Goes to the next row, and says whether there was one. After an error there is none.
    pub fn next_row(&mut self) -> Result<bool, NoMemory>
        ensures row { IfOk result (λ found. found ≡ true → self.old.left ≡ self.new.current ∷ self.new.left) }
        ensures end { IfOk result (λ found. found ≡ false → self.old.left ≡ []) }
        ensures ended { IfOk result (λ found. found ≡ false → self.new.left ≡ []) }
        ensures failed { OnErr result (self.new.left ≡ []) }
    {
        if self.over {
            return Ok(false);
        }
        match read_next(&mut self.reader, &mut self.fields) {
            Ok(true) => Ok(true),
            Ok(false) => {
                self.over = true;
                Ok(false)
            }
            Err(fault) => {
                self.over = true;
                Err(fault)
            }
        }
    }

    /// How many fields the row has that was read last.
    pub fn count(&self) -> usize
        ensures { result ≡ length self.now.current }
    {
        self.fields.len()
    }

    /// A field of the row that was read last, or no bytes where it has no such field.
    pub fn field(&self, place: usize) -> &[u8]
        ensures { result.now ≡ slice_index_or self.now.current place [] }
    {
        match self.fields.get(place) {
            Some(field) => field,
            None => b"",
        }
    }

    /// Whether the row that was read last has these fields.
    fn is(&self, header: &[&[u8]]) -> bool
        ensures { result ≡ spec.same_fields self.now.current (map (λ f. f.now) header.now) }
    {
        if self.count() != header.len() {
            return false;
        }
        for (place, name) in header.iter().enumerate() {
            if self.field(place) != *name {
                return false;
            }
        }
        true
    }
}

// Whether a byte order mark stands at the front.
fn begins_with_mark(bytes: &[u8]) -> bool
    ensures { result ≡ spec.begins_with_mark bytes.now }
{
    match bytes {
        [a, b, c, ..] => *a == 0xEF && *b == 0xBB && *c == 0xBF,
        _ => false,
    }
}

// Goes past the header, which must come first.
fn past_header(rows: &mut Rows<'_>, header: &[&[u8]]) -> Result<(), TableFault>
    ensures rows { OnOk result (spec.rows_under (map (λ f. f.now) header.now) rows.old.left ≡ Ok rows.new.left) }
    ensures fault { IfErr result (IsTableFault (spec.rows_under (map (λ f. f.now) header.now) rows.old.left)) }
{
    let Ok(found) = rows.next_row() else {
        return Err(TableFault::NoMemory);
    };
    if !found {
        return Err(TableFault::Bad(0, RowKind::Header));
    }
    if !rows.is(header) {
        return Err(TableFault::Bad(0, RowKind::Header));
    }
    Ok(())
}

/// The greatest length of a file.
pub const MOST_BYTES: usize = 16_777_216;

/// The rows of a table's text, which begin after its header.
pub fn open_table<'a>(
    alloc: Global,
    bytes: &'a [u8],
    header: &[&[u8]],
) -> Result<Rows<'a>, TableFault>
    ensures rows { IfOk result (λ rows. spec.table_rows (map (λ f. f.now) header.now) bytes.now ≡ Ok rows.left) }
    ensures fault { IfErr result (IsTableFault (spec.table_rows (map (λ f. f.now) header.now) bytes.now)) }
{
    if bytes.len() > MOST_BYTES {
        return Err(TableFault::Bad(0, RowKind::Long));
    }
    if begins_with_mark(bytes) {
        return Err(TableFault::Bad(0, RowKind::Header));
    }
    let mut rows = Rows::over(alloc, bytes);
    match past_header(&mut rows, header) {
        Ok(()) => Ok(rows),
        Err(fault) => Err(fault),
    }
}
