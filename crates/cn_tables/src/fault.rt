ghost use Rattle.std.specs.Prelude.{◌≡◌};
ghost use Rattle.cn_tables.specs.KindNames.{row_kind_name};

/// What is wrong with a table, in the order in which a row is looked at.
#[derive(Clone, Copy, PartialEq, Eq, Debug)]
pub enum RowKind {
    /// Row 0: the file is too long.
    Long,
    /// Row 0: it is missing or not the header, or the file begins with a byte order mark.
    Header,
    /// The row is one more than the table may have.
    Many,
    /// The row has another number of fields than the header.
    Fields,
    /// A field is not spelled as a number.
    Number,
    /// A number is out of its range.
    Range,
    /// A name that nothing has.
    Name,
    /// The fill is not spelled in hexadecimal digits.
    Fill,
    /// The row does not come after the one before it.
    Order,
    /// With this row the ticks are too many.
    Total,
    /// The table has too few rows.
    Few,
}

impl RowKind {
    /// The kind's name.
    pub fn text(self) -> &'static str
        ensures { result.now ≡ row_kind_name self }
    {
        match self {
            RowKind::Long => "Long",
            RowKind::Header => "Header",
            RowKind::Many => "Many",
            RowKind::Fields => "Fields",
            RowKind::Number => "Number",
            RowKind::Range => "Range",
            RowKind::Name => "Name",
            RowKind::Fill => "Fill",
            RowKind::Order => "Order",
            RowKind::Total => "Total",
            RowKind::Few => "Few",
        }
    }
}

/// Why a text is no table.
#[derive(Clone, Copy, PartialEq, Eq, Debug)]
pub enum TableFault {
    /// The first row with a fault, the header being row 0, and what is wrong with it.
    Bad(u32, RowKind),
    NoMemory,
}
