ghost use Rattle.std.specs.Prelude.{◌≡◌, true, Ok};
ghost use Rattle.mc_column.specs.Cells.{ColumnValue, HasSizes};
ghost use Rattle.mc_column.specs.Body.{body_read, column_body, put_body};
ghost use Rattle.mc_column.specs.Sent.{IsColumnMask, SpellsColumn, column_bytes, column_mask};

/// The body that is written for a column's mask spells it cell by cell, is read back, and makes any
/// column that one again. The mask names the sections that are not all air.
pub fn bodies_read_back()
    ensures names { (column : ColumnValue) → HasSizes column →
        IsColumnMask column (column_mask column) }
    ensures spelled { (column : ColumnValue) → HasSizes column →
        SpellsColumn column (column_mask column) (column_bytes column) }
    ensures read { (column : ColumnValue) → HasSizes column →
        body_read (column_mask column) true true (column_bytes column) ≡
        Ok (column_body column (column_mask column)) }
    ensures again { (column old : ColumnValue) → HasSizes column →
        put_body old (column_body column (column_mask column)) ≡ column }
{}
