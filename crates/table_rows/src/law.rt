//! What the field of a cell says.

ghost use Rattle.std.specs.Prelude.{◌≡◌, true};
ghost use Rattle.command_lines.specs.Fits.{CellFits};
ghost use Rattle.key_extract.specs.declared.cell.Cell.{Cell};
ghost use Rattle.table_rows.specs.Csv.{IsCellIn, field_of};
ghost use Rattle.table_schema.specs.declared.column.Column.{Column};
ghost use Rattle.table_terms.specs.Values.{can_hold};

/// A law of every cell that a column can hold: its field is read as that cell.
pub fn csv_cells()
    ensures { (column : Column) (cell : Cell) → can_hold column cell ≡ true → CellFits cell → IsCellIn column (field_of column cell) cell }
{}
