//! The fields of a record.
ghost use Rattle.std.specs.Prelude.{◌≡◌, List, [], slice_get};
ghost use Rattle.std.specs.Option.{option_map};
ghost use Rattle.key_extract.specs.declared.cell.Cell.{Cell};
ghost use Rattle.container_model.specs.declared.handle.Spec.{Spec};
ghost use Rattle.field_keys.specs.Fields.{cell_of};

/// A value of a record in one column. Absence comes before whole numbers, these before texts, and texts before truth values.
#[derive(Clone, Copy, Debug)]
pub enum Field<'a> {
    /// No value.
    Absent,
    /// A whole number, of which there is a `From` of each narrower type.
    Number(i128),
    /// A text, which compares by its bytes.
    Text(&'a str),
    /// A truth value: false comes before true.
    Truth(bool),
}

/// A record as a row of fields, one for each column.
pub trait Fields {
    /// The fields, in column order.
    ghost row_of: { Self → List Cell };

    /// What the indices of a container are, by number, where the records say it.
    ghost indices: { List Spec } = { [] };

    /// The field of a column, from 0, if there is such a column.
    fn field(&self, column: usize) -> Option<Field<'_>>
        ensures { option_map cell_of result ≡ slice_get (row_of self.now) column };
}
