//! What is printed of an input.

/// How a row is written as a line.
#[derive(Clone, Copy)]
pub enum Form {
    /// Tabs between the fields, and escapes in them.
    Tabs,
    /// Commas between the fields, and quotes around those that need them.
    Commas,
}

/// What the values of JSON objects are.
#[derive(Clone, Copy)]
pub enum Values {
    /// Strings.
    Texts,
    /// Numbers, where the text of a field is one, and else strings.
    Numbers,
}

/// What is printed of an input.
#[derive(Clone, Copy)]
pub enum Output {
    /// A line with the names of the columns, and the rows.
    Table(Form),
    /// The rows only.
    Rows(Form),
    /// The rows as JSON objects.
    Objects(Values),
    /// The lines that have no row, as they are.
    Rejects,
}
