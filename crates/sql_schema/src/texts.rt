//! The forms of statements over all columns of a table, which gives its name and its columns.

/// The statements that write rows of a table: one inserts a row, where none has its key; one puts a row in the place of the one with
/// its key, or as a new one; and one renews the row with its key, in the columns that calls move.
pub type Writing = (&'static str, &'static str, &'static str);

/// Makes the table.
macro_rules! create {
    ($table:literal, ($key:literal, $kind:literal, $place:literal) $(, ($column:literal, $kinds:literal, $places:literal))*) => {
        concat!("CREATE TABLE ", $table, " (", $key, " ", $kind, $(", ", $column, " ", $kinds,)* ") STRICT")
    };
}

/// Inserts a row.
macro_rules! insert {
    ($table:literal, ($key:literal, $kind:literal, $place:literal) $(, ($column:literal, $kinds:literal, $places:literal))*) => {
        concat!("INSERT INTO ", $table, " (", $key, $(", ", $column,)* ") VALUES (", $place, $(", ", $places,)* ")")
    };
}

/// Puts a row in the place of the one with its key, or as a new one.
macro_rules! upsert {
    ($table:literal, ($key:literal, $kind:literal, $place:literal), ($first:literal, $of_first:literal, $at_first:literal)
        $(, ($column:literal, $kinds:literal, $places:literal))*) => {
        concat!(
            "INSERT INTO ", $table, " (", $key, ", ", $first, $(", ", $column,)* ") VALUES (", $place, ", ", $at_first, $(", ", $places,)*
            ") ON CONFLICT (", $key, ") DO UPDATE SET ", $first, " = excluded.", $first, $(", ", $column, " = excluded.", $column,)* ""
        )
    };
}

/// Inserts a row, puts it, or renews it by this text.
macro_rules! writing {
    ($table:literal, $($column:tt),*; $update:expr) => {
        (insert!($table, $($column),*), upsert!($table, $($column),*), $update)
    };
}

/// Shows the rows that a test leaves, in the order of their keys; what stands behind the order, if anything, may limit them.
macro_rules! select {
    ($table:literal, ($key:literal, $kind:literal, $place:literal) $(, ($column:literal, $kinds:literal, $places:literal))*;
        $test:literal $(; $limit:literal)?) => {
        concat!("SELECT ", $key, $(", ", $column,)* " FROM ", $table, $test, " ORDER BY ", $key $(, $limit)?)
    };
}

pub(crate) use create;
pub(crate) use insert;
pub(crate) use select;
pub(crate) use upsert;
pub(crate) use writing;
