//! Tables of fields that a struct holds under the same names.
//!
//! A message lists its fields once, in a macro of its own that passes the list to one of these: for
//! each field, its place in the table, counted from 0, its name, and its number of bits.

/// The table: for each field, its name and its number of bits.
#[macro_export]
macro_rules! field_rows {
    ([] $($place:literal $name:ident $width:literal),*) => {
        [$((stringify!($name), $width)),*]
    };
}

/// The values of a struct's fields, in the table's order.
#[macro_export]
macro_rules! values_of_fields {
    ([$fields:expr] $($place:literal $name:ident $width:literal),*) => {
        [$(u64::from($fields.$name)),*]
    };
}

/// Makes the struct whose fields have these values; the other fields take variables of their names.
#[macro_export]
macro_rules! fields_of_values {
    ([$type:ident, $values:expr, $($other:ident),*]
        $($place:literal $name:ident $width:literal),*) => {
        $type {
            $($name: $values.get($place) as _,)*
            $($other),*
        }
    };
}
