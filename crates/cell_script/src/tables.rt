//! The fields of statements, used by both the reader and the writer.

/// The notation and the range of a field's value.
#[derive(Clone, Copy)]
pub enum FieldForm {
    /// A number without a sign, at most this.
    UpTo(u64),
    /// A number with a sign, from -32,768 to 32,767.
    Signed,
    /// A state of the long code, in eleven hex digits.
    State,
    /// An electronic serial number, in eight hex digits.
    SerialNumber,
}

/// A field of a statement: the key with which it begins, and the form of its value.
#[derive(Clone, Copy)]
pub struct StatementField {
    /// The text before the value: ` name=`, preceded by the statement's word for the first field.
    pub key: &'static [u8],
    /// The form of the value.
    pub form: FieldForm,
}

/// Fields of a statement, each with its key and the form of its value.
macro_rules! statement_fields {
    ($(($key:expr, $form:expr)),+ $(,)?) => {
        [$(StatementField { key: $key, form: $form }),+]
    };
}

/// The fields of a `cell` line, in their order.
pub const CELL_FIELDS: [StatementField; 4] = statement_fields![
    (b"cell pn=", FieldForm::UpTo(511)),
    (b" time=", FieldForm::UpTo(34_359_738_368)),
    (b" lc=", FieldForm::State),
    (b" checks=", FieldForm::UpTo(3)),
];

/// The fields of a `link` line, in their order.
pub const LINK_FIELDS: [StatementField; 4] = statement_fields![
    (b"link re=", FieldForm::Signed),
    (b" im=", FieldForm::Signed),
    (b" start=", FieldForm::UpTo(4_294_967_295)),
    (b" samples=", FieldForm::UpTo(18_446_744_073_709_551_615)),
];

/// The fields of a `pilot` line.
pub const PILOT_FIELDS: [StatementField; 1] = [StatementField {
    key: b"pilot gain=",
    form: FieldForm::UpTo(65_535),
}];

/// The fields of a `paging` line, in their order.
pub const PAGING_FIELDS: [StatementField; 2] = statement_fields![
    (b"paging channel=", FieldForm::UpTo(7)),
    (b" gain=", FieldForm::UpTo(65_535)),
];

/// The fields of a `traffic` line, in their order.
pub const TRAFFIC_FIELDS: [StatementField; 4] = statement_fields![
    (b"traffic row=", FieldForm::UpTo(63)),
    (b" esn=", FieldForm::SerialNumber),
    (b" offset=", FieldForm::UpTo(15)),
    (b" gain=", FieldForm::UpTo(65_535)),
];

/// The gain field, with which a `sync` line begins.
pub const SYNC_GAIN: StatementField = StatementField {
    key: b"sync gain=",
    form: FieldForm::UpTo(65_535),
};
