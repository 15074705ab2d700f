//! Where the fields of a record and their numbers stand, in bytes; specs/Layout.antt has the same
//! in the definitions.

/// Bytes of a tag.
pub const TAG_LENGTH: usize = 1;

/// Bytes of a number.
pub const NUMBER_LENGTH: usize = 2;

/// Bytes of a field's head: its tag, and the length of its body.
pub const HEAD_LENGTH: usize = TAG_LENGTH + NUMBER_LENGTH;

/// Offset of field 01.
pub const CYCLE_FIELD_AT: usize = 0;

/// Offset of the cycle.
pub const CYCLE_AT: usize = CYCLE_FIELD_AT + HEAD_LENGTH;

/// Offset of field 02.
pub const SIZE_FIELD_AT: usize = CYCLE_AT + NUMBER_LENGTH;

/// Offset of the number of rows.
pub const ROWS_AT: usize = SIZE_FIELD_AT + HEAD_LENGTH;

/// Offset of the number of columns.
pub const COLUMNS_AT: usize = ROWS_AT + NUMBER_LENGTH;

/// Offset of field 03.
pub const MASK_FIELD_AT: usize = COLUMNS_AT + NUMBER_LENGTH;

/// Offset of the length of field 03.
pub const MASK_LENGTH_AT: usize = MASK_FIELD_AT + TAG_LENGTH;

/// Offset of the mask's rows.
pub const MASK_ROWS_AT: usize = MASK_FIELD_AT + HEAD_LENGTH;

/// Offset of the mask's columns.
pub const MASK_COLUMNS_AT: usize = MASK_ROWS_AT + NUMBER_LENGTH;

/// Offset of the first field 04, behind a field 03 that is not empty.
pub const ROW_FIELDS_AT: usize = MASK_COLUMNS_AT + NUMBER_LENGTH;
