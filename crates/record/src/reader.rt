//! What the reader does: its tests, field by field, and the record that has passed them, which
//! stores its readings. Internal but for that record: each `requires` is met by the tests before.
//! SPECIFICATION, "Reader".

mod body;
mod field;
mod head;
mod passed;
mod stores;

pub use body::Head;
pub use head::check_head;
pub use passed::Record;
