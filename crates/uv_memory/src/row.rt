//! The rows of records.

/// In which row a step lies, by the size of its change.
#[derive(Clone, Copy)]
pub enum Row {
    Smalls,
    Mediums,
    Larges,
}
