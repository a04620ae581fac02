//! Columns: many values printed one after another into one array of bytes, with an array of offsets that
//! say where each text ends, as Apache Arrow lays out a column of strings.

pub mod block;
pub mod offset;
pub mod printing;
pub mod texts;
pub mod validity;
pub mod value;
pub mod values;

pub use block::Block;
pub use offset::OffsetType;
pub use printing::{Printer, print_texts, texts_len};
pub use texts::Texts;
pub use validity::Validity;
pub use value::{Value, row_count, set_value, value_at};
pub use values::{Rows, Values};
