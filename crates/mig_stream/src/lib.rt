//! The pieces of a stream of sections: a text is appended, or a piece is read whole and then checked. A number
//! that was appended is read back.
//! It stands on `ram_block` and `medium`.
#![tactic(auto)]

mod field_fault;
mod field_reader;
mod get;
mod put;
mod text_fault;

pub use field_fault::FieldFault;
pub use field_reader::FieldReader;
pub use get::{be32_at, be64_at, get_be32, get_be64};
pub use put::{END, EOF, FOOTER, FULL, START, put_be32, put_be64, put_footer, put_part, put_start};
pub use text_fault::TextFault;

#[cfg(test)]
mod tests;
