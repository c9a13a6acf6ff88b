//! Formats of bytes that are put together of fields: their laws, proved once, and readers and writers of the fields.
#![tactic(auto)]

mod body;
mod error;
mod laws;
mod leb;
mod parts;
mod reader;
mod writer;

pub use body::decoded_body;
pub use error::{BytesBad, DecodeError, FieldError, place_of};
pub use laws::{lawful_formats_decode_bodies_well, lawful_formats_decode_well};
pub use leb::put_leb;
pub use parts::{closed, decoded, single};
pub use reader::Reader;
pub use writer::{put_bytes, put_count, put_kind, put_long, put_mark, put_text};
