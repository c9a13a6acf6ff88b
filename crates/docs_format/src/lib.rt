//! Documents as bytes: one spelling of each, and the place of the first invalid field.
#![tactic(auto)]

mod collections;
mod fault;
mod laws;
mod names;
mod nodes;
mod reader;
mod reading;
mod writing;

pub use byte_formats::{DecodeError, FieldError};
pub use fault::DocBytesBad;
pub use laws::{
    beginnings_end_early, documents_are_read_again, documents_are_spelled_so,
    documents_decode_well, faults_stay, more_is_too_many, nodes_decode_well,
    what_is_read_is_spelled,
};
pub use reader::Reader;
pub use reading::{decode, document};
pub use writing::{encode, put_count, put_document, put_kind, put_long, put_text};
