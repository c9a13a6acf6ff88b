//! Documents, operations and queries as plain data, with the rules that each keeps.
#![tactic(auto)]

mod checks;
mod dec;
mod depth;
mod document;
mod entry;
mod indexes;
mod limits;
mod names;
mod node;
mod op;
mod ops;
mod query;
mod refusal;
mod scalar;
mod settings;
mod size;
mod text;
mod texts;
mod uri;

pub use checks::check_query;
pub use dec::Dec;
pub use document::Document;
pub use entry::Entry;
pub use indexes::{Indexes, Kind};
pub use limits::{
    MAX_COLLECTIONS, MAX_DOCUMENT_DEPTH, MAX_INDEXES, MAX_NAME_BYTES, MAX_OPERATIONS,
    MAX_QUERY_DEPTH, MAX_QUERY_ITEMS, MAX_SIZE,
};
pub use node::{Members, Node, Nodes};
pub use op::Op;
pub use ops::Ops;
pub use query::{Case, Compare, Queries, Query};
pub use refusal::{DocRefusal, OpsRefusal, QueryBad};
pub use scalar::{Scalar, Scalars};
pub use settings::Settings;
pub use text::Text;
pub use texts::Texts;
pub use uri::is_uri;
