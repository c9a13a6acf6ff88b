ghost use Rattle.client_lines.specs.Readings.{ReadsCommand};
ghost use Rattle.transcript.specs.Forms.{HasForm};
ghost use Rattle.transcript.specs.Forms as form;
ghost use Rattle.transcript.specs.declared.command.When.TheVariants.{Front};

use crate::faults::{bad_json, check_uri};
use crate::refusal::LineRefusal;
use cts_text::QueryTextBad;
use doc_model::Text;
use std::alloc::Global;
use transcript::{BadKind, Command, When};

/// Where the URI begins behind `get`.
const GET_URI: u64 = 4;

/// What a line asks that gets a document from the front.
pub(crate) fn read_get(alloc: Global, line: &str, uri: &str) -> Result<Command, LineRefusal>
    requires { HasForm line.now (form.get Front uri.now) }
    ensures { ReadsCommand line.now result }
{
    check_uri(uri, GET_URI)?;
    let uri = Text::from_str(alloc, uri)?;
    Ok(Command::Get {
        uri,
        when: When::Front,
    })
}

/// What a line asks that searches the front by the JSON text of a query.
pub(crate) fn read_search(alloc: Global, line: &str, json: &[u8]) -> Result<Command, LineRefusal>
    requires { HasForm line.now (form.search Front json.now) }
    ensures { ReadsCommand line.now result }
{
    match cts_text::read(alloc, json) {
        Ok(query) => Ok(Command::Search {
            query,
            when: When::Front,
        }),
        Err(QueryTextBad::Json(why)) => Err(bad_json(line, json, why)),
        Err(QueryTextBad::Shape { node }) => Err(LineRefusal::Bad {
            kind: BadKind::Query,
            place: node,
        }),
        Err(QueryTextBad::Memory) => Err(LineRefusal::Memory),
    }
}
