ghost use Rattle.std.specs.Prelude.{◌≡◌, ◌≢◌, ◌-◌, ◌≤◌, false, length, IfErr, IsTrue, OnOk};
ghost use Rattle.client_lines.specs.Readings.{IsBadJsonFrom};
ghost use Rattle.client_lines.specs.declared.refusal.LineRefusal.TheVariants.{Bad};
ghost use Rattle.doc_model.specs.Uri.{is_uri};
ghost use Rattle.json_text.specs.Faults.{IsRefusedText};
ghost use Rattle.json_text.specs.declared.bad.JsonBad.TheVariants.{Memory};
ghost use Rattle.transcript.specs.declared.reply.BadKind.TheVariants.{Uri};

use crate::refusal::LineRefusal;
use doc_model::is_uri;
use json_text::JsonBad;
use transcript::BadKind;

/// Whether the URI that begins at this place of a line keeps the rule of URIs.
pub(crate) fn check_uri(uri: &str, place: u64) -> Result<(), LineRefusal>
    ensures kept { OnOk result (IsTrue (is_uri uri.now)) }
    ensures refused { IfErr result (λ why. (why ≡ Bad Uri place) × (is_uri uri.now ≡ false)) }
{
    if is_uri(uri) {
        return Ok(());
    }
    Err(LineRefusal::Bad {
        kind: BadKind::Uri,
        place,
    })
}

/// The refusal of a line that ends with a JSON text, by the fault of the text.
pub(crate) fn bad_json(line: &str, json: &[u8], why: JsonBad) -> LineRefusal
    requires ends { length json.now ≤ length line.now }
    requires refused { why ≢ Memory → IsRefusedText json.now why }
    ensures { IsBadJsonFrom (length line.now - length json.now) json.now result }
{
    let from = (line.len() - json.len()) as u64;
    match why {
        JsonBad::Syntax { place } => bad(BadKind::Json, from + place),
        JsonBad::Utf8 { place } => bad(BadKind::Utf8, from + place),
        JsonBad::Depth { place } => bad(BadKind::Depth, from + place),
        JsonBad::Number { place } => bad(BadKind::Number, from + place),
        JsonBad::Memory => LineRefusal::Memory,
    }
}

fn bad(kind: BadKind, place: u64) -> LineRefusal
    ensures { result ≡ Bad kind place }
{
    LineRefusal::Bad { kind, place }
}
