//! Lines that are printed whole.

ghost use Rattle.std.specs.Prelude.{[], ℕ, ◌≡◌, ◌++◌, ◌+◌, ◌≤◌, length};
ghost use Rattle.std.specs.Fmt.{decimal};
ghost use Rattle.db_top.specs.Checking.{summary_of};
ghost use Rattle.db_top.specs.Statuses.{text_of};
ghost use Rattle.db_top.specs.declared.status.Status.TheVariants.{Damaged};
ghost use Rattle.doc_engine.specs.EngineState.{SeesSince};
ghost use Rattle.doc_meaning.specs.History.{History};
ghost use Rattle.transcript.specs.Texts.{file_text};

use arrayvec::ArrayString;
use disk_model::FileName;
use doc_engine::Snapshot;
use itoa::Buffer;

// A line has at most three numbers, of up to 20 digits.
pub(crate) type Line = ArrayString<192>;

// The line of a snapshot.
pub(crate) fn summary(seen: Snapshot<'_>) -> Line
    ensures { (merge : ℕ) (h : History) → SeesSince seen.entry merge h → result.bytes ≡ summary_of merge h }
{
    let mut line = Line::new();
    put(&mut line, "ok front ", seen.stamp());
    put(&mut line, " merge ", seen.merge_stamp());
    put(&mut line, " parts 0 live ", seen.live());
    line.push_str("\n");
    line
}

// Where a file is damaged.
#[tactic(auto, using(crate::proofs::LineTexts::damaged))]
pub(crate) fn damage(file: FileName, place: u64) -> Line
    ensures { result.bytes ≡ text_of [] (Damaged file place) }
{
    let (kind, number) = kind_and_number(file);
    let mut line = Line::new();
    line.push_str("damaged ");
    put(&mut line, kind, number);
    put(&mut line, " ", place);
    line.push_str("\n");
    line
}

// How a file's name begins, and the number that it ends with.
fn kind_and_number(file: FileName) -> (&'static str, u64)
    ensures name { file_text file ≡ result.0.now ++ decimal result.1 }
    ensures short { length result.0.now ≤ 8 }
{
    match file {
        FileName::Log(number) if number < 2 => ("journal-", u64::from(number)),
        FileName::Log(number) => ("root-", u64::from(number - 2)),
        FileName::Sealed(number) => ("file-", number),
    }
}

// Appends a text and a number to a line.
fn put(line: &mut Line, text: &str, number: u64)
    requires { length line.old.bytes + length text.now + 40 ≤ 192 }
    ensures written { line.new.bytes ≡ line.old.bytes ++ (text.now ++ decimal number) }
    ensures short { length line.new.bytes ≤ length line.old.bytes + length text.now + 40 }
{
    let mut buffer = Buffer::new();
    line.push_str(text);
    line.push_str(buffer.format(number));
}
