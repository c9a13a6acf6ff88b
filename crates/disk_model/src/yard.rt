//! Sealed files, the builds that make them, and the yard that holds them by number.

ghost use Rattle.std.specs.Prelude.{◌≡◌, ◌≤◌, ℕ, List, [], length, take, Option, Some, None, Result, IfOk, OnOk};
ghost use Rattle.std.specs.Prelude.{OnErr, MatchResult, IsNone, ◌↔◌, IfSome};
ghost use Rattle.disk_model.specs.Causes.{HasCause};
ghost use Rattle.disk_model.specs.Streams.{Adds};
ghost use Rattle.disk_model.specs.Changes.{OnlyAt, Becomes};
ghost use Rattle.disk_model.specs.Files.{Slot, BeginsBuild, Empties, MayLose, Admits};

use crate::failed::Failed;

/// A file that no longer changes. It can be read as long as the value lives, also after its number is removed.
pub trait SealedFile: Send + Sync + Drop {
    /// Its number in the yard.
    ghost number: { Self → ℕ };

    /// The mark of the build that sealed it.
    ghost mark: { Self → ℕ };

    /// How many bytes it has.
    ghost size: { Self → ℕ };

    /// Its bytes, where they are told.
    ghost bytes: { Self → Option (List ℕ) };

    /// Its number in the yard.
    fn number(&self) -> u64
        ensures { result ≡ number self.now };

    /// How many bytes it has.
    fn len(&self) -> u64
        ensures { result ≡ size self.now };

    /// Its size is that of its bytes.
    ghost fits: { (file : Self) → IfSome (bytes file) (λ content. size file ≡ length content) };
}

/// A file that is being made. Until it is sealed, a crash may leave anything of it.
pub trait Build: Send + Drop {
    type File: SealedFile;

    /// Its number in the yard.
    ghost number: { Self → ℕ };

    /// The mark that the yard gave it.
    ghost mark: { Self → ℕ };

    /// What was appended, where it is told.
    ghost given: { Self → Option (List ℕ) };

    /// How often the build has failed.
    ghost faults: { Self → ℕ };

    /// Appends the piece. A failed append has added a beginning of it.
    fn append(&mut self, bytes: &[u8]) -> Result<(), Failed>
        ensures given { Adds result (given self.old) (given self.new) bytes.now }
        ensures same { (number self.new ≡ number self.old) × (mark self.new ≡ mark self.old) }
        ensures cause { HasCause (faults self.old) (faults self.new) result };

    /// Seals what was appended. The file counts as held by the yard once it is admitted there.
    fn seal(&mut self) -> Result<Self::File, Failed>
        ensures bytes { IfOk result (λ file. Self.File.bytes file ≡ given self.old) }
        ensures name { IfOk result
            (λ file. (Self.File.number file ≡ number self.old) × (Self.File.mark file ≡ mark self.old)) }
        ensures same { (number self.new ≡ number self.old) × (mark self.new ≡ mark self.old)
            × (given self.new ≡ given self.old) }
        ensures cause { HasCause (faults self.old) (faults self.new) result };

    /// How often the build has failed. The count never falls, and stays at 2^64-1.
    fn faults(&self) -> u64
        ensures { result ≡ faults self.now };
}

/// Sealed files by number. A sealed file keeps its bytes over any crash until it is removed.
pub trait Yard: Send + Drop {
    type File: SealedFile;

    type Build: Build<File = Self::File>;

    /// What each number has, where it is told.
    ghost holds: { Self → Option (ℕ → Slot) };

    /// How often the yard has failed.
    ghost faults: { Self → ℕ };

    /// Begins a build, which replaces what the number has and gives it a mark.
    /// Where it fails, the number has what it had, or nothing.
    fn fresh(&mut self, number: u64) -> Result<Self::Build, Failed>
        ensures begun { IfOk result (λ build.
            Becomes (OnlyAt number (BeginsBuild (Self.Build.mark build))) (holds self.old) (holds self.new)) }
        ensures name { IfOk result (λ build. Self.Build.number build ≡ number) }
        ensures empty { IfOk result (λ build. IfSome (holds self.old) (λ _. Self.Build.given build ≡ Some [])) }
        ensures broken { OnErr result (Becomes (OnlyAt number MayLose) (holds self.old) (holds self.new)) }
        ensures cause { HasCause (faults self.old) (faults self.new) result };

    /// The sealed file of a number. None exactly where it holds none.
    fn open(&mut self, number: u64) -> Result<Option<Self::File>, Failed>
        ensures found { IfOk result (λ found. IfSome found (λ file. Self.File.number file ≡ number)) }
        ensures none { IfOk result (λ found. IfSome (holds self.old)
            (λ slots. IsNone found ↔ ((slots number).sealed ≡ None))) }
        ensures bytes { IfOk result (λ found. IfSome found (λ file. IfSome (holds self.old)
            (λ slots. Self.File.bytes file ≡ (slots number).sealed))) }
        ensures same { holds self.new ≡ holds self.old }
        ensures cause { HasCause (faults self.old) (faults self.new) result };

    /// Takes the sealed file and the mark of a number away. Removing nothing succeeds.
    /// Where it fails, the number has what it had, or nothing.
    fn remove(&mut self, number: u64) -> Result<(), Failed>
        ensures removed { OnOk result (Becomes (OnlyAt number Empties) (holds self.old) (holds self.new)) }
        ensures broken { OnErr result (Becomes (OnlyAt number MayLose) (holds self.old) (holds self.new)) }
        ensures cause { HasCause (faults self.old) (faults self.new) result };

    /// Puts a sealed file in at its number. It takes no memory and can't fail.
    fn admit(&mut self, file: &Self::File)
        requires { IfSome (holds self.old)
            (λ slots. (slots (Self.File.number file.now)).mark ≡ Some (Self.File.mark file.now)) }
        ensures held { Becomes (OnlyAt (Self.File.number file.now) (Admits (Self.File.bytes file.now)))
            (holds self.old) (holds self.new) }
        ensures count { faults self.new ≡ faults self.old };

    /// How often the yard has failed. The count never falls, and stays at 2^64-1.
    fn faults(&self) -> u64
        ensures { result ≡ faults self.now };
}
