//! The world, which hands out stores, clients and ports, and takes stores and clients back.

ghost use Rattle.std.specs.Prelude.{◌≡◌, ◌≢◌, ◌<◌, ◌++◌, ◌∷◌, [], List, ℕ, length, take, slice_get, MatchResult};
ghost use Rattle.std.specs.Prelude.{MatchOption, IfOk, OnOk, OnErr, IfSome, Option, Some, None, Ok, ◌⊎◌};
ghost use Rattle.disk_model.specs.Causes.{HasCause};
ghost use Rattle.disk_model.specs.Streams.{Adds};
ghost use Rattle.disk_model.specs.Worlds.{Handed, HandsOut, Returns, directory_due, IsBlank};
ghost use Rattle.disk_model.specs.declared.world.Client.{Client};
ghost use Rattle.disk_model.specs.declared.world.Store.{Store};

use crate::disk::Disk;
use crate::failed::Failed;
use crate::port::Port;
use crate::streams::{Sink, Source};
use crate::yard::Yard;

/// What a directory holds: the logs and the sealed files.
#[derive(Drop)]
pub struct Store<D, Y> {
    pub disk: D,
    pub yard: Y,
}

/// What serves one client: where its lines come from, where the replies go, and a port for its searches.
#[derive(Drop)]
pub struct Client<I, W, P> {
    pub source: I,
    pub sink: W,
    pub port: P,
}

/// Hands out stores, clients and ports. Stores, and clients too, are put back in the order in which they were handed
/// out. A put that fails counts as one. Every other call that fails hands out nothing.
pub trait World {
    type Disk: Disk;

    type Yard: Yard;

    type Port: Port<File = <Self::Yard as Yard>::File>;

    type Source: Source;

    type Sink: Sink;

    /// How often the world has failed.
    ghost faults: { Self → ℕ };

    /// The store in a directory, where it is told: none is a directory without files.
    ghost stored: { Self → List ℕ → Option (Option (Store Self.Disk Self.Yard)) };

    /// The stores that were handed out and put back, each as it was then.
    ghost stores: { Self → Handed (Store Self.Disk Self.Yard) };

    /// The directories of the stores that were handed out, in order.
    ghost directories: { Self → List (List ℕ) };

    /// The clients that were handed out and put back, each as it was then.
    ghost clients: { Self → Handed (Client Self.Source Self.Sink Self.Port) };

    /// What was printed, where it is told.
    ghost printed: { Self → Option (List ℕ) };

    /// Hands out the store of a directory. One without files gives a blank store.
    fn take_store(&mut self, dir: &str) -> Result<Store<Self::Disk, Self::Yard>, Failed>
        ensures out { MatchResult result (λ store. HandsOut store (stores self.old) (stores self.new))
            (λ _. stores self.new ≡ stores self.old) }
        ensures directory { MatchResult result
            (λ _. directories self.new ≡ directories self.old ++ dir.now ∷ [])
            (λ _. directories self.new ≡ directories self.old) }
        ensures was_stored { IfOk result (λ store. IfSome (stored self.old dir.now)
            (λ found. IfSome found (λ was_stored. store ≡ was_stored))) }
        ensures blank { IfOk result (λ store. stored self.old dir.now ≡ Some None
            → IsBlank (Self.Disk.seen store.disk) (Self.Disk.may_leave store.disk) (Self.Yard.holds store.yard)) }
        ensures kept { OnErr result (stored self.new ≡ stored self.old) }
        ensures others { (other : List ℕ) → other ≢ dir.now → stored self.new other ≡ stored self.old other }
        ensures clients { clients self.new ≡ clients self.old }
        ensures printed { printed self.new ≡ printed self.old }
        ensures cause { HasCause (faults self.old) (faults self.new) result };

    /// Takes back the first store that wasn't put back yet. From then on it is the store in its directory.
    fn put_store(&mut self, store: Store<Self::Disk, Self::Yard>) -> Result<(), Failed>
        requires { length (stores self.old).back < length (stores self.old).out }
        ensures back { Returns result store (stores self.old) (stores self.new) }
        ensures stored { OnOk result (IfSome (directory_due (stores self.old) (directories self.old))
            (λ dir. IfSome (stored self.new dir) (λ found. found ≡ Some store))) }
        ensures others { (other : List ℕ) → directory_due (stores self.old) (directories self.old) ≢ Some other
            → stored self.new other ≡ stored self.old other }
        ensures directories { directories self.new ≡ directories self.old }
        ensures clients { clients self.new ≡ clients self.old }
        ensures printed { printed self.new ≡ printed self.old }
        ensures cause { HasCause (faults self.old) (faults self.new) result };

    /// Hands out a client, by its name or the one without a name.
    fn client(
        &mut self,
        name: Option<&str>,
    ) -> Result<Client<Self::Source, Self::Sink, Self::Port>, Failed>
        ensures out { MatchResult result (λ client. HandsOut client (clients self.old) (clients self.new))
            (λ _. clients self.new ≡ clients self.old) }
        ensures stores { stores self.new ≡ stores self.old }
        ensures directories { directories self.new ≡ directories self.old }
        ensures stored { stored self.new ≡ stored self.old }
        ensures printed { printed self.new ≡ printed self.old }
        ensures cause { HasCause (faults self.old) (faults self.new) result };

    /// Takes back the first client that wasn't put back yet.
    fn put_client(
        &mut self,
        client: Client<Self::Source, Self::Sink, Self::Port>,
    ) -> Result<(), Failed>
        requires { length (clients self.old).back < length (clients self.old).out }
        ensures back { Returns result client (clients self.old) (clients self.new) }
        ensures stores { stores self.new ≡ stores self.old }
        ensures directories { directories self.new ≡ directories self.old }
        ensures stored { stored self.new ≡ stored self.old }
        ensures printed { printed self.new ≡ printed self.old }
        ensures cause { HasCause (faults self.old) (faults self.new) result };

    /// Hands out a port of its own.
    fn port(&mut self) -> Result<Self::Port, Failed>
        ensures stores { stores self.new ≡ stores self.old }
        ensures directories { directories self.new ≡ directories self.old }
        ensures stored { stored self.new ≡ stored self.old }
        ensures clients { clients self.new ≡ clients self.old }
        ensures printed { printed self.new ≡ printed self.old }
        ensures cause { HasCause (faults self.old) (faults self.new) result };

    /// Prints the bytes. A failed print has added a beginning of them.
    fn print(&mut self, bytes: &[u8]) -> Result<(), Failed>
        ensures printed { Adds result (printed self.old) (printed self.new) bytes.now }
        ensures stores { stores self.new ≡ stores self.old }
        ensures directories { directories self.new ≡ directories self.old }
        ensures stored { stored self.new ≡ stored self.old }
        ensures clients { clients self.new ≡ clients self.old }
        ensures cause { HasCause (faults self.old) (faults self.new) result };

    /// How often the world has failed. The count never falls, and stays at 2^64-1.
    fn faults(&self) -> u64
        ensures { result ≡ faults self.now };
}
