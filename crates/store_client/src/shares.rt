//! Further clients of a store, and their end.
ghost use Rattle.std.specs.Prelude.{◌≡◌, ◌<◌, ◌≤◌};
ghost use mathlib.Core.List.{IsPrefix};
ghost use Rattle.book_lock.specs.Ends.{longer};
ghost use Rattle.store_client.specs.Caller.{has_joined, without_part, without_parts, with_part_of, with_parts_of};

use crate::client::Client;
use disk_trait::LogDisk;
use index_layer::Index;
use sessions::Start;

impl<'s, I: Index, D: LogDisk, O: Start> Client<'s, I, D, O> {
    /// A client for another caller, which has seen the same, with so many of this one's parts. The new client can share
    /// its parts in the same way, and each client keeps at least one. No test at run time counts parts. The prover refuses
    /// a call for no parts, and a call for as many as this client has or more.
    pub fn another_with(&mut self, session: u8, parts: u64) -> Client<'s, I, D, O>
        requires parts { (1 ≤ parts) × (parts < self.old.pass.parts) }
        ensures old { self.new ≡ without_parts parts self.old }
        ensures new { result ≡ with_parts_of parts self.old session }
    {
        let (store, alloc) = (self.store, self.alloc);
        let pass = store.split_parts(&mut self.pass, parts);
        Client {
            store,
            pass,
            alloc,
            session,
            row: 0,
            place: 0,
            change: None,
        }
    }

    /// A client for another caller, which has seen the same. It has one part, so it can't share.
    pub fn another(&mut self, session: u8) -> Client<'s, I, D, O>
        requires parts { 2 ≤ self.old.pass.parts }
        ensures old { self.new ≡ without_part self.old }
        ensures new { result ≡ with_part_of self.old session }
    {
        self.another_with(session, 1)
    }

    /// Joins another client to this one. The other client ends.
    pub fn join(&mut self, other: Client<'s, I, D, O>)
        requires lock { other.pass.lock ≡ self.old.pass.lock }
        ensures joined { self.new ≡ has_joined self.old other.entry.pass }
        ensures begins { IsPrefix self.old.pass.seen self.new.pass.seen × IsPrefix other.entry.pass.seen self.new.pass.seen }
    {
        let store = self.store;
        store.join_pass(&mut self.pass, other.into_pass());
    }

    /// Lets this client know what another one has seen. From then on its calls come after all of that.
    pub fn learn(&mut self, from: &mut Client<'s, I, D, O>)
        requires lock { from.old.pass.lock ≡ self.old.pass.lock }
        ensures same { from.new ≡ from.old }
        ensures told { self.new ≡ record self.old { pass = record self.old.pass { seen = longer self.old.pass.seen from.old.pass.seen } } }
        ensures begins { IsPrefix self.old.pass.seen self.new.pass.seen × IsPrefix from.old.pass.seen self.new.pass.seen }
    {
        let store = self.store;
        store.meet(&mut from.pass, &mut self.pass);
    }
}
