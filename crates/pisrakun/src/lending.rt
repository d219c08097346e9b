//! A client of a store for a while.
ghost use Rattle.std.specs.Prelude.{◌≡◌};
ghost use Rattle.store_client.specs.Caller.{Keeps};
ghost use Rattle.pisrakun.specs.Team.{DoneWith};

use crate::object_store::ObjectStore;
use crate::team::PARTS;
use disk_trait::LogDisk;
use index_layer::Index;
use sessions::Start;
use std::sync::Wait;
use store_client::Client;

/// What is to be done with a client of a store. The client may be split into others (`another`, `another_with`), which
/// come and go as they please, in threads too, and are joined again before the errand ends.
pub trait Errand<R: Wait> {
    ghost use Rattle.std.specs.Prelude.{⊤};
    ghost use Rattle.store_client.specs.Caller.{Caller};

    type Answer;

    /// What it makes of the client, and its answer.
    ghost done: { Self → Caller → Caller → Self.Answer → Type 0 } = { λ _ _ _ _. ⊤ };

    fn run<I: Index, D: LogDisk, O: Start>(
        self,
        rt: &R,
        client: &mut Client<'_, I, D, O>,
    ) -> Self::Answer
        requires parts { client.old.pass.parts ≡ 65535 }
        ensures done { done self client.old client.new result }
        ensures client { Keeps client.old client.new };
}

impl<I: Index, D: LogDisk, O: Start> ObjectStore<I, D, O> {
    /// Lends a client that has seen what the store has, in the store's session, with 65,535 parts, and takes it back. It
    /// is for what only clients do: splitting off others, learning from them, and teams of your own.
    pub fn lend<E: Errand<R>, R: Wait>(&mut self, rt: &R, errand: E) -> E::Answer
        ensures store { Keeps self.old self.new }
        ensures done { DoneWith (E.done errand) self.old self.new result }
    {
        let pass = self.store.split_parts(&mut self.pass, PARTS);
        let mut client = Client::new(&self.store, self.alloc, pass, self.session);
        let answer = errand.run(rt, &mut client);
        self.store.join_pass(&mut self.pass, client.into_pass());
        answer
    }
}
