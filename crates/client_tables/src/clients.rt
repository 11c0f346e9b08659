//! The table of clients. A heartbeat that runs out of memory changes nothing; leaving takes none.

ghost use Rattle.std.specs.Prelude.{◌≡◌, ◌==◌, ◌<◌, ◌++◌, ℕ, List, not, map, filter, find, true, slice_get, length};
ghost use Rattle.std.specs.Prelude.{Some, option_map, IfOk, OnOk, OnErr, if◌then◌else◌};
ghost use Rattle.std.specs.List.{flat_map};
ghost use Rattle.std.specs.Str.{bytes_eq};
ghost use Rattle.broker_model.specs.Clients.{ClientTable, no_clients, after_beat, after_unregister, after_leave};
ghost use Rattle.broker_model.specs.Clients.{with_client, heard_again, clients_after, producer_link, heard_words};
ghost use Rattle.broker_model.specs.Clients.{has_group, without_groups, is_among as is_among_of};
ghost use Rattle.client_tables.specs.Kept.{goes, in_groups};
ghost use Rattle.client_tables.specs.Rows.{rows_of, said_by};
ghost use Rattle.client_tables.specs.Table.{client_of};
ghost use Rattle.client_tables.specs.Places.{place_in};
ghost use Rattle.client_tables.specs.Held.{HasClients};
ghost use Rattle.client_tables.specs.declared.client.Client.{Client as AClient};

use crate::beats::{forget_all, forget_link, put_all};
use crate::client::Client;
use crate::names::is_among;
use crate::subscriptions::{ByGroup, forget, forget_in, words};
use request_fields::Heartbeat;
use std::alloc::{AllocError, Global};
use std::collections::BTreeMap;

/// Who was heard, and what groups subscribe to.
#[derive(Drop)]
pub struct Clients {
    alloc: Global,
    // In the order in which they were first heard.
    clients: Vec<Client>,
    heard: ByGroup,
    // How many heartbeats were heard.
    beats: u64,
}

// Where the first client of this name stands.
fn place_of(clients: &[Client], client: &str) -> Option<usize>
    ensures { result ≡ place_in client.now clients.now }
{
    for (at, row) in clients.iter().enumerate() {
        if row.client.as_str() == client {
            return Some(at);
        }
    }
    None
}

// The client at a place, as it is once it is heard again.
fn again_at(
    alloc: Global,
    clients: &[Client],
    at: usize,
    link: u32,
    beat: &Heartbeat,
) -> Result<Client, AllocError>
    requires { at < length clients.now }
    ensures { IfOk result (λ again. (c : AClient) → slice_get clients.now at ≡ Some c
        → client_of again ≡ heard_again link beat.now (client_of c)) }
{
    let client = &clients[at];
    client.again(alloc, link, beat)
}

// The client of a heartbeat is among the clients, where it stood or last. At `Err` each is as before.
fn meet_at(
    alloc: Global,
    clients: &mut Vec<Client>,
    at: Option<usize>,
    link: u32,
    beat: &Heartbeat,
) -> Result<(), AllocError>
    requires { at ≡ place_in beat.now.client clients.old.items }
    ensures met { OnOk result (map client_of clients.new.items ≡ with_client link beat.now (map client_of clients.old.items)) }
    ensures same { OnErr result (clients.new.items ≡ clients.old.items) }
{
    match at {
        Some(at) => {
            let again = again_at(alloc, clients.as_slice(), at, link, beat)?;
            clients[at] = again;
        }
        None => {
            let first = Client::new(alloc, link, beat)?;
            clients.push(first)?;
        }
    }
    Ok(())
}

// The client of a heartbeat is among the clients. At `Err` each is as before.
fn meet(
    alloc: Global,
    clients: &mut Vec<Client>,
    link: u32,
    beat: &Heartbeat,
) -> Result<(), AllocError>
    ensures met { OnOk result (map client_of clients.new.items ≡ with_client link beat.now (map client_of clients.old.items)) }
    ensures same { OnErr result (clients.new.items ≡ clients.old.items) }
{
    let at = place_of(clients.as_slice(), beat.client.as_str());
    meet_at(alloc, clients, at, link, beat)
}

// What a heartbeat says comes to the rest, and its client to the others. At `Err` some of what it says may have come.
fn try_beat(
    alloc: Global,
    clients: &mut Vec<Client>,
    heard: &mut ByGroup,
    number: u64,
    link: u32,
    beat: &Heartbeat,
) -> Result<(), AllocError>
    ensures met { OnOk result (map client_of clients.new.items ≡ with_client link beat.now (map client_of clients.old.items)) }
    ensures put { OnOk result ((g t : List ℕ) → in_groups heard.new g t
        ≡ in_groups heard.old g t ++ said_by number g t (flat_map (rows_of beat.now.client) beat.now.consumers)) }
    ensures same { OnErr result (clients.new.items ≡ clients.old.items) }
    ensures rest { (g t : List ℕ) → filter (λ said. not (goes beat.now.client number number said)) (in_groups heard.new g t)
        ≡ filter (λ said. not (goes beat.now.client number number said)) (in_groups heard.old g t) }
{
    put_all(
        alloc,
        heard,
        beat.client.as_str(),
        number,
        beat.consumers.as_slice(),
    )?;
    meet(alloc, clients, link, beat)
}

// Whether a client stays once it left two groups, if it is the one of this name.
fn stays(row: &mut Client, client: &str, producer: &str, consumer: &str) -> bool
    ensures stays { result ≡ (if bytes_eq row.old.client client.now
        then has_group (without_groups producer.now consumer.now (client_of row.old)) else true) }
    ensures left { client_of row.new ≡ (if bytes_eq row.old.client client.now
        then without_groups producer.now consumer.now (client_of row.old) else client_of row.old) }
{
    if row.client.as_str() != client {
        return true;
    }
    row.leave(producer, consumer);
    row.has_group()
}

// The client has left two groups.
fn leave_groups(clients: &mut Vec<Client>, client: &str, producer: &str, consumer: &str)
    ensures { map client_of clients.new.items ≡ clients_after client.now producer.now consumer.now (map client_of clients.old.items) }
{
    clients.retain_mut(|row| stays(row, client, producer, consumer));
}

fn drop_clients(clients: &mut Vec<Client>, link: u32)
    ensures { map client_of clients.new.items ≡ filter (λ row. not (row.link == link)) (map client_of clients.old.items) }
{
    clients.retain(|row| row.link != link);
}

// The link of the first of these clients that is in a producer group.
fn producer_in(clients: &[Client], group: &str) -> Option<u32>
    ensures { result ≡ option_map (λ row. row.link) (find (λ row. is_among_of row.producers group.now) (map client_of clients.now)) }
{
    for row in clients {
        if is_among(row.producers.as_slice(), group) {
            return Some(row.link);
        }
    }
    None
}

impl Clients {
    /// Nobody was heard; takes no memory.
    pub fn new(alloc: Global) -> Clients
        ensures { HasClients result no_clients }
    {
        let clients = Vec::new(alloc);
        let heard = BTreeMap::new(alloc);
        Clients {
            alloc,
            clients,
            heard,
            beats: 0,
        }
    }

    /// A heartbeat came on a link. At `Err` nothing changes.
    pub fn heartbeat(&mut self, link: u32, beat: &Heartbeat) -> Result<(), AllocError>
        ensures heard { OnOk result ((t : ClientTable) → HasClients self.old t → HasClients self.new (after_beat link beat.now t)) }
        ensures same { OnErr result ((t : ClientTable) → HasClients self.old t → HasClients self.new t) }
    {
        if self.beats == u64::MAX {
            return Err(AllocError);
        }
        let number = self.beats + 1;
        let client = beat.client.as_str();
        match try_beat(
            self.alloc,
            &mut self.clients,
            &mut self.heard,
            number,
            link,
            beat,
        ) {
            Ok(()) => {
                forget_all(
                    &mut self.heard,
                    client,
                    self.beats,
                    beat.consumers.as_slice(),
                );
                self.beats = number;
                Ok(())
            }
            Err(fault) => {
                forget(&mut self.heard, client, number, number);
                Err(fault)
            }
        }
    }

    /// A client has left a producer group and a consumer group. Takes no memory.
    pub fn unregister(&mut self, client: &str, producer: &str, consumer: &str)
        ensures { (t : ClientTable) → HasClients self.old t
            → HasClients self.new (after_unregister client.now producer.now consumer.now t) }
    {
        leave_groups(&mut self.clients, client, producer, consumer);
        forget_in(&mut self.heard, consumer, client, 0, self.beats);
    }

    /// A link ended: the clients that were last heard on it are gone. Takes no memory.
    pub fn leave(&mut self, link: u32)
        ensures { (t : ClientTable) → HasClients self.old t → HasClients self.new (after_leave link t) }
    {
        forget_link(&mut self.heard, self.clients.as_slice(), link, self.beats);
        drop_clients(&mut self.clients, link);
    }

    /// The link of the first client of a producer group.
    pub fn producer(&self, group: &str) -> Option<u32>
        ensures { (t : ClientTable) → HasClients self.now t → result ≡ producer_link t group.now }
    {
        producer_in(self.clients.as_slice(), group)
    }

    /// The words that were last heard of a consumer group for a topic; none stand for all messages.
    pub fn subscription(&self, group: &str, topic: &str) -> &str
        ensures { (t : ClientTable) → HasClients self.now t → result.now ≡ heard_words t group.now topic.now }
    {
        words(&self.heard, group, topic)
    }
}
