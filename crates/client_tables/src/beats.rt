//! What a heartbeat says of its client's groups.

ghost use Rattle.std.specs.Prelude.{◌≡◌, ◌&&◌, ◌++◌, ◌∷◌, [], ℕ, List, not, map, filter, if◌then◌else◌, OnOk, OnErr};
ghost use Rattle.std.specs.List.{flat_map};
ghost use Rattle.std.specs.Str.{bytes_eq};
ghost use Rattle.broker_model.specs.Clients.{HeardRow, is_among, is_heard_on};
ghost use Rattle.client_tables.specs.Kept.{goes, in_groups};
ghost use Rattle.client_tables.specs.Table.{IsHeard, client_of};
ghost use Rattle.client_tables.specs.Rows.{rows_of, said_by};

use crate::client::Client;
use crate::heard::Said;
use crate::subscriptions::{ByGroup, forget, forget_in, put};
use request_fields::{Consumer, Subscription};
use std::alloc::{AllocError, Global};

// A subscription of one of the client's groups comes to the rest, as this heartbeat says it. At `Err` all is as before.
fn put_said(
    alloc: Global,
    groups: &mut ByGroup,
    client: &str,
    beat: u64,
    consumer: &Consumer,
    subscription: &Subscription,
) -> Result<(), AllocError>
    ensures put { OnOk result ((g t : List ℕ) → in_groups groups.new g t
        ≡ (if bytes_eq consumer.now.group g && bytes_eq subscription.now.topic t
        then in_groups groups.old g t ++ record { client = client.now; words = subscription.now.words; beat = beat } ∷ []
        else in_groups groups.old g t)) }
    ensures same { OnErr result ((g t : List ℕ) → in_groups groups.new g t ≡ in_groups groups.old g t) }
{
    let words = subscription.words.as_str();
    let said = Said::new(alloc, client, words, beat)?;
    let group = consumer.group.as_str();
    let topic = subscription.topic.as_str();
    put(alloc, groups, group, topic, said)
}

// What the client says of one group by this heartbeat comes to the rest. At `Err` some of it may have come.
fn put_group(
    alloc: Global,
    groups: &mut ByGroup,
    client: &str,
    beat: u64,
    consumer: &Consumer,
) -> Result<(), AllocError>
    ensures put { OnOk result ((g t : List ℕ) → in_groups groups.new g t
        ≡ in_groups groups.old g t ++ said_by beat g t (rows_of client.now consumer.now)) }
    ensures rest { (g t : List ℕ) → filter (λ said. not (goes client.now beat beat said)) (in_groups groups.new g t)
        ≡ filter (λ said. not (goes client.now beat beat said)) (in_groups groups.old g t) }
{
    for subscription in consumer.subscriptions.as_slice() {
        put_said(alloc, groups, client, beat, consumer, subscription)?;
    }
    Ok(())
}

/// What the client says of its groups by this heartbeat comes to the rest. At `Err` some of it may have come.
pub(crate) fn put_all(
    alloc: Global,
    groups: &mut ByGroup,
    client: &str,
    beat: u64,
    consumers: &[Consumer],
) -> Result<(), AllocError>
    ensures put { OnOk result ((g t : List ℕ) → in_groups groups.new g t
        ≡ in_groups groups.old g t ++ said_by beat g t (flat_map (rows_of client.now) consumers.now)) }
    ensures rest { (g t : List ℕ) → filter (λ said. not (goes client.now beat beat said)) (in_groups groups.new g t)
        ≡ filter (λ said. not (goes client.now beat beat said)) (in_groups groups.old g t) }
{
    for consumer in consumers {
        put_group(alloc, groups, client, beat, consumer)?;
    }
    Ok(())
}

/// Forgets what the client said of these groups by the heartbeats up to the last.
pub(crate) fn forget_all(groups: &mut ByGroup, client: &str, last: u64, consumers: &[Consumer])
    ensures { (g t : List ℕ) → in_groups groups.new g t
        ≡ filter (λ said. not (is_among (map (λ c. c.group) consumers.now) g && goes client.now 0 last said)) (in_groups groups.old g t) }
{
    for consumer in consumers {
        forget_in(groups, consumer.group.as_str(), client, 0, last);
    }
}

// Forgets what a client said by the heartbeats up to the last, if it is to be forgotten.
fn forget_if(groups: &mut ByGroup, is_gone: bool, client: &Client, last: u64)
    ensures { (g t : List ℕ) → in_groups groups.new g t
        ≡ filter (λ said. not (is_gone && goes client.now.client 0 last said)) (in_groups groups.old g t) }
{
    if is_gone {
        forget(groups, client.client.as_str(), 0, last);
    }
}

/// Forgets what clients said that were last heard on this link.
pub(crate) fn forget_link(groups: &mut ByGroup, clients: &[Client], link: u32, last: u64)
    ensures { (heard : List HeardRow) → IsHeard groups.old last heard
        → IsHeard groups.new last (filter (λ row. not (is_heard_on link (map client_of clients.now) row.client)) heard) }
{
    for client in clients {
        forget_if(groups, client.link == link, client, last);
    }
}
