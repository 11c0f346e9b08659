//! A client: the link on which it was last heard, and the groups that it is in.

ghost use Rattle.std.specs.Prelude.{◌≡◌, IfOk};
ghost use Rattle.broker_model.specs.Clients.{new_client, heard_again, without_groups, has_group};
ghost use Rattle.client_tables.specs.Table.{client_of};

use crate::names::{copies, drop_name, groups_of, joined, with_groups};
use mq_bytes::Text;
use request_fields::Heartbeat;
use std::alloc::{AllocError, Global};

/// A client that was heard.
#[derive(Drop)]
pub(crate) struct Client {
    pub(crate) client: Text,
    pub(crate) link: u32,
    pub(crate) producers: Vec<Text>,
    pub(crate) consumers: Vec<Text>,
}

impl Client {
    /// A client that is heard for the first time.
    pub(crate) fn new(alloc: Global, link: u32, beat: &Heartbeat) -> Result<Client, AllocError>
        ensures { IfOk result (λ c. client_of c ≡ new_client link beat.now) }
    {
        Ok(Client {
            client: Text::of(String::from_str(alloc, beat.client.as_str())?),
            link,
            producers: copies(alloc, beat.producers.as_slice())?,
            consumers: groups_of(alloc, beat.consumers.as_slice())?,
        })
    }

    /// It, as it is once it is heard again, on this link.
    pub(crate) fn again(
        &self,
        alloc: Global,
        link: u32,
        beat: &Heartbeat,
    ) -> Result<Client, AllocError>
        ensures { IfOk result (λ c. client_of c ≡ heard_again link beat.now (client_of self.now)) }
    {
        Ok(Client {
            client: Text::of(String::from_str(alloc, self.client.as_str())?),
            link,
            producers: joined(alloc, self.producers.as_slice(), beat.producers.as_slice())?,
            consumers: with_groups(alloc, self.consumers.as_slice(), beat.consumers.as_slice())?,
        })
    }

    /// It has left these groups.
    pub(crate) fn leave(&mut self, producer: &str, consumer: &str)
        ensures { client_of self.new ≡ without_groups producer.now consumer.now (client_of self.old) }
    {
        drop_name(&mut self.producers, producer);
        drop_name(&mut self.consumers, consumer);
    }

    /// It is in some group.
    pub(crate) fn has_group(&self) -> bool
        ensures { result ≡ has_group (client_of self.now) }
    {
        !(self.producers.is_empty() && self.consumers.is_empty())
    }
}
