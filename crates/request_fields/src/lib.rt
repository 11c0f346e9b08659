//! Which request a frame is: the fields of its header by the row of its code, or what its body says. And what clients
//! say of themselves.
#![tactic(auto)]

mod beat;
mod bodies;
mod body_fault;
mod clients;
mod fault;
mod fields;
mod kinds;
mod laws;
mod lock;
mod members;
mod needed;
mod optional;
mod request;
mod rows;
mod send;
mod send_fields;
mod send_names;
mod texts;

pub use clients::{Consumer, Heartbeat, QueueName, Subscription};
pub use fault::{Field, RequestFault};
pub use fields::{
    EndFields, LockFields, OffsetFields, PullFields, QueryFields, QueueFields, SearchFields,
    SetOffsetFields, TopicFields, UnregisterFields, ViewFields,
};
pub use laws::{
    each_value_is_found_by_its_name, fields_of_their_kinds_have_no_fault,
    the_first_absent_field_is_missing, the_first_optional_field_of_another_kind_is_bad,
    the_first_required_field_of_another_kind_is_bad,
};
pub use request::Request;
pub use send_fields::SendFields;
