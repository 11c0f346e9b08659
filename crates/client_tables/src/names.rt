//! Lists of names of groups.

ghost use Rattle.std.specs.Prelude.{◌≡◌, not, filter, map, IfOk};
ghost use Rattle.broker_model.specs.Clients.{is_among as is_among_of, without_name, joined as joined_of};

use mq_bytes::Text;
use request_fields::Consumer;
use std::alloc::{AllocError, Global};

/// The name is one of these.
pub(crate) fn is_among(names: &[Text], name: &str) -> bool
    ensures { result ≡ is_among_of names.now name.now }
{
    for other in names {
        if other.as_str() == name {
            return true;
        }
    }
    false
}

fn copied(alloc: Global, name: &Text) -> Result<Text, AllocError>
    ensures { IfOk result (λ copy. copy ≡ name.now) }
{
    Ok(Text::of(String::from_str(alloc, name.as_str())?))
}

/// The same names once more.
pub(crate) fn copies(alloc: Global, names: &[Text]) -> Result<Vec<Text>, AllocError>
    ensures { IfOk result (λ copies. copies.items ≡ names.now) }
{
    let mut copies = Vec::with_capacity(alloc, names.len())?;
    for name in names {
        copies.push(copied(alloc, name)?)?;
    }
    Ok(copies)
}

/// The groups of these consumers.
pub(crate) fn groups_of(alloc: Global, consumers: &[Consumer]) -> Result<Vec<Text>, AllocError>
    ensures { IfOk result (λ groups. groups.items ≡ map (λ c. c.group) consumers.now) }
{
    let mut groups = Vec::with_capacity(alloc, consumers.len())?;
    for consumer in consumers {
        groups.push(copied(alloc, &consumer.group)?)?;
    }
    Ok(groups)
}

// Those of the names that aren't among the others.
fn retain_new(names: &[Text], more: &mut Vec<Text>)
    ensures { more.new.items ≡ filter (λ name. not (is_among_of names.now name)) more.old.items }
{
    more.retain(|name| !is_among(names, name.as_str()));
}

// The names, and behind them those of the others that aren't among them.
fn join(alloc: Global, names: &[Text], more: Vec<Text>) -> Result<Vec<Text>, AllocError>
    ensures { IfOk result (λ all. all.items ≡ joined_of names.now more.items) }
{
    let mut all = copies(alloc, names)?;
    let mut more = more;
    retain_new(names, &mut more);
    all.append(&mut more)?;
    Ok(all)
}

/// The names, and those of the others that aren't among them.
pub(crate) fn joined(alloc: Global, names: &[Text], more: &[Text]) -> Result<Vec<Text>, AllocError>
    ensures { IfOk result (λ all. all.items ≡ joined_of names.now more.now) }
{
    let more = copies(alloc, more)?;
    join(alloc, names, more)
}

/// The names, and the groups of these consumers that aren't among them.
pub(crate) fn with_groups(
    alloc: Global,
    names: &[Text],
    consumers: &[Consumer],
) -> Result<Vec<Text>, AllocError>
    ensures { IfOk result (λ all. all.items ≡ joined_of names.now (map (λ c. c.group) consumers.now)) }
{
    let groups = groups_of(alloc, consumers)?;
    join(alloc, names, groups)
}

/// The names but for this one.
pub(crate) fn drop_name(names: &mut Vec<Text>, name: &str)
    ensures { names.new.items ≡ without_name name.now names.old.items }
{
    names.retain(|other| other.as_str() != name);
}
