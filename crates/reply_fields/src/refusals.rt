//! The replies to frames that are no requests. They have no fields and no body.
//!
//! | code | remark       | when                                                    |
//! |-----:|--------------|---------------------------------------------------------|
//! |    3 | `code N`     | no request that is known has the code N                 |
//! |    1 | `field NAME` | the field of this name is absent, or not of its kind    |
//! |    1 | `body`       | the body is not what the code asks for                  |
//! |  901 | `memory`     | there was no memory to read the request                 |

ghost use Rattle.std.specs.Prelude.{◌≡◌, ◌++◌, pos, codes, IfOk};
ghost use Rattle.mq_bytes.specs.Decimal.{decimal};
ghost use Rattle.reply_fields.specs.Parts.{plain};
ghost use Rattle.reply_fields.specs.Refusals.{field_remark, fault_reply};

use crate::reply::Reply;
use request_fields::{Field, RequestFault};
use std::alloc::{AllocError, Global};

/// The most bytes of a name that a remark has room for.
const NAME_MAX: usize = 65530;

// No request that is known has this code.
#[tactic(auto, using(crate::proofs::ReplyLemmas::code_is_short))]
fn unsupported(alloc: Global, code: i32) -> Result<Reply, AllocError>
    ensures { IfOk result (λ reply. reply ≡ plain (pos 3) (codes "code " ++ decimal code)) }
{
    let remark = format!(in alloc; "code {code}")?;
    Reply::plain(alloc, 3, remark.as_str())
}

// The field is absent, or not of its kind.
fn wrong(alloc: Global, field: &Field) -> Result<Reply, AllocError>
    ensures { IfOk result (λ reply. reply ≡ plain (pos 1) (field_remark field.now.name)) }
{
    let name = field.name.as_str();
    if name.len() > NAME_MAX {
        return Reply::plain(alloc, 1, "field");
    }
    let remark = format!(in alloc; "field {name}")?;
    Reply::plain(alloc, 1, remark.as_str())
}

impl Reply {
    /// The reply to a frame that is no request.
    pub fn of_fault(alloc: Global, fault: &RequestFault) -> Result<Reply, AllocError>
        ensures { IfOk result (λ reply. reply ≡ fault_reply fault.now) }
    {
        match fault {
            RequestFault::Unsupported(code) => unsupported(alloc, *code),
            RequestFault::Missing(field) => wrong(alloc, field),
            RequestFault::BadNumber(field) => wrong(alloc, field),
            RequestFault::BadBody => Reply::plain(alloc, 1, "body"),
            RequestFault::Memory => Reply::plain(alloc, 901, "memory"),
        }
    }
}
