//! Who waits for the reply to a request.

ghost use Rattle.std.specs.Prelude.{◌≡◌};

use crate::heard::Heard;
use remoting_frame::Form;

/// Who waits for the reply to a request: the form and the number of its header, and whether nobody does.
#[derive(Debug, Clone, Copy, PartialEq, Eq)]
pub struct Caller {
    pub form: Form,
    pub opaque: i32,
    pub one_way: bool,
}

impl Heard {
    /// Who waits for the reply.
    pub fn caller(&self) -> Caller
        ensures { result ≡ record { form = self.now.form; opaque = self.now.opaque; one_way = self.now.one_way } }
    {
        Caller {
            form: self.form,
            opaque: self.opaque,
            one_way: self.one_way,
        }
    }
}
