//! What holds of the bytes of batches. The function does nothing: it stands for its law.

ghost use Rattle.std.specs.Prelude.{◌≡◌, ℕ, List, Some};
ghost use Rattle.mq_bytes.specs.Bytes.{AreBytes};
ghost use Rattle.batch_records.specs.Layout.{AreMessages};
ghost use Rattle.batch_records.specs.Reading.{messages_in};
ghost use Rattle.batch_records.specs.declared.message.Message.{Message};

/// A body is split into messages exactly where its bytes are theirs, one message after another to the end.
pub fn batches_are_spelled()
    ensures read { (body : List ℕ) (messages : List Message) → AreMessages body messages → messages_in body ≡ Some messages }
    ensures only { (body : List ℕ) (messages : List Message) → AreBytes body → messages_in body ≡ Some messages
        → AreMessages body messages }
{}
