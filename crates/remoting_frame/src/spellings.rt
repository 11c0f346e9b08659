//! What holds of the bytes of frames and of binary headers. The functions do nothing: each stands for its law.

ghost use Rattle.std.specs.Prelude.{◌≡◌, ℕ, ◌+◌, ◌≤◌, ◌++◌, List, length, Some, Ok, Err};
ghost use Rattle.mq_bytes.specs.Bytes.{AreBytes};
ghost use Rattle.remoting_frame.specs.Head.{Head, IsInOrder};
ghost use Rattle.remoting_frame.specs.Headers.{header_in, header_text, frame_bytes};
ghost use Rattle.remoting_frame.specs.Frames.{next_of};
ghost use Rattle.remoting_frame.specs.FrameForm.{IsFrame};
ghost use Rattle.remoting_frame.specs.FaultForm.{HasFault};
ghost use Rattle.remoting_frame.specs.Binary.{binary_header, by_name};
ghost use Rattle.remoting_frame.specs.BinaryForm.{IsBinary, value_of, last_value};
ghost use Rattle.remoting_frame.specs.declared.frame.Frame.{Frame};
ghost use Rattle.remoting_frame.specs.declared.frame.Form.{Form};
ghost use Rattle.remoting_frame.specs.declared.fault.FrameFault.{FrameFault};

/// The next frame of a stream is the one with which its bytes begin.
pub fn frames_are_spelled()
    ensures read { (bytes : List ℕ) (frame : Frame) (rest : List ℕ) → IsFrame bytes frame rest
        → next_of frame.at bytes ≡ Ok (Some (frame, rest)) }
    ensures only { (at : ℕ) (bytes : List ℕ) (frame : Frame) (rest : List ℕ) → AreBytes bytes → next_of at bytes ≡ Ok (Some (frame, rest))
        → IsFrame bytes frame rest × (frame.at ≡ at) }
{}

/// The next frame of a stream has a fault exactly where its bytes show one: each needs the bytes that show it, and no
/// more.
pub fn faults_are_shown()
    ensures told { (at : ℕ) (bytes : List ℕ) (fault : FrameFault) → HasFault at bytes fault → next_of at bytes ≡ Err fault }
    ensures only { (at : ℕ) (bytes : List ℕ) (fault : FrameFault) → next_of at bytes ≡ Err fault → HasFault at bytes fault }
{}

/// A frame that is written is the next one, whatever follows it: where its header reads as it was written, which
/// `Header::write` ensures, and the frame has no more than 16,777,216 bytes behind its length.
pub fn written_frames_are_read()
    ensures { (at : ℕ) (form : Form) (head : Head) (body rest : List ℕ) → header_in form (header_text form head) ≡ Some head
        → 4 + length (header_text form head) + length body ≤ 16777216 → next_of at (frame_bytes form head body ++ rest)
        ≡ Ok (Some (record { at = at; form = form; header = head; body = body }, rest)) }
{}

/// Bytes are a header in binary form exactly where its fields stand in their places and its pairs behind them.
pub fn binary_headers_are_spelled()
    ensures read { (bytes : List ℕ) (head : Head) → IsBinary bytes head → binary_header bytes ≡ Some head }
    ensures only { (bytes : List ℕ) (head : Head) → AreBytes bytes → binary_header bytes ≡ Some head → IsBinary bytes head }
{}

/// Of pairs that come with a name twice the last value counts, and what is made of them is in byte order.
pub fn last_values_count()
    ensures ordered { (pairs : List (List ℕ × List ℕ)) → IsInOrder (by_name pairs) }
    ensures values { (name : List ℕ) (pairs : List (List ℕ × List ℕ)) → value_of name (by_name pairs) ≡ last_value name pairs }
{}
