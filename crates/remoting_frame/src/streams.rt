//! What holds of every stream, however it is cut into pieces. The functions do nothing: each stands for its law.

ghost use Rattle.std.specs.Prelude.{◌≡◌, ℕ, List, [], ◌++◌};
ghost use Rattle.remoting_frame.specs.Held.{Held};
ghost use Rattle.remoting_frame.specs.Streams.{BeginsWith, IsCut, End, faulty};
ghost use Rattle.remoting_frame.specs.Calls.{Call, AreCalls, stream_of, frames_of};
ghost use Rattle.remoting_frame.specs.declared.frame.Frame.{Frame};
ghost use Rattle.remoting_frame.specs.declared.fault.FrameFault.{FrameFault};

/// After any calls that fed pieces and gave frames, the stream that was fed begins with the frames that were given, and
/// what is held is the rest. So the frames are those of the stream, whatever its pieces were.
pub fn pieces_do_not_matter()
    ensures { (calls : List Call) (held : Held) → AreCalls (record { at = 0; bytes = [] }) calls held
        → BeginsWith 0 (stream_of calls) (frames_of calls) held.at held.bytes }
{}

/// A stream that goes on keeps the frames with which it begins.
pub fn frames_stay()
    ensures { (at : ℕ) (bytes more : List ℕ) (frames : List Frame) (end : ℕ) (rest : List ℕ) → BeginsWith at bytes frames end rest
        → BeginsWith at (bytes ++ more) frames end (rest ++ more) }
{}

/// A stream that has a fault has the same frames and the same fault, whatever comes behind.
pub fn faults_stay()
    ensures { (bytes more : List ℕ) (frames : List Frame) (fault : FrameFault) → IsCut bytes frames (faulty fault)
        → IsCut (bytes ++ more) frames (faulty fault) }
{}

/// A stream has one list of frames, and one end behind them.
pub fn one_reading()
    ensures { (bytes : List ℕ) (frames others : List Frame) (end stop : End) → IsCut bytes frames end → IsCut bytes others stop
        → (frames ≡ others) × (end ≡ stop) }
{}

/// Each stream has frames, maybe none, and an end behind them.
pub fn each_stream_is_cut()
    ensures { (bytes : List ℕ) → (frames : List Frame) × (end : End) × IsCut bytes frames end }
{}
