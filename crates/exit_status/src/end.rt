//! The ends of a run, each with its code and what to do.
//!
//! | code | end      | what to do                                             |
//! |-----:|----------|--------------------------------------------------------|
//! |    0 | Done     |                                                        |
//! |    1 | Usage    | see the help                                           |
//! |    2 | BadFrame | look at the client                                     |
//! |    3 | Source   | run again                                              |
//! |    4 | Sink     | run again                                              |
//! |    5 | Disk     | end the other process or look at the disk, run again   |
//! |    6 | Foreign  | use another folder, or the store's own sizes           |
//! |    7 | Memory   | give it more memory                                    |
//! |    8 | Damaged  | keep a copy and look at the file                       |
//! |    9 | Threads  | raise the limit on threads                             |
//! |   10 | Device   | look at the named device, run again                    |

ghost use Rattle.std.specs.Prelude.{◌≡◌, ◌≤◌};
ghost use Rattle.exit_status.specs.Lines.{advice_text, code_of};

/// How a run ended.
#[derive(Debug, Clone, Copy, PartialEq, Eq)]
pub enum End {
    Done,
    Usage,
    BadFrame,
    Source,
    Sink,
    Disk,
    Foreign,
    Memory,
    Damaged,
    Threads,
    Device,
}

impl End {
    /// The end with this code. There is none with more than 10.
    pub fn of(code: u8) -> End
        ensures { code ≤ 10 → code_of result ≡ code }
    {
        match code {
            0 => End::Done,
            1 => End::Usage,
            2 => End::BadFrame,
            3 => End::Source,
            4 => End::Sink,
            5 => End::Disk,
            6 => End::Foreign,
            7 => End::Memory,
            8 => End::Damaged,
            9 => End::Threads,
            _ => End::Device,
        }
    }

    /// What to do.
    pub fn advice(self) -> &'static str
        ensures { result.now ≡ advice_text self }
    {
        match self {
            End::Done => "nothing is to be done",
            End::Usage => "see mq_broker --help",
            End::BadFrame => "look at the client; what was answered before is stored",
            End::Source => "run again; what was answered is stored",
            End::Sink => "run again; what was answered is stored",
            End::Disk =>
                "end the other process or look at the disk, then run again; what was answered is stored",
            End::Foreign => "use another folder, or the store's own sizes; nothing was changed",
            End::Memory => "give it more memory, then run again; what was answered is stored",
            End::Damaged => "keep a copy and look at the file; nothing was changed",
            End::Threads => "raise the limit on threads or processes; nothing was served",
            End::Device =>
                "look at its rights and at who else uses it, then run again; what was answered is stored",
        }
    }
}
