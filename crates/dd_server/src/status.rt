ghost use Rattle.std.specs.Prelude.{◌≡◌};
ghost use Rattle.dd_server.specs.Status.{number_of_status};

/// How a session ended.
#[derive(Drop)]
pub enum Status {
    /// The source was read to its end and every reply was given.
    Done,
    /// The words are no command. Nothing was read or written.
    Words,
    /// The source failed. What was given is the replies of the windows that had ended.
    ReadFault,
    /// The sink failed. What was given is a front of the replies.
    WriteFault,
    /// There was no memory. What was given is the first replies of the session, each one whole.
    Memory,
    /// The source gave more bytes than a session reads. What was given is the replies of the windows that had ended.
    TooMuch,
}

impl Status {
    /// The exit status of the program.
    pub fn number(&self) -> u8
        ensures { result ≡ number_of_status self.now }
    {
        match self {
            Status::Done => 0,
            Status::Words => 2,
            Status::ReadFault => 3,
            Status::WriteFault => 4,
            Status::Memory => 5,
            Status::TooMuch => 6,
        }
    }
}
