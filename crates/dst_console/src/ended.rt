// How the words of the program ended.
ghost use Rattle.std.specs.Prelude.{◌≡◌};
ghost use Rattle.dst_console.specs.Ends.{status_of};

use crate::running::Ran;

/// What became of the program's words, and the devices that they took.
#[derive(Drop)]
pub enum Ended<S: Drop, F: Drop, K: Drop> {
    /// Words that ask the program itself were answered with a text. No device was taken.
    Answered { status: u8 },
    /// A command ran, over a source and a sink.
    Command(Ran<S, K>),
    /// A stream was decoded, from a flow to a sink.
    Pipe(Ran<F, K>),
}

impl<S: Drop, F: Drop, K: Drop> Ended<S, F, K> {
    /// The status that the program ends with.
    pub fn status(&self) -> u8
        ensures { result ≡ status_of self.now }
    {
        match self {
            Ended::Answered { status } => *status,
            Ended::Command(ran) => ran.status,
            Ended::Pipe(ran) => ran.status,
        }
    }
}
