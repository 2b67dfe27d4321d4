// Why the program stops before its end.
use std::alloc::AllocError;
use std::io;

#[derive(Drop)]
pub enum Failure {
    // What differs, in words.
    Mismatch(anyhow::Error),
    Memory,
    Output,
}

impl From<anyhow::Error> for Failure {
    fn from(mismatch: anyhow::Error) -> Failure {
        Failure::Mismatch(mismatch)
    }
}

impl From<AllocError> for Failure {
    fn from(_e: AllocError) -> Failure {
        Failure::Memory
    }
}

impl From<io::Error> for Failure {
    fn from(_e: io::Error) -> Failure {
        Failure::Output
    }
}

impl Failure {
    // Where the output failed nothing more is tried on it.
    pub fn print(&self, rt: &HostRuntime) -> io::Result<()> {
        match self {
            Failure::Mismatch(mismatch) => println!(rt; "MISMATCH: {mismatch}"),
            Failure::Memory => println!(rt; "out of memory"),
            Failure::Output => Ok(()),
        }
    }
}
