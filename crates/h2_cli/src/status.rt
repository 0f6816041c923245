//! How a command ends.

ghost use Rattle.std.specs.Prelude.{◌≡◌};
ghost use Rattle.h2_cli.specs.Status.{exit_code_of};

/// How a command ends.
#[derive(Clone, Copy, Debug, PartialEq, Eq, Hash)]
pub enum Status {
    /// The input was used to its end without a fault, or help was printed.
    Good,
    /// A fault of the stream, or the input ends inside the preface, a frame or a field block.
    Fault,
    /// Invalid arguments, or the input is not the hexadecimal text announced.
    Usage,
    /// A read or a write failed.
    Device,
    /// Out of memory.
    Memory,
}

impl Status {
    /// Returns the exit code, 0 to 4.
    pub fn code(self) -> u8
        ensures { result ≡ exit_code_of self }
    {
        match self {
            Status::Good => 0,
            Status::Fault => 1,
            Status::Usage => 2,
            Status::Device => 3,
            Status::Memory => 4,
        }
    }
}
