// What ends a program with status 1.
ghost use Rattle.std.specs.Prelude.{◌≡◌};
ghost use Rattle.std.specs.IoError.{error_kind};
ghost use Rattle.console.specs.declared.fault.Fault.TheVariants.{Memory as OutOfMemory};
ghost use Rattle.console.specs.Faults.{fault_of};

use std::alloc::AllocError;
use std::{fmt, io};

#[derive(Drop)]
pub enum Fault {
    // A line was skipped; the answers have said so.
    Skipped,
    Memory,
    Arguments,
    Unread(String),
    Output,
}

impl fmt::Display for Fault {
    fn fmt<W: fmt::Write>(&self, f: &mut fmt::Formatter<W>) -> fmt::Result {
        match self {
            Fault::Skipped => write!(f, "a line was skipped"),
            Fault::Memory => write!(f, "out of memory"),
            Fault::Arguments => write!(f, "more than one file"),
            Fault::Unread(name) => write!(f, "cannot read {name}"),
            Fault::Output => write!(f, "cannot write"),
        }
    }
}

impl From<AllocError> for Fault {
    ghost from_gives = { λ _ fault. fault ≡ OutOfMemory };

    fn from(_e: AllocError) -> Fault {
        Fault::Memory
    }
}

// An error of the output, unless memory ran out.
impl From<io::Error> for Fault {
    ghost from_gives = { λ e fault. fault ≡ fault_of (error_kind e) };

    fn from(e: io::Error) -> Fault {
        match e.kind() {
            io::ErrorKind::OutOfMemory => Fault::Memory,
            _ => Fault::Output,
        }
    }
}

impl Fault {
    // On standard error, but for what the answers have said.
    pub fn report(&self, rt: &HostRuntime) {
        if let Fault::Skipped = self {
            return;
        }
        let _ = eprintln!(rt; "duct: {self}");
    }
}
