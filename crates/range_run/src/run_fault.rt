// Why a run ends without its report.

ghost use Rattle.std.specs.Prelude.{◌≡◌, Some};
ghost use Rattle.range_run.specs.FaultText.{run_text};
ghost use Rattle.range_run.specs.Status.{fault_status, status_of};

use range_analysis::AnalyseFault;
use std::fmt;
use thiserror::Error;

/// Why a run ends without its report.
#[derive(PartialEq, Eq, Debug, Drop, Error)]
pub enum RunFault {
    /// The files have no analysis.
    Analyse(AnalyseFault),
    /// An allocation for the report failed.
    OutOfMemory,
    /// A write failed or took no byte, or the flush failed.
    Write,
}

impl fmt::Display for RunFault {
    ghost output = { λ fault. Some (run_text fault) };

    fn fmt<W: fmt::Write>(&self, f: &mut fmt::Formatter<W>) -> fmt::Result {
        match self {
            RunFault::Analyse(fault) => write!(f, "{fault}"),
            RunFault::OutOfMemory => write!(f, "out of memory"),
            RunFault::Write => write!(f, "the report could not be written"),
        }
    }
}

impl RunFault {
    /// The status with which the program ends after this fault: 1 for a file that cannot be read and for two
    /// files with the same animal, 3 where memory ran out, 4 for an output that cannot be written, 5 for fixes
    /// that were not all handed on.
    pub fn status(&self) -> u8
        ensures { result ≡ fault_status self.now }
    {
        match self {
            RunFault::Analyse(AnalyseFault::File { .. } | AnalyseFault::SameAnimal { .. }) => 1,
            RunFault::Analyse(AnalyseFault::OutOfMemory) | RunFault::OutOfMemory => 3,
            RunFault::Write => 4,
            RunFault::Analyse(AnalyseFault::LineCut { .. }) => 5,
        }
    }
}

/// The status with which the program ends after a run: 0 after the report, and else that of the fault.
pub fn status(outcome: &Result<(), RunFault>) -> u8
    ensures { result ≡ status_of outcome.now }
{
    match outcome {
        Ok(()) => 0,
        Err(fault) => fault.status(),
    }
}
