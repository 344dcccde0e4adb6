// Why the program ends without its report.

ghost use Rattle.std.specs.Prelude.{◌≡◌};
ghost use Rattle.range_command.specs.Status.{refusal_status};
ghost use Rattle.range_command.specs.declared.refusal.Refusal.TheVariants as refusals;

use range_run::RunFault;
use range_words::WordFault;
use std::alloc::AllocError;

/// Why the program ends without its report. It is shown in one line.
#[derive(Drop)]
pub enum Refusal {
    /// An allocation failed.
    OutOfMemory,
    /// This word of the command line is not UTF-8; the first behind the program's name is word 1.
    NotText {
        word: usize,
    },
    /// The words are not the program's; the line says why.
    BadWords {
        line: String,
    },
    /// The words are refused for another reason than this and a wish for help or the version.
    CommandLine(WordFault),
    /// A file cannot be opened to be read, for this reason.
    Unopened {
        path: String,
        reason: String,
    },
    /// The help or the version could not be written, for this reason of the system's if it gave one.
    Unwritten {
        reason: Option<String>,
    },
    /// The run over these files, or over standard input where there are none, has no report; for this reason of
    /// the system's, where a read or a write failed and it gave one.
    Run {
        files: Vec<String>,
        fault: RunFault,
        reason: Option<String>,
    },
}

impl From<AllocError> for Refusal {
    ghost from_gives = { λ _ refusal. refusal ≡ refusals.OutOfMemory };

    fn from(_refused: AllocError) -> Refusal {
        Refusal::OutOfMemory
    }
}

impl Refusal {
    /// The status with which the program ends: 1 for a file that cannot be opened, 2 for words that are
    /// refused, 3 where memory ran out, 4 for help or a version that cannot be written, and that of the run where there
    /// was one.
    pub fn status(&self) -> u8
        ensures { result ≡ refusal_status self.now }
    {
        match self {
            Refusal::OutOfMemory | Refusal::CommandLine(WordFault::OutOfMemory) => 3,
            Refusal::NotText { .. } | Refusal::BadWords { .. } | Refusal::CommandLine(_) => 2,
            Refusal::Unopened { .. } => 1,
            Refusal::Unwritten { .. } => 4,
            Refusal::Run { fault, .. } => fault.status(),
        }
    }
}
