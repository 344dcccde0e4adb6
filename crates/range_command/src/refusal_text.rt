// What is said of a refusal, in one line.

ghost use Rattle.std.specs.Prelude.{◌≡◌, ◌++◌, Some, codes, false, true};
ghost use Rattle.std.specs.Fmt.{WritesOnOk};
ghost use Rattle.range_texts.specs.Seen.{shown_text};
ghost use Rattle.range_command.specs.RefusalText.{RefusalsAreOneLine, ShortLinesAreOneLine, files_text, name_of, output_text, refusal_text, report_text, short_files_line, short_line, short_run_line, unread_text};

use crate::refusal::Refusal;
use range_analysis::AnalyseFault;
use range_fixes::ReadFault;
use range_run::RunFault;
use range_texts::{Name, OneLine};
use range_words::WordFault;
use std::fmt;

/// Each refusal is told in one line, whatever the names of files and animals are.
pub fn refusals_are_one_line()
    ensures whole { RefusalsAreOneLine }
    ensures short { ShortLinesAreOneLine }
{}

impl fmt::Display for Refusal {
    ghost output = { λ refusal. Some (refusal_text refusal) };

    fn fmt<W: fmt::Write>(&self, f: &mut fmt::Formatter<W>) -> fmt::Result {
        match self {
            Refusal::OutOfMemory => write!(f, "out of memory"),
            Refusal::NotText { word } => {
                write!(f, "word {word} of the command line is not UTF-8")
            }
            Refusal::BadWords { line } => write!(f, "{}", OneLine::plain(line.as_str())),
            Refusal::CommandLine(fault) => write!(f, "{fault}"),
            Refusal::Unopened { path, reason } => write_unopened(f, path.as_str(), reason.as_str()),
            Refusal::Unwritten { reason } => {
                write_output(f, "the help or the version could not be written", reason)
            }
            Refusal::Run {
                files,
                fault,
                reason,
            } => write_run(f, files.as_slice(), fault, reason),
        }
    }
}

impl Refusal {
    /// The line that is said of it where there is no memory for its text.
    pub(crate) fn short_line(&self) -> &'static str
        ensures { result.now ≡ short_line self.now }
    {
        match self {
            Refusal::OutOfMemory => OUT_OF_MEMORY,
            Refusal::NotText { .. } => "homerange: a word of the command line is not UTF-8\n",
            Refusal::BadWords { .. } => REFUSED_WORDS,
            Refusal::CommandLine(WordFault::OutOfMemory) => OUT_OF_MEMORY,
            Refusal::CommandLine(_) => REFUSED_WORDS,
            Refusal::Unopened { .. } => {
                "homerange: a file cannot be opened, and there is no memory to say which\n"
            }
            Refusal::Unwritten { .. } => {
                "homerange: the help or the version could not be written\n"
            }
            Refusal::Run { fault, .. } => short_run_line(fault),
        }
    }
}

const OUT_OF_MEMORY: &str = "homerange: out of memory\n";

const REFUSED_WORDS: &str = "homerange: the words of the command line are refused\n";

// The same of a run.
fn short_run_line(fault: &RunFault) -> &'static str
    ensures { result.now ≡ short_run_line fault.now }
{
    match fault {
        RunFault::Analyse(fault) => short_files_line(fault),
        RunFault::OutOfMemory => OUT_OF_MEMORY,
        RunFault::Write => "homerange: the report could not be written\n",
    }
}

// The same of files that have no analysis.
fn short_files_line(fault: &AnalyseFault) -> &'static str
    ensures { result.now ≡ short_files_line fault.now }
{
    match fault {
        AnalyseFault::OutOfMemory => OUT_OF_MEMORY,
        AnalyseFault::LineCut { .. } => {
            "homerange: the fixes of a file were not all handed on, and there is no memory to say which\n"
        }
        AnalyseFault::File { .. } => {
            "homerange: a file cannot be read, and there is no memory to say which\n"
        }
        AnalyseFault::SameAnimal { .. } => {
            "homerange: two files have the same animal, and there is no memory to say which\n"
        }
    }
}

// Why a file cannot be opened.
fn write_unopened<W: fmt::Write>(f: &mut fmt::Formatter<W>, path: &str, reason: &str) -> fmt::Result
    ensures { WritesOnOk W.write_str_gives f.old result
        (shown_text true path.now ++ (codes ": " ++ shown_text false reason.now)) f.new }
{
    write!(f, "{}: {}", OneLine::new(path), OneLine::plain(reason))
}

// What standard output answered, or what failed where it gave no reason.
fn write_output<W: fmt::Write>(
    f: &mut fmt::Formatter<W>,
    failed: &str,
    reason: &Option<String>,
) -> fmt::Result
    ensures { WritesOnOk W.write_str_gives f.old result (output_text failed.now reason.now) f.new }
{
    match reason {
        Some(reason) => write!(f, "standard output: {}", OneLine::plain(reason.as_str())),
        None => f.write_str(failed),
    }
}

// Why the run over the files has no report.
fn write_run<W: fmt::Write>(
    f: &mut fmt::Formatter<W>,
    files: &[String],
    fault: &RunFault,
    reason: &Option<String>,
) -> fmt::Result
    ensures { WritesOnOk W.write_str_gives f.old result
        (report_text files.now fault.now reason.now) f.new }
{
    match fault {
        RunFault::Analyse(fault) => write_analysis(f, files, fault, reason),
        RunFault::OutOfMemory => write!(f, "out of memory"),
        RunFault::Write => write_output(f, "the report could not be written", reason),
    }
}

// Why the files have no analysis.
fn write_analysis<W: fmt::Write>(
    f: &mut fmt::Formatter<W>,
    files: &[String],
    fault: &AnalyseFault,
    reason: &Option<String>,
) -> fmt::Result
    ensures { WritesOnOk W.write_str_gives f.old result
        (files_text files.now fault.now reason.now) f.new }
{
    match fault {
        AnalyseFault::OutOfMemory => write!(f, "{fault}"),
        AnalyseFault::LineCut { file } => write!(f, "{}: {fault}", source_name(files, *file)),
        AnalyseFault::File { file, fault } => {
            write!(f, "{}: ", source_name(files, *file))?;
            write_unread(f, *fault, reason)
        }
        AnalyseFault::SameAnimal {
            first,
            second,
            animal,
        } => {
            let (first, second) = (source_name(files, *first), source_name(files, *second));
            let animal = Name {
                bytes: animal.as_slice(),
            };
            write!(f, "{first} and {second} {fault}, {animal}")
        }
    }
}

// Why a file cannot be read, for the system's reason where it gave one.
fn write_unread<W: fmt::Write>(
    f: &mut fmt::Formatter<W>,
    fault: ReadFault,
    reason: &Option<String>,
) -> fmt::Result
    ensures { WritesOnOk W.write_str_gives f.old result (unread_text fault reason.now) f.new }
{
    match (fault, reason) {
        (ReadFault::Read, Some(reason)) => write!(f, "{}", OneLine::plain(reason.as_str())),
        (_, _) => write!(f, "{fault}"),
    }
}

// What a source is called: a file by its path.
fn source_name(files: &[String], file: u32) -> OneLine<'_>
    ensures { shown_text result.doubles result.text.now ≡ name_of files.now file }
{
    match files.get(file as usize) {
        Some(path) => OneLine::new(path.as_str()),
        None => OneLine::new("standard input"),
    }
}
