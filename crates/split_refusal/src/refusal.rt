// Why a table is refused.

ghost use Rattle.std.specs.Prelude.{◌≡◌};
ghost use Rattle.split_refusal.specs.Refused.{IsOfKind, Names};

use crate::kind::Kind;
use crate::push::{push, push_number};
use crate::said::{one_line, shortened};
use range_plane::OutOfMemory;
use split_record::push_one_line;
use std::alloc::Global;

/// Why a table is refused.
#[derive(Drop)]
pub struct Refusal {
    pub kind: Kind,
    /// The path of the export that has the record, where there are several.
    pub export: Option<Vec<u8>>,
    /// The record that has the fault, where one has. That below the titles is 1.
    pub record: Option<u32>,
    /// What is wrong and the remedy, in one line, without the record.
    pub text: Vec<u8>,
}

impl Refusal {
    /// A refusal of these words, whose control characters are escaped. Of more than 500 signs the middle is left out.
    pub fn new(alloc: Global, kind: Kind, record: Option<u32>, text: &[u8]) -> Refusal
        ensures names { Names «record» result }
        ensures kind { IsOfKind kind result }
    {
        Refusal::said(alloc, kind, record, shortened(alloc, text))
    }

    // One of all of these words, whose control characters are escaped.
    pub(crate) fn whole(alloc: Global, kind: Kind, record: Option<u32>, text: &[u8]) -> Refusal
        ensures names { Names «record» result }
        ensures kind { IsOfKind kind result }
    {
        Refusal::said(alloc, kind, record, one_line(alloc, text))
    }

    // One of a line, if there was enough memory for it.
    fn said(
        alloc: Global,
        kind: Kind,
        record: Option<u32>,
        line: Result<Vec<u8>, OutOfMemory>,
    ) -> Refusal
        ensures names { Names «record» result }
        ensures kind { IsOfKind kind result }
    {
        match line {
            Ok(text) => Refusal {
                kind,
                export: None,
                record,
                text,
            },
            Err(_no_memory) => Refusal::out_of_memory(alloc),
        }
    }

    /// That there is not enough memory.
    pub fn out_of_memory(alloc: Global) -> Refusal
        ensures { result.kind ≡ Kind.Memory }
    {
        Refusal {
            kind: Kind::Memory,
            export: None,
            record: None,
            text: Vec::new(alloc),
        }
    }

    /// The line as it is said, without the name of the program: `record 5: ` before the text, where a record has the
    /// fault, and before that `PATH: `, where there are several exports.
    ///
    /// # Errors
    ///
    /// Memory ran out.
    pub fn line(&self, alloc: Global) -> Result<Vec<u8>, OutOfMemory> {
        let mut line = Vec::new(alloc);
        if self.kind == Kind::Memory {
            push(&mut line, "not enough memory")?;
            return Ok(line);
        }
        if let Some(export) = &self.export {
            push_one_line(&mut line, export)?;
            push(&mut line, ": ")?;
        }
        if let Some(record) = self.record {
            push(&mut line, "record ")?;
            push_number(&mut line, u64::from(record))?;
            push(&mut line, ": ")?;
        }
        line.extend_from_slice(&self.text)?;
        Ok(line)
    }
}

// A sentence of a refusal, and its kind.
#[derive(Drop)]
pub(crate) struct Sentence {
    pub kind: Kind,
    pub text: Vec<u8>,
}

// The refusal of a sentence, if there was enough memory for it.
pub(crate) fn refusal_of(
    alloc: Global,
    record: Option<u32>,
    sentence: Result<Sentence, OutOfMemory>,
) -> Refusal
    ensures { Names «record» result }
{
    match sentence {
        Ok(sentence) => Refusal::new(alloc, sentence.kind, record, &sentence.text),
        Err(_no_memory) => Refusal::out_of_memory(alloc),
    }
}
