use crate::form::Form;
use anyhow::{Context, Result};
use loom_base::List;
use std::alloc::{AllocError, Global};
use std::fs;

/// How a run is to end.
#[derive(Drop)]
pub struct Wanted {
    /// The number of the status.
    pub status: u8,
    /// All that is to be written.
    pub line: Vec<u8>,
}

/// A run, and how it is to end.
#[derive(Drop)]
pub struct Case {
    pub words: Vec<String>,
    pub document: List<u8>,
    pub form: Form,
    pub wanted: Wanted,
}

/// The parts of a case's text.
#[derive(Clone, Copy)]
struct Parts<'t> {
    /// What is said of the run, line by line.
    said: &'t str,
    document: &'t str,
    /// All that is to be written.
    line: &'t str,
}

/// The parts of a text: what stands before the line `--- document`, what stands between it and the
/// line `--- line`, and what stands behind that.
fn parts_of(text: &str) -> Result<Parts<'_>> {
    let (said, rest) = text
        .split_once("--- document\n")
        .context("no line `--- document`")?;
    let (document, line) = rest
        .split_once("\n--- line\n")
        .context("no line `--- line`")?;
    Ok(Parts {
        said,
        document,
        line,
    })
}

/// The words of a run: those of the lines `word W`.
fn words_of(alloc: Global, said: &str) -> Result<Vec<String>, AllocError> {
    let mut words = Vec::new(alloc);
    for line in said.lines() {
        if let Some(word) = line.strip_prefix("word ") {
            words.push(String::from_str(alloc, word)?)?;
        }
    }
    Ok(words)
}

/// The bytes of a text.
fn bytes_of(alloc: Global, text: &str) -> Result<Vec<u8>, AllocError> {
    let mut bytes = Vec::new(alloc);
    bytes.extend_from_slice(text.as_bytes())?;
    Ok(bytes)
}

/// So many blanks.
fn blanks(alloc: Global, count: u64) -> Result<Vec<u8>, AllocError> {
    let mut blanks = Vec::new(alloc);
    blanks.resize(count as usize, b' ')?;
    Ok(blanks)
}

/// The bytes of the source.
fn document_of(alloc: Global, document: &str, form: &Form) -> Result<List<u8>, AllocError> {
    let bytes = match form.blanks {
        Some(count) => blanks(alloc, count)?,
        None => bytes_of(alloc, document)?,
    };
    Ok(List::from_vec(bytes))
}

/// The case of a file.
pub fn read(rt: &HostRuntime, path: &str) -> Result<Case> {
    let alloc = rt.alloc();
    let text = fs::read_to_string(rt, path).context(format_args!("reading {path}"))?;
    let parts = parts_of(text.as_str()).context(format_args!("reading {path}"))?;
    let form = Form::of(alloc, parts.said).context(format_args!("reading {path}"))?;
    Ok(Case {
        words: words_of(alloc, parts.said)?,
        document: document_of(alloc, parts.document, &form)?,
        wanted: Wanted {
            status: form.status,
            line: bytes_of(alloc, parts.line)?,
        },
        form,
    })
}
