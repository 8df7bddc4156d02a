use crate::{Job, WordsStop, read_words};
use std::alloc::{AllocError, Global};

/// The words of a line, which stand apart by spaces.
fn words_of(alloc: Global, line: &str) -> Result<Vec<String>, AllocError> {
    let mut words = Vec::new(alloc);
    for word in line.split_whitespace() {
        words.push(String::from_str(alloc, word)?)?;
    }
    Ok(words)
}

/// What the words of a line ask for.
fn read(alloc: Global, line: &str) -> Result<Job, WordsStop> {
    read_words(alloc, words_of(alloc, line)?.as_slice())
}

#[test]
fn words_alone(rt: HostRuntime) {
    let alloc = rt.alloc();
    assert!(rt; read(alloc, "plan") == Ok(Job::Plan));
    assert!(rt; read(alloc, "extract") == Ok(Job::Extract));
    assert!(rt; read(alloc, "check") == Ok(Job::Check));
}

#[test]
fn trials_in_range(rt: HostRuntime) {
    let alloc = rt.alloc();
    assert!(rt; read(alloc, "trial 1") == Ok(Job::Trial(1)));
    assert!(rt; read(alloc, "trial 200") == Ok(Job::Trial(200)));
    assert!(rt; read(alloc, "trial 0") == Err(WordsStop::Usage));
    assert!(rt; read(alloc, "trial 201") == Err(WordsStop::Usage));
    assert!(rt; read(alloc, "trial") == Err(WordsStop::Usage));
}

#[test]
fn words_that_name_no_job(rt: HostRuntime) {
    let alloc = rt.alloc();
    assert!(rt; read(alloc, "") == Err(WordsStop::Usage));
    assert!(rt; read(alloc, "--help") == Err(WordsStop::Usage));
    assert!(rt; read(alloc, "help") == Err(WordsStop::Usage));
    assert!(rt; read(alloc, "plan plan") == Err(WordsStop::Usage));
    assert!(rt; read(alloc, "-- plan") == Err(WordsStop::Usage));
}
