//! Words of commands.

use session_words::{Command, Options, Order, Want, read_words};
use std::alloc::{AllocError, Global};
use std::test::Fail;

/// The words of a line.
fn words_of(alloc: Global, line: &str) -> Result<Vec<String>, AllocError> {
    let mut words = Vec::new(alloc);
    for word in line.split(' ') {
        words.push(String::from_str(alloc, word)?)?;
    }
    Ok(words)
}

fn wants(want: &Want, numbers: &[u32]) -> bool {
    match want {
        Want::Numbers(wanted) => wanted.as_slice() == numbers,
        Want::All => false,
        Want::Nothing => false,
    }
}

fn is_large_scopes(options: &Options) -> bool {
    match options {
        Options::Files(job) => {
            job.command == Command::Scopes
                && job.order == Order::Large
                && job.workers == 16
                && job.files.len() == 2
                && wants(&job.want, [2, 1].as_slice())
        }
        Options::Trial { .. } => false,
        Options::Churn { .. } => false,
    }
}

#[test]
fn options_are_read(rt: HostRuntime) -> Result<(), Fail> {
    let words = words_of(
        rt.alloc(),
        "scopes --order large --want 2,1 --workers 16 a.js b",
    )?;
    let options = read_words(rt.alloc(), &words)?;
    assert!(rt; is_large_scopes(&options));
    Ok(())
}

#[test]
fn generated_texts_are_asked_for(rt: HostRuntime) -> Result<(), Fail> {
    let words = words_of(rt.alloc(), "trial 4294967295 7")?;
    match read_words(rt.alloc(), &words) {
        Ok(
            Options::Trial {
                number,
                size,
                workers,
            },
        ) => {
            assert!(rt; number == 4294967295 && size == 7 && workers == 4);
        }
        _ => assert!(rt; false, "the words are a command"),
    }
    Ok(())
}
