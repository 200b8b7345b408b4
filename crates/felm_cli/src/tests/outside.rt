//! Words, and files and sinks that fail.
use super::texts::{PROGRAM, RESULT, SCRIPT, words};
use crate::{Status, Which, felm_once};
use felm_io::{MemoryFiles, MemorySink, SureSink};
use felm_term::Limits;
use std::alloc::{AllocError, Global};
use std::test::Fail;

/// Texts in memory that may fail.
fn texts(alloc: Global) -> Result<MemoryFiles, Fail> {
    let mut files = MemoryFiles::make(alloc);
    files.add("p", PROGRAM).map_err(|_| AllocError)?;
    files.add("s", SCRIPT).map_err(|_| AllocError)?;
    Ok(files)
}

#[test]
fn other_words_are_refused(rt: HostRuntime) -> Result<(), Fail> {
    let alloc = rt.alloc();
    let cases: [&[&str]; 12] = [
        &[],
        &["sync"],
        &["sync", "p"],
        &["sync", "p", "s", "s"],
        &["run", "p", "s"],
        &["sync", "", "s"],
        &["sync", "p", "-"],
        &["sync", "--p", "s"],
        &["graph"],
        &["graph", "p", "s"],
        &["graph", "-p"],
        &["Graph", "p"],
    ];
    for case in cases {
        let mut files = texts(alloc)?;
        let mut out = SureSink::make(alloc);
        let mut err = SureSink::make(alloc);
        let words = words(alloc, case)?;
        let status = felm_once(alloc, words.as_slice(), &mut files, &mut out, &mut err);
        assert_eq!(rt; status, Status::Usage);
        assert_eq!(rt; out.bytes(), b"".as_slice());
        assert_eq!(rt;
            err.bytes(),
            b"felm: the words name no command of this program\n".as_slice()
        );
    }
    Ok(())
}

#[test]
fn a_load_that_fails_is_named(rt: HostRuntime) -> Result<(), Fail> {
    let alloc = rt.alloc();
    let cases: [(&[&str], u64, Which, &[u8]); 3] = [
        (
            &["sync", "p", "s"],
            1,
            Which::Program,
            b"felm: cannot read p\n",
        ),
        (
            &["sync", "p", "s"],
            2,
            Which::Script,
            b"felm: cannot read s\n",
        ),
        (&["graph", "p"], 1, Which::Program, b"felm: cannot read p\n"),
    ];
    for (texts_of_words, load, which, line) in cases {
        let mut files = texts(alloc)?;
        files.fail_at(load).map_err(|_| AllocError)?;
        let mut out = SureSink::make(alloc);
        let mut err = SureSink::make(alloc);
        let words = words(alloc, texts_of_words)?;
        let status = felm_once(alloc, words.as_slice(), &mut files, &mut out, &mut err);
        assert_eq!(rt; status, Status::Read { which });
        assert_eq!(rt; files.faults(), 1);
        assert_eq!(rt; out.bytes(), b"".as_slice());
        assert_eq!(rt; err.bytes(), line);
    }
    Ok(())
}

#[test]
fn a_script_that_is_not_there_comes_after_the_length(rt: HostRuntime) -> Result<(), Fail> {
    let alloc = rt.alloc();
    let mut long = Vec::new(alloc);
    long.resize(16_777_217, b' ')?;
    let (program, script) = (Which::Program, Which::Script);
    let cases: [(&[u8], Status, &[u8]); 2] = [
        (
            long.as_slice(),
            Status::TooLong { which: program },
            b"felm: p is too long\n",
        ),
        // But before anything that is wrong with the text of the program.
        (
            b"main =",
            Status::Read { which: script },
            b"felm: cannot read s\n",
        ),
    ];
    let words = words(alloc, &["sync", "p", "s"])?;
    for (text, status, line) in cases {
        let mut files = MemoryFiles::make(alloc);
        files.add("p", text).map_err(|_| AllocError)?;
        let mut out = SureSink::make(alloc);
        let mut err = SureSink::make(alloc);
        let left = felm_once(alloc, words.as_slice(), &mut files, &mut out, &mut err);
        assert_eq!(rt; left, status);
        assert_eq!(rt; out.bytes(), b"".as_slice());
        assert_eq!(rt; err.bytes(), line);
    }
    Ok(())
}

#[test]
fn a_put_that_fails_leaves_a_prefix(rt: HostRuntime) -> Result<(), Fail> {
    let alloc = rt.alloc();
    let words = words(alloc, &["sync", "p", "s"])?;
    // 62 bytes in pieces of ten are seven puts.
    for put in 1..9u64 {
        let mut files = texts(alloc)?;
        let mut out = MemorySink::make(alloc, 10);
        out.fail_at(put).map_err(|_| AllocError)?;
        let mut err = SureSink::make(alloc);
        let status = felm_once(alloc, words.as_slice(), &mut files, &mut out, &mut err);
        let written = ((put - 1) * 10).min(62) as usize;
        assert_eq!(rt; out.bytes(), RESULT.get(..written).ok_or("short")?);
        assert_eq!(rt; files.faults(), 0);
        assert_eq!(rt; out.faults(), u64::from(put <= 7));
        if put <= 7 {
            assert_eq!(rt; status, Status::Write);
            assert_eq!(rt; err.bytes(), b"felm: cannot write\n".as_slice());
        } else {
            assert_eq!(rt; status, Status::Success);
            assert_eq!(rt; err.bytes(), b"".as_slice());
        }
    }
    Ok(())
}

#[test]
fn a_line_that_cannot_be_put_changes_no_status(rt: HostRuntime) -> Result<(), Fail> {
    let alloc = rt.alloc();
    let words = words(alloc, &["sync", "p", "absent"])?;
    for put in 1..4u64 {
        let mut files = texts(alloc)?;
        let mut out = SureSink::make(alloc);
        let mut err = MemorySink::make(alloc, 4);
        err.fail_at(put).map_err(|_| AllocError)?;
        let status = felm_once(alloc, words.as_slice(), &mut files, &mut out, &mut err);
        let which = Which::Script;
        assert_eq!(rt; status, Status::Read { which });
        let written = ((put - 1) * 4) as usize;
        assert_eq!(rt;
            err.bytes(),
            b"felm: cannot read absent\n".get(..written).ok_or("short")?
        );
    }
    Ok(())
}

#[test]
fn limits_have_their_defaults(rt: HostRuntime) {
    let limits = Limits::DEFAULT;
    assert_eq!(rt; limits.workers, 2);
    assert_eq!(rt; limits.turn_steps, 10_000);
    assert_eq!(rt; limits.stage_steps, 100_000);
    assert_eq!(rt; limits.edge, 16);
    assert_eq!(rt; limits.journal, 1_048_576);
}
