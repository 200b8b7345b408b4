//! Texts of programs and scripts, and the top call on them.
use crate::{Status, felm, felm_over_sure};
use felm_io::{SureFiles, SureSink};
use felm_workers::Gate;
use std::alloc::{AllocError, Global};
use std::sync::Wait;
use std::test::Fail;
use std::thread::Threads;

/// The program that shows its input `x`.
pub const PROGRAM: &[u8] = b"input x : int = 0\nmain = x\n";

/// A script for it.
pub const SCRIPT: &[u8] = b"x 5\nx 5\n";

/// Their result text, of 62 bytes.
pub const RESULT: &[u8] = b"felm-result 1\n0 default 0\n1 x 5 change 5\n2 x 5 change 5\nend 2\n";

/// What a command leaves: its status, and what it puts to `out` and to `err`.
#[derive(Drop)]
pub struct Left {
    pub status: Status,
    pub out: SureSink,
    pub err: SureSink,
}

/// The words of a command line.
pub fn words(alloc: Global, texts: &[&str]) -> Result<Vec<String>, AllocError> {
    let mut words = Vec::new(alloc);
    for text in texts {
        words.push(String::from_str(alloc, text)?)?;
    }
    Ok(words)
}

/// What a command leaves where `p` and `s` name these texts.
pub fn command(alloc: Global, texts: &[&str], program: &[u8], script: &[u8]) -> Result<Left, Fail> {
    let mut files = SureFiles::make(alloc);
    files.add("p", program).map_err(|_| AllocError)?;
    files.add("s", script).map_err(|_| AllocError)?;
    let mut out = SureSink::make(alloc);
    let mut err = SureSink::make(alloc);
    let words = words(alloc, texts)?;
    let status = felm_over_sure(alloc, words.as_slice(), &mut files, &mut out, &mut err);
    Ok(Left { status, out, err })
}

/// The same by the call that may wait, with this gate.
pub fn called<G: Gate + Sync, R: Threads + Wait + Sync>(
    rt: &R,
    alloc: Global,
    texts: &[&str],
    program: &[u8],
    script: &[u8],
    gate: &G,
) -> Result<Left, Fail> {
    let mut files = SureFiles::make(alloc);
    files.add("p", program).map_err(|_| AllocError)?;
    files.add("s", script).map_err(|_| AllocError)?;
    let mut out = SureSink::make(alloc);
    let mut err = SureSink::make(alloc);
    let words = words(alloc, texts)?;
    let status = felm(
        rt,
        alloc,
        words.as_slice(),
        &mut files,
        &mut out,
        &mut err,
        gate,
    );
    Ok(Left { status, out, err })
}

/// Whether `sync` of two texts succeeds with this result, and puts no line.
pub fn results_in(
    alloc: Global,
    program: &[u8],
    script: &[u8],
    wanted: &[u8],
) -> Result<bool, Fail> {
    let left = command(alloc, &["sync", "p", "s"], program, script)?;
    Ok(left.status == Status::Success && left.out.bytes() == wanted && left.err.bytes().is_empty())
}

/// Whether `sync` of two texts is refused with this status and this line, and nothing else is put.
pub fn is_refused(
    alloc: Global,
    program: &[u8],
    script: &[u8],
    status: Status,
    line: &[u8],
) -> Result<bool, Fail> {
    let left = command(alloc, &["sync", "p", "s"], program, script)?;
    Ok(left.status == status && left.out.bytes().is_empty() && left.err.bytes() == line)
}

/// The program with one input `x` of numbers, and this expression of `main`.
pub fn showing(alloc: Global, expression: &str) -> Result<Vec<u8>, AllocError> {
    let text = format!(in alloc; "input x : int = 0\nmain = {expression}\n")?;
    Ok(text.into_bytes())
}

/// An expression in which `f1` is this function, each of the functions up to `f` with this number
/// calls the one before it twice, and then comes the rest.
pub fn doubling(
    alloc: Global,
    first: &str,
    parameter: &str,
    last: u8,
    rest: &str,
) -> Result<String, AllocError> {
    let mut text = format!(in alloc; "let f1 = {first} in\n")?;
    for number in 2..=last {
        let before = number - 1;
        let line = format!(in alloc; "let f{number} = {parameter} f{before} (f{before} n) in\n")?;
        text.push_str(line.as_str())?;
    }
    text.push_str(rest)?;
    Ok(text)
}
