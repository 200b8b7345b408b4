//! Programs that are done: their results, worked out by hand.
use super::texts::{Left, PROGRAM, RESULT, SCRIPT, command, doubling, results_in, showing};
use crate::{StageCause, Status};
use std::alloc::Global;
use std::test::Fail;

#[test]
fn a_result_is_printed(rt: HostRuntime) -> Result<(), Fail> {
    assert!(rt; results_in(rt.alloc(), PROGRAM, SCRIPT, RESULT)?);
    Ok(())
}

#[test]
fn a_graph_is_printed(rt: HostRuntime) -> Result<(), Fail> {
    let expression = "lift2 (\\a:int.\\b:int. a + b) x (async (lift1 (\\n:int. n * 10) x))";
    let program = showing(rt.alloc(), expression)?;
    let left = command(rt.alloc(), &["graph", "p"], program.as_slice(), b"")?;
    assert_eq!(rt; left.status, Status::Success);
    assert_eq!(rt;
        left.out.bytes(),
        b"felm-graph 1\n0 input x : int = 0\n1 lift1 (\\v0:int. (v0 * 10)) 0\n2 async 1\n3 lift2 (\\v0:int. (\\v1:int. (v0 + v1))) 0 2\nmain 3\n".as_slice()
    );
    assert_eq!(rt; left.err.bytes(), b"".as_slice());
    Ok(())
}

/// What `sync` leaves of an expression over functions on numbers: `f` with the number 14 takes more
/// steps than a turn may.
fn heavy(alloc: Global, rest: &str, script: &[u8]) -> Result<Left, Fail> {
    let expression = doubling(alloc, "\\n:int. n + 1", "\\n:int.", 14, rest)?;
    let program = showing(alloc, expression.as_str())?;
    command(alloc, &["sync", "p", "s"], program.as_slice(), script)
}

#[test]
fn a_heavy_turn_stops_the_run(rt: HostRuntime) -> Result<(), Fail> {
    let cases: [(&str, u64, &[u8], &[u8]); 2] = [
        (
            "lift1 f14 x",
            0,
            b"felm-stopped 1\nstopped 1 0\n",
            b"felm: node 1 takes more than 10000 steps at event 0\n",
        ),
        (
            "lift1 (\\n:int. if n then f14 n else 0) x",
            2,
            b"felm-stopped 1\n1 x 0\n2 x 1\nstopped 1 2\n",
            b"felm: node 1 takes more than 10000 steps at event 2\n",
        ),
    ];
    for (rest, position, text, line) in cases {
        let left = heavy(rt.alloc(), rest, b"x 0\nx 1\nx 2\n")?;
        let node = 1;
        assert_eq!(rt; left.status, Status::Turn { node, position });
        assert_eq!(rt; left.out.bytes(), text);
        assert_eq!(rt; left.err.bytes(), line);
    }
    Ok(())
}

#[test]
fn a_heavy_stage_one_is_refused(rt: HostRuntime) -> Result<(), Fail> {
    let first = "\\n:int. n + 1 + 1 + 1 + 1 + 1 + 1 + 1 + 1 + 1 + 1";
    let rest = "if f14 0 then x else x";
    let expression = doubling(rt.alloc(), first, "\\n:int.", 14, rest)?;
    let program = showing(rt.alloc(), expression.as_str())?;
    let left = command(rt.alloc(), &["sync", "p", "s"], program.as_slice(), b"")?;
    let cause = StageCause::Over;
    assert_eq!(rt; left.status, Status::Stage { cause });
    assert_eq!(rt; left.out.bytes(), b"".as_slice());
    assert_eq!(rt;
        left.err.bytes(),
        b"felm: stage one takes more than 100000 steps\n".as_slice()
    );
    Ok(())
}

#[test]
fn a_full_journal_ends_the_run(rt: HostRuntime) -> Result<(), Fail> {
    let mut script = Vec::new(rt.alloc());
    for _event in 0..1_048_577 {
        script.extend_from_slice(b"x 1\n")?;
    }
    let left = command(rt.alloc(), &["sync", "p", "s"], PROGRAM, script.as_slice())?;
    assert_eq!(rt; left.status, Status::Journal);
    assert!(rt;
        left.out
            .bytes()
            .ends_with(b"\n1048576 x 1 change 1\nfull 1048576\n")
    );
    assert_eq!(rt;
        left.err.bytes(),
        b"felm: the journal is full at 1048576 events\n".as_slice()
    );
    Ok(())
}
