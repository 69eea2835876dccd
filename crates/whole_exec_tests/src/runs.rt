//! Programs with their whole runs, worked out by hand.

use crate::answers::{Want, comes};
use std::test::Fail;
use store_exec::Cause;

/// A program, the number of a procedure, a store, and what comes of so many steps at most.
struct Run {
    program: &'static [u8],
    number: u32,
    store: &'static [u8],
    answers: &'static [(u32, Want)],
}

static RUNS: &[Run] = &[
    // A loop of two rounds. A round is the cut, the condition, the `if` and an assignment; then come the cut, the condition and the
    // exit.
    Run {
        program: b"proc p(bool a, bool b) {
  while (a || b) [true] {
    if (a) { a = false; } else { b = false; }
  }
}",
        number: 0,
        store: b"store
var a true
var b true
end
",
        answers: &[
            (0, Want::Running),
            (10, Want::Running),
            (11, Want::Exit("next 1: false false;")),
            (12, Want::Exit("next 1: false false;")),
        ],
    },
    // A call in a loop. A round is the cut, the condition, the call, two assignments of the callee, its exit, the return, the `if` and
    // an assignment.
    Run {
        program: b"type N = { data n: N; }
proc g(data d: N) returns (data e: N) {
  e = new N;
  e.n = d;
}
proc p(data x: N, bool a, bool b) returns (data y: N) {
  while (a || b) [true] {
    call x = g(x);
    if (a) { a = false; } else { b = false; }
  }
  y = x;
}",
        number: 1,
        store: b"store
var x null
var a true
var b true
var y null
end
",
        answers: &[
            (3, Want::Running),
            (21, Want::Running),
            (22, Want::Exit("next 3: null false false 2; 1 2")),
        ],
    },
    // The callee frees its cell twice.
    Run {
        program: b"type N = { data n: N; }
proc g(data d: N) {
  free d;
  free d;
}
proc p(data x: N) {
  call g(x);
}",
        number: 1,
        store: b"store
var x 1
cell 1 N n=null
end
",
        answers: &[
            (2, Want::Running),
            (3, Want::Fail(Cause::DoubleFree, 4)),
            (100, Want::Fail(Cause::DoubleFree, 4)),
        ],
    },
    // A list of two cells is freed by recursion: six steps for each cell, two for the empty list, and then a return and an exit for
    // each cell.
    Run {
        program: b"type N = { data n: N; }
proc r(data d: N) {
  data e: N;
  if (d != null) {
    e = d.n;
    d.n = null;
    free d;
    d = null;
    call r(e);
  }
}",
        number: 0,
        store: b"store
var d 1
var e null
cell 1 N n=2
cell 2 N n=null
end
",
        answers: &[
            (1, Want::Running),
            (17, Want::Running),
            (18, Want::Exit("next 3: null null;")),
        ],
    },
    // A pointer variable of the caller names a cell that is handed over.
    Run {
        program: b"type N = { data n: N; }
proc g(data d: N) { }
proc p(data x: N) {
  pointer q: N;
  q = x;
  call g(x);
}",
        number: 1,
        store: b"store
var x 1
var q null
cell 1 N n=null
end
",
        answers: &[(1, Want::Running), (2, Want::Fail(Cause::Escape, 6))],
    },
    // At the exit the local is null, and nothing leads to its cell.
    Run {
        program: b"type N = { data n: N; }
proc p() {
  data x: N;
  x = new N;
}",
        number: 0,
        store: b"store
var x null
end
",
        answers: &[(1, Want::Running), (2, Want::Fail(Cause::Leak, 5))],
    },
];

#[test]
fn runs_have_these_answers(rt: HostRuntime) -> Result<(), Fail> {
    let alloc = rt.alloc();
    for run in RUNS {
        for (steps, want) in run.answers {
            assert!(rt;
                comes(alloc, run.program, run.number, run.store, *steps, *want)?,
                "after {steps} steps"
            );
        }
    }
    Ok(())
}
