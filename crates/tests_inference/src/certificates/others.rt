// Other blocks of tasks: the bound of a function, or the first fault.
use crate::certificates::texts;
use crate::certificates::told::{Other, told_of_other};
use raml_syntax::FunId;
use std::alloc::Global;
use std::process::Abort;
use std::test::Fail;

// What is asked, and what is answered. The block is that of the certificate with a part changed.
struct Case {
    place: usize,
    times: i128,
    fun: u32,
    old: &'static str,
    new: &'static str,
    want: &'static str,
}

const OF_APPEND: [Case; 4] = [
    // its own block
    Case {
        place: 3,
        times: 1,
        fun: 0,
        old: "",
        new: "",
        want: "1*<[_], []>",
    },
    // three halves a list element, where the least is one
    Case {
        place: 3,
        times: 2,
        fun: 0,
        old: r#"[[[0,"1"]]]},{"call":[[0,"1"]]}]],"kind":"cells","sigs":[[[[2,"1"]],[]]]"#,
        new: r#"[[[0,"2"]]]},{"call":[[0,"2"]]}]],"kind":"cells","sigs":[[[[2,"3"]],[]]]"#,
        want: "3/2*<[_], []>",
    },
    // of what is bound 1 is left, and a cell costs 2
    Case {
        place: 3,
        times: 2,
        fun: 0,
        old: r#"[[[0,"1"]]]},{"call":[[0,"1"]]}]],"kind":"cells","sigs":[[[[2,"1"]],[]]]"#,
        new: r#"[[[0,"1"]]]},{"call":[[0,"1"]]}]],"kind":"cells","sigs":[[[[2,"3"]],[]]]"#,
        want: "block 3 fails at 0.1.1 index 0",
    },
    // positions are those of the task
    Case {
        place: 3,
        times: 2,
        fun: 0,
        old: r#""sigs":[[[[2,"1"]],[]]]"#,
        new: r#""sigs":[[[[3,"1"]],[]]]"#,
        want: "block 3 is not in the schedule",
    },
];

// 2^126 is 85070591730234615865843651857942052864.
const OF_CALL: [Case; 5] = [
    // the function that is called asks for 4
    Case {
        place: 4,
        times: 2,
        fun: 1,
        old: r#"[{"call":[]}]],"kind":"ticks","sigs":[[[[0,"2"]],[]]]"#,
        new: r#"[{"call":[]}]],"kind":"ticks","sigs":[[[[0,"5"]],[]]]"#,
        want: "5/2",
    },
    Case {
        place: 4,
        times: 2,
        fun: 1,
        old: r#"[{"call":[]}]],"kind":"ticks","sigs":[[[[0,"2"]],[]]]"#,
        new: r#"[{"call":[]}]],"kind":"ticks","sigs":[[[[0,"3"]],[]]]"#,
        want: "block 4 fails at 0 index 0",
    },
    // twice 2^126 is asked for
    Case {
        place: 4,
        times: 85070591730234615865843651857942052864,
        fun: 1,
        old: "",
        new: "",
        want: "overflow at block 4 at 0 index 0",
    },
    // a tick costs 2^126, and the function makes two
    Case {
        place: 1,
        times: 85070591730234615865843651857942052864,
        fun: 0,
        old: "",
        new: "",
        want: "overflow at block 1 at 0 index 0",
    },
    // the scale of cells is 2, and no cell is made
    Case {
        place: 5,
        times: 85070591730234615865843651857942052864,
        fun: 1,
        old: "",
        new: "",
        want: "overflow at block 5 at  index 0",
    },
];

// The certificate's block waits.
const OF_TRIPLES: [Case; 1] = [Case {
    place: 12,
    times: 1,
    fun: 2,
    old: r#"{"calls":1,"group":2,"kind":"ticks"}"#,
    new: r#"{"group":2,"hints":[[]],"kind":"ticks","sigs":[[[],[]]]}"#,
    want: "block 12 is not in the schedule",
}];

// The certificate's block refutes, so that its contexts were not looked at. They are too large, be there hints for
// the function or not.
const OF_BIG: [Case; 2] = [
    Case {
        place: 1,
        times: 1,
        fun: 0,
        old: r#"{"farkas":[],"group":0,"kind":"ticks"}"#,
        new: r#"{"group":0,"hints":[[]],"kind":"ticks","sigs":[[[],[]]]}"#,
        want: "too large: group 0 ticks",
    },
    Case {
        place: 2,
        times: 1,
        fun: 0,
        old: r#"{"farkas":[],"group":0,"kind":"cells"}"#,
        new: r#"{"group":0,"hints":[],"kind":"cells","sigs":[[[],[]]]}"#,
        want: "too large: group 0 cells",
    },
];

fn cases_are_told(
    rt: &impl Abort,
    alloc: Global,
    source: &str,
    certificate: &str,
    cases: &[Case],
) -> Result<(), Fail> {
    for case in cases {
        let asked = Other {
            place: case.place,
            times: case.times,
            fun: FunId(case.fun),
        };
        let found = told_of_other(alloc, source, certificate, case.old, case.new, &asked)?;
        assert_eq!(rt; found.as_str(), case.want);
    }
    Ok(())
}

#[test]
fn others_of_append_are_told(rt: HostRuntime) -> Result<(), Fail> {
    cases_are_told(
        &rt,
        rt.alloc(),
        texts::APPEND,
        texts::APPEND_CERTIFICATE,
        &OF_APPEND,
    )
}

#[test]
fn others_of_a_call_are_told(rt: HostRuntime) -> Result<(), Fail> {
    cases_are_told(
        &rt,
        rt.alloc(),
        texts::CALL,
        texts::CALL_CERTIFICATE,
        &OF_CALL,
    )
}

#[test]
fn others_of_triples_are_told(rt: HostRuntime) -> Result<(), Fail> {
    cases_are_told(
        &rt,
        rt.alloc(),
        texts::TRIPLES,
        texts::TRIPLES_CERTIFICATE,
        &OF_TRIPLES,
    )
}

#[test]
fn others_of_large_contexts_are_told(rt: HostRuntime) -> Result<(), Fail> {
    cases_are_told(&rt, rt.alloc(), texts::BIG, texts::BIG_CERTIFICATE, &OF_BIG)
}
