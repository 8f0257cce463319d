// Heads that do not fit, which no text has, and some that do.
use crate::certificates::texts::{MAIN, MAIN_CERTIFICATE};
use crate::certificates::told::cert_fault;
use crate::programs::{certificate, typed_program};
use annot_types::Certificate;
use call_groups::group_calls;
use cert_check::check_with;
use rules_plan::KeptPlans;
use share_normal::normalise;
use std::alloc::Global;
use std::test::Fail;

// What becomes of the head of a certificate.
#[derive(Clone, Copy)]
enum Head {
    Stays,
    Degree(u8),
    Ticks(i128),
    Cells(i128),
    Work(i128),
}

fn set_head(certificate: &mut Certificate, head: Head) {
    match head {
        Head::Stays => {}
        Head::Degree(degree) => certificate.degree = degree,
        Head::Ticks(scale) => certificate.ticks_scale = scale,
        Head::Cells(scale) => certificate.cells_scale = scale,
        Head::Work(scale) => certificate.work_scale = Some(scale),
    }
}

// What is told of the certificate of three ticks with this head, checked with no plans that were made before.
fn told(alloc: Global, head: Head) -> Result<String, Fail> {
    let typed = typed_program(alloc, MAIN)?;
    let groups = group_calls(alloc, typed.program())?;
    let program = normalise(alloc, &typed, groups)?;
    let mut certificate = certificate(alloc, MAIN_CERTIFICATE)?;
    set_head(&mut certificate, head);
    match check_with(alloc, &program, certificate, KeptPlans::new(alloc)) {
        Ok(_) => Ok(format!(in alloc; "held")?),
        Err(fault) => Ok(cert_fault(alloc, fault)?),
    }
}

// Heads, and what is found. The certificate has no number that stands for work.
const HEADS: [(Head, &str); 11] = [
    (Head::Stays, "held"),
    (Head::Degree(0), "block 0 is not in the schedule"),
    (Head::Degree(4), "held"),
    (Head::Degree(5), "block 0 is not in the schedule"),
    (Head::Ticks(0), "block 0 is not in the schedule"),
    (Head::Ticks(2), "block 1 fails at 0 index 0"),
    (Head::Cells(0), "block 0 is not in the schedule"),
    (Head::Cells(-1), "block 0 is not in the schedule"),
    (Head::Cells(2), "held"),
    (Head::Work(0), "block 0 is not in the schedule"),
    (Head::Work(1), "block 3 is not in the schedule"),
];

#[test]
fn heads_have_to_fit(rt: HostRuntime) -> Result<(), Fail> {
    for (head, want) in &HEADS {
        let found = told(rt.alloc(), *head)?;
        assert_eq!(rt; found.as_str(), *want);
    }
    Ok(())
}
