// Whole calls over files and streams in memory that fail, and the number of each status.
use crate::streams::{sink_of, store_of};
use bound_infer::InferFault;
use constraint_gen::What;
use cost_free::{Meter, Task, TaskKind};
use price_file::PriceFault;
use raml_lex::LexFault;
use raml_parse::ParseFault;
use raml_syntax::{FunId, Pos};
use raml_top::{CertAnswer, OverflowAt, SourceFault, Status, Which, raml};
use simple_types::TypeFault;
use std::test::Fail;
use value_text::DataFault;

const FIRST: &[u8] = b"fun main (x : int) : int = tick 3 in x";

const FIRST_REPORT: &[u8] = b"main ticks <= 3\nmain cells <= 0\nmain work <= 3\n";

#[test]
fn faults_of_the_outside_have_their_status(rt: HostRuntime) -> Result<(), Fail> {
    let alloc = rt.alloc();
    let unread: &[u8] = b"raml: cannot read program\n";
    let unwritten: &[u8] = b"raml: write failed\n";
    // The file's name; the reads, the puts on out and the puts on err that fail; and what comes of it.
    let cases: [(&str, &[u64], &[u64], &[u64], u8, &[u8], &[u8]); 8] = [
        ("f.raml", &[], &[], &[], 0, FIRST_REPORT, b""),
        ("", &[], &[], &[], 2, b"", unread),
        ("f.ram", &[], &[], &[], 2, b"", unread),
        ("f.raml", &[0], &[], &[], 2, b"", unread),
        ("f.raml", &[1], &[], &[0], 0, FIRST_REPORT, b""),
        ("f.raml", &[], &[0], &[], 12, b"", unwritten),
        ("f.raml", &[], &[1], &[], 12, b"main ticks", unwritten),
        ("f.raml", &[], &[1], &[1], 12, b"main ticks", b"raml: writ"),
    ];
    for (name, reads, puts, lines, want, report, line) in cases {
        let mut store = store_of(alloc, FIRST, b"5", reads)?;
        let mut out = sink_of(alloc, puts)?;
        let mut err = sink_of(alloc, lines)?;
        let words = ["analyse", name, "--degree", "1"];
        let status = raml(alloc, &words, &mut store, &mut out, &mut err);
        assert_eq!(rt; status.code(), want);
        assert_eq!(rt; out.bytes(), report);
        assert_eq!(rt; err.bytes(), line);
    }
    Ok(())
}

#[test]
fn faults_of_the_data_have_their_status(rt: HostRuntime) -> Result<(), Fail> {
    let alloc = rt.alloc();
    let report: &[u8] = b"value 5\nticks 3\ncells 0\ninstructions 3\n";
    let stopped: &[u8] = b"stopped\nticks 3\ncells 0\ninstructions 1\n";
    // The reads and the puts on out that fail, the steps, and what comes of it.
    let cases: [(&[u64], &[u64], &str, u8, &[u8], &[u8]); 7] = [
        (&[], &[], "3", 0, report, b""),
        (&[], &[], "1", 10, stopped, b""),
        (&[0], &[], "3", 2, b"", b"raml: cannot read program\n"),
        (&[1], &[], "3", 2, b"", b"raml: cannot read data\n"),
        (&[2], &[], "3", 0, report, b""),
        (&[], &[1], "3", 12, b"value 5\nti", b"raml: write failed\n"),
        (&[], &[1], "1", 12, b"stopped\nti", b"raml: write failed\n"),
    ];
    for (reads, puts, steps, want, report, line) in cases {
        let mut store = store_of(alloc, FIRST, b"5", reads)?;
        let mut out = sink_of(alloc, puts)?;
        let mut err = sink_of(alloc, &[])?;
        let words = ["run", "f.raml", "main", "d", "--steps", steps];
        let status = raml(alloc, &words, &mut store, &mut out, &mut err);
        assert_eq!(rt; status.code(), want);
        assert_eq!(rt; out.bytes(), report);
        assert_eq!(rt; err.bytes(), line);
    }
    Ok(())
}

#[test]
fn each_status_has_its_number(rt: HostRuntime) {
    let at = Pos(0);
    let which = Which::Program;
    let meter = Meter::Work;
    let kind = TaskKind::With(meter);
    let task = Task { group: 0, kind };
    let cases = [
        (Status::Done, 0),
        (Status::Usage, 1),
        (Status::ReadFault { which }, 2),
        (Status::TooLong { which }, 3),
        (
            Status::Source(SourceFault::Parse(ParseFault::Lex(LexFault::BadChar { at }))),
            4,
        ),
        (
            Status::Source(SourceFault::Type(TypeFault::NeedsType { at })),
            4,
        ),
        (Status::Data(DataFault::Shape { at }), 5),
        (Status::NoFunction, 6),
        (Status::Certificate(CertAnswer::NotRefuted { block: 0 }), 7),
        (
            Status::TooLarge {
                task,
                what: What::Rows,
            },
            8,
        ),
        (Status::Overflow(OverflowAt::Point { meter }), 9),
        (Status::Stopped, 10),
        (Status::HeapFull, 11),
        (Status::WriteFault, 12),
        (Status::Prices(PriceFault::Shape { line: 1 }), 15),
        (
            Status::OtherSource(SourceFault::Parse(ParseFault::Syntax { at })),
            16,
        ),
        (Status::OtherFault(InferFault::NoMemory), 17),
        (
            Status::Overflow(OverflowAt::Powers {
                fun: FunId(0),
                meter,
            }),
            9,
        ),
        (Status::NoMemory, 70),
    ];
    for (status, number) in cases {
        assert_eq!(rt; status.code(), number);
    }
}
