// Reads and puts that fail, each in turn.
use crate::outcome::{Faults, NO_FAULTS, outcome};
use std::alloc::Global;
use std::fmt::Write;
use std::test::Fail;

const FIRST: &str = "fun main (x : int) : int = tick 3 in x";

// The certificate of its analysis at degree 1 with the meters of version 1.
const FOR_FIRST: &str =
    r#"{"blocks":[{"budget":0,"function":0,"group":0,"hints":[[]],"kind":"free","sigs":[[[[0,"1"]],[[0,"1"]]]],"target":0},{"group":0,"hints":[[]],"kind":"ticks","sigs":[[[[0,"3"]],[]]]},{"group":0,"hints":[[]],"kind":"cells","sigs":[[[],[]]]}],"degree":1,"scale":{"cells":"1","ticks":"1"},"version":1}"#;

// It leaves so much of ticks that the price of 3 ticks beside it is above 128 bits.
const LEAVES: &str =
    r#"{"blocks":[{"budget":0,"function":0,"group":0,"hints":[[]],"kind":"free","sigs":[[[[0,"1"]],[[0,"1"]]]],"target":0},{"group":0,"hints":[[]],"kind":"ticks","sigs":[[[[0,"3"]],[[0,"170141183460469231731687303715884105727"]]]]},{"group":0,"hints":[[]],"kind":"cells","sigs":[[[],[]]]}],"degree":1,"scale":{"cells":"1","ticks":"1"},"version":1}"#;

// The words of a call, the read that fails, and how the outcome begins. Where the certificate is read, it is in
// the file of the data; no call makes more reads than it has files.
const READS: &str = r#"types f.raml => 0 => 2||raml: cannot read program
types f.raml => 1 => 0|main (int) : int
code f.raml => 0 => 2||raml: cannot read program
code f.raml => 1 => 0|fun main
analyse f.raml --degree 1 => 0 => 2||raml: cannot read program
analyse f.raml --degree 1 => 1 => 0|main ticks <= 3
certify f.raml --degree 1 => 0 => 2||raml: cannot read program
certify f.raml --degree 1 => 1 => 0|{"blocks":
verify f.raml d => 0 => 2||raml: cannot read program
verify f.raml d => 1 => 2||raml: cannot read certificate
verify f.raml d => 2 => 0|main ticks <= 3
run f.raml main d => 0 => 2||raml: cannot read program
run f.raml main d => 1 => 2||raml: cannot read data
run f.raml main d => 2 => 0|value 5
run f.raml main d --degree 1 => 0 => 2||raml: cannot read program
run f.raml main d --degree 1 => 1 => 2||raml: cannot read data
run f.raml main d --degree 1 => 2 => 0|value 5
priced f.raml d --degree 1 => 0 => 2||raml: cannot read program
priced f.raml d --degree 1 => 1 => 2||raml: cannot read prices
priced f.raml d --degree 1 => 2 => 15||raml: prices: line 1: shape
spend f.raml d main d => 0 => 2||raml: cannot read program
spend f.raml d main d => 1 => 2||raml: cannot read prices
spend f.raml d main d => 2 => 15||raml: prices: line 1: shape
compare f.raml f.raml --degree 1 => 0 => 2||raml: cannot read program
compare f.raml f.raml --degree 1 => 1 => 2||raml: cannot read other
compare f.raml f.raml --degree 1 => 2 => 0|main ticks equal
powers f.raml --degree 1 => 0 => 2||raml: cannot read program
powers f.raml --degree 1 => 1 => 0|main ticks <= 3
trial 1 => 0 => 0|functions 2"#;

#[test]
fn each_read_of_each_command_fails_in_turn(rt: HostRuntime) -> Result<(), Fail> {
    let alloc = rt.alloc();
    for line in READS.lines() {
        let fields: Vec<&str> = line.split(" => ").collect(alloc)?;
        let [words, read, front] = fields.as_slice() else {
            return Err(Fail::from("a line of another kind"));
        };
        let Ok(read) = read.parse::<u64>() else {
            return Err(Fail::from("no number"));
        };
        let data = if words.starts_with("verify") {
            FOR_FIRST
        } else {
            "5"
        };
        let words: Vec<&str> = words.split(' ').collect(alloc)?;
        let reads = [read];
        let faults = Faults {
            reads: &reads,
            ..NO_FAULTS
        };
        let found = outcome(alloc, &words, FIRST, data, faults)?;
        assert!(rt; found.as_str().starts_with(*front), "at {line}");
    }
    Ok(())
}

const QUICKSORT: &str = "\
fun append (x : int list, y : int list) : int list = match x with nil -> y | h :: t -> h :: append(t, y)
fun part (p : int, l : int list) : int list * int list = match l with nil -> (nil, nil) | h :: t -> let (a, b) = part(p, t) in tick 1 in if h < p then (h :: a, b) else (a, h :: b)
fun qsort (l : int list) : int list = match l with nil -> nil | h :: t -> let (a, b) = part(h, t) in append(qsort(a), h :: qsort(b))";

const QUICKSORT_LINES: &str = "\
append ticks <= 0
append cells <= 1*<[_], []>
append work <= 4 + 7*<[_], []>
part ticks <= 1*<_, [_]>
part cells <= 1 + 2*<_, [_]>
part work <= 6 + 16*<_, [_]>
qsort ticks <= 1*<[_, _]>
qsort cells <= 2*<[_]> + 3*<[_, _]>
qsort work <= 4 + 24*<[_]> + 23*<[_, _]>
";

// After a fault at a put, out holds the bytes of the puts before it. All of the first 64 puts are tried, and from
// there each seventh.
#[test]
fn each_put_of_a_report_fails_in_turn(rt: HostRuntime) -> Result<(), Fail> {
    let alloc = rt.alloc();
    let words = ["analyse", "f.raml", "--degree", "2"];
    for put in 0..QUICKSORT_LINES.len() {
        if put > 64 && put % 7 != 0 {
            continue;
        }
        let puts = [put as u64];
        let faults = Faults {
            puts: &puts,
            ..NO_FAULTS
        };
        let mut want = String::from_str(alloc, "12|")?;
        want.push_str(QUICKSORT_LINES.get(..put).unwrap_or(""))?;
        want.push_str("|raml: write failed\n")?;
        let found = outcome(alloc, &words, QUICKSORT, "", faults)?;
        assert_eq!(rt; found.as_str(), want.as_str(), "at {put}");
    }
    Ok(())
}

// The type has 2380 indices of degree 4 or less.
const BIG: &str =
    "fun big (x : int list * int list * int list * int list * int list * int list * int list * int list * int list * int list * int list * int list * int list) : int = 0";

// A fault of err leaves status and out as they are, and err holds the bytes of the puts before it.
#[test]
fn each_put_of_a_line_fails_in_turn(rt: HostRuntime) -> Result<(), Fail> {
    let alloc = rt.alloc();
    // Words, the source, the data, the puts on out that fail, the status with what stands on out, and the line, or
    // its beginning.
    let cases: [(&str, &str, &str, &[u64], &str, &str); 11] = [
        ("analyse f.raml", FIRST, "", &[], "1||", "raml: usage\n"),
        (
            "types g.raml",
            FIRST,
            "",
            &[],
            "2||",
            "raml: cannot read program\n",
        ),
        (
            "types f.raml",
            "fun",
            "",
            &[],
            "4||",
            "raml: source: syntax at 3\n",
        ),
        (
            "run f.raml main d",
            FIRST,
            "[",
            &[],
            "5||",
            "raml: data: shape at 0\n",
        ),
        (
            "run f.raml nope d",
            FIRST,
            "5",
            &[],
            "6||",
            "raml: no function\n",
        ),
        (
            "verify f.raml d",
            FIRST,
            "x",
            &[],
            "7||",
            "raml: certificate: not json\n",
        ),
        (
            "analyse f.raml --degree 4",
            BIG,
            "",
            &[],
            "8||",
            "raml: too large: big ticks: indices\n",
        ),
        (
            "verify f.raml d",
            FIRST,
            LEAVES,
            &[],
            "9||",
            "raml: overflow: check block 1 at ",
        ),
        (
            "run f.raml main d --steps 1",
            FIRST,
            "5",
            &[],
            "10|stopped\nticks 3\ncells 0\ninstructions 1\n|",
            "",
        ),
        (
            "types f.raml",
            FIRST,
            "",
            &[4],
            "12|main|",
            "raml: write failed\n",
        ),
        ("types f.raml", FIRST, "", &[], "0|main (int) : int\n|", ""),
    ];
    for (words, source, data, puts, front, line) in cases {
        let words: Vec<&str> = words.split(' ').collect(alloc)?;
        for put in 0..line.len().max(1) {
            let lines = [put as u64];
            let faults = Faults {
                puts,
                lines: &lines,
                ..NO_FAULTS
            };
            let mut want = String::new(alloc);
            write!(want, "{front}{}", line.get(..put).unwrap_or(""))?;
            let found = outcome(alloc, &words, source, data, faults)?;
            assert_eq!(rt; found.as_str(), want.as_str(), "at {line}");
        }
    }
    Ok(())
}

// Two numbers in so many bytes, with white space behind the first one.
fn spaced(alloc: Global, length: usize) -> Result<String, Fail> {
    let mut data = String::from_str(alloc, "(5")?;
    for place in 6..length {
        data.push_str(if place % 64 == 0 { "\n" } else { " " })?;
    }
    data.push_str(", 0)")?;
    Ok(data)
}

// The line of data that is too long is cut off after four bytes.
#[test]
fn the_line_of_long_data_is_cut_off(rt: HostRuntime) -> Result<(), Fail> {
    let alloc = rt.alloc();
    let source = "fun quot (x : int, y : int) : int = x div y";
    let data = spaced(alloc, 4_194_305)?;
    let faults = Faults {
        lines: &[4],
        ..NO_FAULTS
    };
    let words = ["run", "f.raml", "quot", "d"];
    let found = outcome(alloc, &words, source, data.as_str(), faults)?;
    assert_eq!(rt; found.as_str(), "3||raml");
    Ok(())
}
