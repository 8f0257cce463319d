// Texts with their programs or their first fault, worked out by hand.
use self::shown::show_program;
use raml_parse::{ParseFault, parse};
use std::alloc::Global;
use std::fmt::Write;
use std::process::Abort;
use std::test::Fail;

mod shown;

// Adds the program that the source spells, or its first fault.
fn push_answer(out: &mut String, alloc: Global, source: &str) -> Result<(), Fail> {
    if source.len() >= 10000 {
        return Err(Fail::from("the source is long"));
    }
    match parse(alloc, source.as_bytes()) {
        Ok(program) => show_program(out, &program),
        Err(fault) => Ok(write!(out, "{fault:?}")?),
    }
}

fn answer(alloc: Global, source: &str) -> Result<String, Fail> {
    let mut out = String::new(alloc);
    push_answer(&mut out, alloc, source)?;
    Ok(out)
}

// Compares the answer to a source with what is wanted.
fn compare(rt: &impl Abort, alloc: Global, source: &str, want: &str) -> Result<(), Fail> {
    let found = answer(alloc, source)?;
    assert_eq!(rt; found.as_str(), want, "at {source}");
    Ok(())
}

// Each line of the table: a source, and the answer to it.
fn compare_all(rt: &impl Abort, alloc: Global, table: &str) -> Result<(), Fail> {
    for line in table.lines() {
        let Some((source, want)) = line.split_once(" => ") else {
            return Err(Fail::from("a line without an answer"));
        };
        compare(rt, alloc, source, want)?;
    }
    Ok(())
}

// Programs, each with its functions.
const PROGRAMS: &str = "\
fun main (x : int) : int = tick 3 in x => 0 main 10:x int : int = (27 tick 3 37:x);
(* one *)fun f(x:int,y:bool list tree):int*(int*int)=007 => 9 f 15:x int 21:y (tree (list bool)) : (* int (* int int)) = 53:7;
fun f (x : int) : int = x + 1 * 2 - x => 0 f 7:x int : int = (24 Sub (24 Add 24:x (28 Mul 28:1 32:2)) 36:x);
fun f (x : int) : bool = x div 2 mod 3 <= ((x)) => 0 f 7:x int : bool = (25 AtMost (25 Mod (25 Div 25:x 31:2) 37:3) 44:x);
fun f (x : int) : int list = x :: x + 1 :: nil => 0 f 7:x int : (list int) = (29 cons 29:x (34 cons (34 Add 34:x 38:1) 43:nil));
fun f (x : int) : int = ((x)) + not true => 0 f 7:x int : int = (24 Add 26:x (32 not 36:true));
fun f (x : int) : int = let (a, b) = (x, 2) in if a = b then g(a, b) else (nil : int list) => 0 f 7:x int : int = (24 let 29:a 32:b (37 pair 38:x 41:2) (47 if (50 Equal 50:a 54:b) (61 call g 63:a 66:b) (74 typed 75:nil (list int))));
fun f (x : int tree) : int = let y = leaf in match x with leaf -> 0 | node(a, l, r) -> node(a, l, r) => 0 f 7:x (tree int) : int = (29 let 33:y 37:leaf (45 match 51:x 66:0 75:a 78:l 81:r (87 node 92:a 95:l 98:r)));
fun f (x : int list) : int = match x with nil -> 0 | h :: t -> f(t) fun g(x:int):int = x < 1 => 0 f 7:x (list int) : int = (29 match 35:x 49:0 53:h 58:t (63 call f 65:t));68 g 74:x int : int = (87 Less 87:x 91:1);
fun f (x : int list option) : int option tree option = none => 0 f 7:x (option (list int)) : (option (tree (option int))) = 55:none;
fun f (x : (int * bool) option) : int = some(x) :: some(none) :: nil => 0 f 7:x (option (* int bool)) : int = (40 cons (40 some 45:x) (51 cons (51 some 56:none) 65:nil));
fun f (x : int option) : int = match x with none -> 0 | some(y) -> y + 1 => 0 f 7:x (option int) : int = (31 match 37:x 52:0 61:y (67 Add 67:y 71:1));
fun f (x : int * int option) : int = not some((none : int option)) + nones => 0 f 7:x (* int (option int)) : int = (37 Add (37 not (41 some (46 typed 47:none (option int)))) 69:nones);
fun f (x : int) : int = g(x,x,x,x,x,x,x,x) => 0 f 7:x int : int = (24 call g 26:x 28:x 30:x 32:x 34:x 36:x 38:x 40:x);";

#[test]
fn programs(rt: HostRuntime) -> Result<(), Fail> {
    compare_all(&rt, rt.alloc(), PROGRAMS)
}

// The faults of functions, and of bytes of other kinds.
const FUNCTIONS: &str = "\
fun => Syntax { at: Pos(3) }
 => Syntax { at: Pos(0) }
let => Syntax { at: Pos(0) }
fun 1 (x : int) : int = x => Syntax { at: Pos(4) }
fun in (x : int) : int = x => Syntax { at: Pos(4) }
fun option (x : int) : int = x => Syntax { at: Pos(4) }
fun none (x : int) : int = x => Syntax { at: Pos(4) }
fun some (x : int) : int = x => Syntax { at: Pos(4) }
fun f (option : int) : int = 1 => Syntax { at: Pos(7) }
fun f (none : int) : int = 1 => Syntax { at: Pos(7) }
fun f (some : int) : int = 1 => Syntax { at: Pos(7) }
fun f (x : option) : int = x => Syntax { at: Pos(11) }
fun f (x : none) : int = x => Syntax { at: Pos(11) }
fun f (x : some) : int = x => Syntax { at: Pos(11) }
fun f x => Syntax { at: Pos(6) }
fun f () : int = 1 => Syntax { at: Pos(7) }
fun f (x int) : int = x => Syntax { at: Pos(9) }
fun f (x : x) : int = x => Syntax { at: Pos(11) }
fun f (x : (int) : int = x => Syntax { at: Pos(17) }
fun f (x : int,) : int = x => Syntax { at: Pos(15) }
fun f (x : int) int = x => Syntax { at: Pos(16) }
fun f (x : int) : = x => Syntax { at: Pos(18) }
fun f (x : int) : int x => Syntax { at: Pos(22) }
fun f (x : int) : int = x fun => Syntax { at: Pos(29) }
fun f (x : int) : int = x x => Syntax { at: Pos(26) }
fun f (x : int) : int = $ => Lex(BadChar { at: Pos(24) })
let $ => Lex(BadChar { at: Pos(4) })
fun f (a:int,b:int,c:int,d:int,e:int,g:int,h:int,i:int,j:int) : int = a => TooMany { at: Pos(54) }";

#[test]
fn faults_of_functions(rt: HostRuntime) -> Result<(), Fail> {
    compare_all(&rt, rt.alloc(), FUNCTIONS)
}

// The place of the `Syntax` in a body, and the body behind `: `, whose first byte has place 0.
const BODIES: &str = "\
0: 
3: x +
4: x + + x
2: (x
5: (x, x
5: (x, x, x)
1: ()
5: (x : )
8: (x : int
8: (x : int, x)
2: x : int
4: let = x in x
6: let y x in x
8: let y = in x
10: let y = x x
12: let y = x in
6: let (y) = x in y
8: let (y, in) = x in y
9: let (y, z, w) = x in y
8: let (y, 1) = x in y
11: if x then x
5: if x else x
3: if then x else x
16: if x then x else
21: match x with nil -> x
13: match x with node -> x
17: match x with nil x
26: match x with nil -> x | h -> x
29: match x with nil -> x | h :: -> x
34: match x with leaf -> x | node(a, l) -> x
25: match x with leaf -> x | h :: t -> x
24: match x with nil -> x | node(a, l, r) -> x
5: tick x in x
5: tick 1000001 in x
7: tick 1 x
5: tick -1 in x
3: not
4: not let y = x in y
6: x = x = x
6: x < x <= x
20: x :: x + x = x :: x = x
4: x ::
4: x + let y = x in y
2: f()
4: f(x,)
4: f(x x)
3: f(x
9: node(x, x)
5: node x
12: node(x, x, x, x)
0: fun
0: in
1: x)
1: 1x
1: x, x
0: -1
4: x - -1
5: x div
5: true false
1: (int)
5: (x : list)
11: (x : int * )
9: (x : int int)
0: option
0: option(x)
4: x + option
4: none(x)
4: some
5: some x
5: some()
6: some(x
6: some(x, x)
5: some none
4: let option = x in x
4: let none = x in x
4: let some = x in x
5: let (none, y) = x in y
8: let (y, some) = x in y
13: match x with some(y) -> x
18: match x with none x
22: match x with none -> x
25: match x with none -> x | none -> x
25: match x with none -> x | h :: t -> x
25: match x with none -> x | node(a, l, r) -> x
30: match x with none -> x | some y -> x
30: match x with none -> x | some(none) -> x
31: match x with none -> x | some(y, z) -> x
33: match x with none -> x | some(y) x
24: match x with nil -> x | some(y) -> x
25: match x with leaf -> x | some(y) -> x
24: match x with nil -> x | some :: t -> x
33: match x with leaf -> x | node(a, none, r) -> x
5: (x : option)
16: (x : int option int)";

const FRONT: &str = "fun f (x : int) : int = ";

// Whether the body of a function has its `Syntax` at this place.
fn is_refused(alloc: Global, body: &str, place: u32) -> Result<bool, Fail> {
    let source = repeated(alloc, FRONT, body, 1, "")?;
    let found = answer(alloc, source.as_str())?;
    let want = format!(in alloc; "Syntax {{ at: Pos({}) }}", u64::from(place) + 24)?;
    Ok(found == want)
}

#[test]
fn faults_of_bodies(rt: HostRuntime) -> Result<(), Fail> {
    for line in BODIES.lines() {
        let Some((place, body)) = line.split_once(": ") else {
            return Err(Fail::from("a line without a body"));
        };
        assert!(rt;
            is_refused(rt.alloc(), body, place.parse::<u32>()?)?,
            "at {body}"
        );
    }
    Ok(())
}

// All keywords.
const KEYWORDS: &str =
    "fun let in if then else match with nil leaf node true false not tick div mod int bool list tree option none some";

// What stands in front of a name, and what behind it: of a function, a parameter, a variable, and one of a pattern.
const NAMED: [(&str, &str); 4] = [
    ("fun ", " (x : int) : int = 1"),
    ("fun f (", " : int) : int = 1"),
    ("fun f (x : int) : int = let ", " = 1 in x"),
    (
        "fun f (x : int list) : int = match x with nil -> 0 | ",
        " :: t -> 1",
    ),
];

// The word in each of these places is refused there.
fn check_refused(rt: &impl Abort, alloc: Global, word: &str) -> Result<(), Fail> {
    for (front, end) in &NAMED {
        let source = repeated(alloc, front, word, 1, end)?;
        let want = format!(in alloc; "Syntax {{ at: Pos({}) }}", front.len())?;
        compare(rt, alloc, source.as_str(), want.as_str())?;
    }
    Ok(())
}

#[test]
fn keywords_are_no_names(rt: HostRuntime) -> Result<(), Fail> {
    for word in KEYWORDS.split_whitespace() {
        check_refused(&rt, rt.alloc(), word)?;
    }
    Ok(())
}

// A name in each of these places is taken.
#[test]
fn other_words_are_names(rt: HostRuntime) -> Result<(), Fail> {
    for (front, end) in &NAMED {
        let source = repeated(rt.alloc(), front, "some'", 1, end)?;
        assert!(rt; is_program(rt.alloc(), source.as_str()), "at {front}");
    }
    Ok(())
}

#[test]
fn bytes_that_are_no_text(rt: HostRuntime) -> Result<(), Fail> {
    let answer = parse(rt.alloc(), &[b'l', b'e', b't', b' ', 255]);
    assert!(rt; matches!(&answer, Err(ParseFault::NotUtf8 { .. })));
    Ok(())
}

// Adds the piece so many times.
fn push_repeated(source: &mut String, piece: &str, count: u32) -> Result<(), Fail> {
    for _ in 0..count {
        source.push_str(piece)?;
    }
    Ok(())
}

// The front, the piece so many times, and the end.
fn repeated(
    alloc: Global,
    front: &str,
    piece: &str,
    count: u32,
    end: &str,
) -> Result<String, Fail> {
    let mut source = String::from_str(alloc, front)?;
    push_repeated(&mut source, piece, count)?;
    source.push_str(end)?;
    Ok(source)
}

// What stands in front, a piece, how often it may stand and that once more, the end, and the fault of that.
const LIMITS: [(&str, &str, u32, u32, &str, &str); 12] = [
    (
        FRONT,
        "tick 0 in ",
        199,
        200,
        "x",
        "TooDeep { at: Pos(2014) }",
    ),
    (FRONT, "x+", 199, 200, "x", "TooDeep { at: Pos(423) }"),
    (FRONT, "x::", 199, 200, "x", "TooDeep { at: Pos(622) }"),
    (FRONT, "not ", 199, 200, "x", "TooDeep { at: Pos(820) }"),
    (
        "fun f (x : ",
        "int*",
        199,
        200,
        "int) : int = x",
        "TooDeep { at: Pos(810) }",
    ),
    (
        "fun f (x : int",
        " list",
        199,
        200,
        ") : int = x",
        "TooDeep { at: Pos(1010) }",
    ),
    (
        "fun f (x : int",
        " option",
        199,
        200,
        ") : int = x",
        "TooDeep { at: Pos(1408) }",
    ),
    (
        FRONT,
        "match x with none -> x | some(y) -> ",
        199,
        200,
        "x",
        "TooDeep { at: Pos(7188) }",
    ),
    (
        "fun f (x : int) : int = (x : int",
        " tree",
        198,
        199,
        ")",
        "TooDeep { at: Pos(1023) }",
    ),
    (
        "fun f (x : int) : int = f(x",
        ",x",
        7,
        8,
        ")",
        "TooMany { at: Pos(41) }",
    ),
    (
        "fun f (x : int",
        ", x : int",
        7,
        8,
        ") : int = x",
        "TooMany { at: Pos(77) }",
    ),
    (
        "",
        "fun f(x:int):int=x ",
        256,
        257,
        "",
        "TooMany { at: Pos(4864) }",
    ),
];

fn is_program(alloc: Global, source: &str) -> bool {
    source.len() < 10000 && parse(alloc, source.as_bytes()).is_ok()
}

// Texts of the greatest height or number, and with one piece more.
#[test]
fn limits(rt: HostRuntime) -> Result<(), Fail> {
    for (front, piece, most, more, end, fault) in &LIMITS {
        let most = repeated(rt.alloc(), front, piece, *most, end)?;
        assert!(rt; is_program(rt.alloc(), most.as_str()), "at {piece}");
        let more = repeated(rt.alloc(), front, piece, *more, end)?;
        compare(&rt, rt.alloc(), more.as_str(), fault)?;
    }
    Ok(())
}

// The content of so many `some`.
fn nested(alloc: Global, count: u32) -> Result<String, Fail> {
    let opened = repeated(alloc, "fun f (x : int) : int = ", "some(", count, "x")?;
    repeated(alloc, opened.as_str(), ")", count, "")
}

#[test]
fn height_of_some(rt: HostRuntime) -> Result<(), Fail> {
    let most = nested(rt.alloc(), 199)?;
    assert!(rt; is_program(rt.alloc(), most.as_str()));
    let more = nested(rt.alloc(), 200)?;
    compare(&rt, rt.alloc(), more.as_str(), "TooDeep { at: Pos(1019) }")
}
