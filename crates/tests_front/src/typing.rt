// Programs that are typed, programs that are not, and the texts of their faults.
use raml_parse::parse;
use raml_syntax::{Pos, Ty};
use simple_types::{Shape, TypeFault, Typed, check, push_shape};
use std::alloc::Global;
use std::fmt::Write;
use std::test::Fail;

// What the check says of the program of a source.
fn checked(alloc: Global, source: &str) -> Result<Result<Typed, TypeFault>, Fail> {
    if source.len() > 1048576 {
        return Err(Fail::from("too long"));
    }
    match parse(alloc, source.as_bytes()) {
        Ok(program) => Ok(check(alloc, program)),
        Err(_) => Err(Fail::from("no program")),
    }
}

// How many functions the typed program has.
fn count_typed(alloc: Global, source: &str) -> Result<usize, Fail> {
    match checked(alloc, source)? {
        Ok(typed) => Ok(typed.program().funs.len()),
        Err(_) => Err(Fail::from("it is not typed")),
    }
}

#[test]
fn a_typed_program_is_kept(rt: HostRuntime) -> Result<(), Fail> {
    let count = count_typed(rt.alloc(), "fun main (x : int) : int list = nil")?;
    assert!(rt; count == 1);
    Ok(())
}

// A leaf at byte 32 where a list is wanted.
fn is_leaf_for_list(fault: &TypeFault) -> bool {
    matches!(
        fault,
        TypeFault::Wanted {
            at: Pos(32),
            want: Shape::Is(Ty::List(_)),
            got: Shape::SomeTree,
        }
    )
}

fn is_refused_for_leaf(alloc: Global, source: &str) -> Result<bool, Fail> {
    match checked(alloc, source)? {
        Ok(_) => Ok(false),
        Err(fault) => Ok(is_leaf_for_list(&fault)),
    }
}

#[test]
fn a_fault_has_its_place_and_shapes(rt: HostRuntime) -> Result<(), Fail> {
    assert!(rt; is_refused_for_leaf(rt.alloc(), "fun main (x : int) : int list = leaf")?);
    Ok(())
}

// A list of pairs.
fn pairs(alloc: Global) -> Result<Ty, Fail> {
    let pair = Ty::Pair(Box::new(alloc, Ty::Int)?, Box::new(alloc, Ty::Bool)?);
    Ok(Ty::List(Box::new(alloc, pair)?))
}

// The text of a shape that is this type.
fn shape_text(alloc: Global, ty: Ty) -> Result<String, Fail> {
    let shape = Shape::Is(ty);
    let mut text = String::new(alloc);
    push_shape(&mut text, &shape)?;
    Ok(text)
}

#[test]
fn the_text_of_a_type_has_few_parentheses(rt: HostRuntime) -> Result<(), Fail> {
    let text = shape_text(rt.alloc(), pairs(rt.alloc())?)?;
    assert_eq!(rt; text.as_str(), "(int * bool) list");
    Ok(())
}

// What is wanted, what is there, and where; of another fault nothing.
fn tell(out: &mut String, fault: &TypeFault) -> Result<(), Fail> {
    if let TypeFault::Wanted { at, want, got } = fault {
        out.push_str("wanted ")?;
        push_shape(out, want)?;
        out.push_str(", got ")?;
        push_shape(out, got)?;
        write!(out, " at {}", at.0)?;
    }
    Ok(())
}

// What is told of the fault of a source.
fn push_told(out: &mut String, alloc: Global, source: &str) -> Result<(), Fail> {
    match checked(alloc, source)? {
        Ok(_) => Err(Fail::from("it is typed")),
        Err(fault) => tell(out, &fault),
    }
}

fn told(alloc: Global, source: &str) -> Result<String, Fail> {
    let mut out = String::new(alloc);
    push_told(&mut out, alloc, source)?;
    Ok(out)
}

// Programs with their faults.
const OPTION_FAULTS: &str = "\
fun main (x : int) : int = none => wanted int, got some option at 27
fun main (x : int) : int list = some(x) => wanted int list, got some option at 32
fun main (x : int) : bool option = some(x) => wanted bool, got int at 40
fun main (x : int) : (int * bool) option = x => wanted (int * bool) option, got int at 43
fun main (x : int list) : int = match x with none -> 0 | some(y) -> y => wanted some option, got int list at 38";

#[test]
fn options_have_their_faults(rt: HostRuntime) -> Result<(), Fail> {
    for line in OPTION_FAULTS.lines() {
        let Some((source, want)) = line.split_once(" => ") else {
            return Err(Fail::from("a line without a fault"));
        };
        let found = told(rt.alloc(), source)?;
        assert_eq!(rt; found.as_str(), want, "at {source}");
    }
    Ok(())
}

// Programs that are typed.
const OPTIONS: &str = "\
fun head (x : int list) : int option = match x with nil -> none | h :: t -> some(h)
fun or_else (x : int option, y : int) : int = match x with none -> y | some(z) -> z
fun main (x : int) : int option option = let y = some(some(x)) in y";

fn is_typed(alloc: Global, source: &str) -> Result<bool, Fail> {
    Ok(checked(alloc, source)?.is_ok())
}

#[test]
fn options_have_types(rt: HostRuntime) -> Result<(), Fail> {
    for source in OPTIONS.lines() {
        assert!(rt; is_typed(rt.alloc(), source)?, "at {source}");
    }
    Ok(())
}

// A call with as many arguments as there may be.
const EIGHT: &str =
    "fun f (a : int, b : int, c : int, d : int, e : int, g : int, h : int, i : int) : int = f(a, b, c, d, e, g, h, i)";

#[test]
fn a_call_with_eight_arguments_has_a_type(rt: HostRuntime) -> Result<(), Fail> {
    assert!(rt; is_typed(rt.alloc(), EIGHT)?);
    Ok(())
}

// A pair of a variable with itself, as often as the height of a body allows.
fn push_doubled(source: &mut String, name: &str, first: &str) -> Result<(), Fail> {
    write!(source, "let {name}0 = {first} in ")?;
    for i in 0..190 {
        let next = i + 1;
        write!(source, "let {name}{next} = ({name}{i}, {name}{i}) in ")?;
    }
    write!(source, "{name}190")?;
    Ok(())
}

// A program of two branches that double these.
fn push_branches(source: &mut String, yes: &str, no: &str) -> Result<(), Fail> {
    source.push_str("fun main (x : int) : int = let r = if true then ")?;
    push_doubled(source, "a", yes)?;
    source.push_str(" else ")?;
    push_doubled(source, "b", no)?;
    source.push_str(" in x")?;
    Ok(())
}

// What the check says of two branches that double these.
fn doubled(alloc: Global, yes: &str, no: &str) -> Result<Result<Typed, TypeFault>, Fail> {
    let mut source = String::new(alloc);
    push_branches(&mut source, yes, no)?;
    checked(alloc, source.as_str())
}

#[test]
fn types_that_double_are_compared_at_once(rt: HostRuntime) -> Result<(), Fail> {
    assert!(rt; doubled(rt.alloc(), "x", "x")?.is_ok(), "they are equal");
    let unequal = doubled(rt.alloc(), "x", "true")?;
    assert!(rt;
        matches!(&unequal, Err(TypeFault::NoMemory)),
        "too large to be told"
    );
    Ok(())
}
