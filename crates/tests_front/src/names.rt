// Functions that are found by their names.
use raml_parse::parse;
use raml_syntax::FunctionNames;
use std::alloc::Global;
use std::test::Fail;

const PROGRAM: &str =
    "fun f (x : int) : int = x fun g (x : int) : int = x fun f (x : int) : int = 1 fun f' (x : int) : int = 2";

// The place of the function of this name.
fn place(alloc: Global, name: &str) -> Result<Option<u32>, Fail> {
    let Ok(program) = parse(alloc, PROGRAM.as_bytes()) else {
        return Err(Fail::from("it is no program"));
    };
    if program.funs.len() > 256 {
        return Err(Fail::from("too many functions"));
    }
    let names = FunctionNames::new(alloc, &program)?;
    match names.find(name) {
        Some(fun) => Ok(Some(fun.0)),
        None => Ok(None),
    }
}

// Of two functions of one name the first is found.
const PLACES: [(&str, Option<u32>); 6] = [
    ("f", Some(0)),
    ("g", Some(1)),
    ("f'", Some(3)),
    ("g'", None),
    ("x", None),
    ("", None),
];

#[test]
fn functions_are_found_by_their_names(rt: HostRuntime) -> Result<(), Fail> {
    for (name, want) in &PLACES {
        assert!(rt; place(rt.alloc(), name)? == *want, "of {name}");
    }
    Ok(())
}
