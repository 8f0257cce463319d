//! Tuples component by component, their degrees and their number, worked out by hand.
use base_poly::{IndexFault, degrees, positions, tuples_up_to};
use raml_syntax::Ty;
use std::alloc::Global;
use std::fmt::Write;
use std::test::Fail;
use tests_support::index_text::write_tuple;
use tests_support::types::context;

// Types, a degree, the degrees of the tuples, and these. Where all types are scalars or lists of scalars the
// tuples are counted by another way than where they are not.
const COUNTED: [(&str, u8, &str, &str); 7] = [
    ("", 3, "[0]", "<>\n"),
    ("int list int", 0, "[0]", "<[], _>\n"),
    (
        "int list",
        3,
        "[0, 1, 2, 3]",
        "<[]>\n<[_]>\n<[_, _]>\n<[_, _, _]>\n",
    ),
    (
        "int list bool list",
        2,
        "[0, 1, 2, 1, 2, 2]",
        "<[], []>\n<[], [_]>\n<[], [_, _]>\n<[_], []>\n<[_], [_]>\n<[_, _], []>\n",
    ),
    (
        "int list list",
        2,
        "[0, 1, 2, 2]",
        "<[]>\n<[[]]>\n<[[], []]>\n<[[_]]>\n",
    ),
    (
        "int option int tree",
        2,
        "[0, 1, 2, 1, 2]",
        "<[], []>\n<[], [_]>\n<[], [_, _]>\n<[_], []>\n<[_], [_]>\n",
    ),
    (
        "int int list bool pair",
        2,
        "[0, 1, 2]",
        "<_, ([], _)>\n<_, ([_], _)>\n<_, ([_, _], _)>\n",
    ),
];

// The degrees of the tuples, and then the tuples, where there may be so many.
fn told(alloc: Global, types: &[Ty], d: u8, most: usize) -> Result<String, Fail> {
    let degrees = degrees(alloc, types, d, most)?;
    let degrees = degrees.as_slice();
    let mut out = format!(in alloc; "{degrees:?}\n")?;
    for tuple in &tuples_up_to(alloc, types, u32::from(d), most)? {
        write_tuple(&mut out, tuple)?;
    }
    Ok(out)
}

// Whether each of the three calls refuses these types where there may be no more than so many.
fn are_refused(alloc: Global, types: &[Ty], d: u8, most: usize) -> bool {
    let many = Some(IndexFault::TooMany);
    positions(alloc, types, d, most).err() == many
        && degrees(alloc, types, d, most).err() == many
        && tuples_up_to(alloc, types, u32::from(d), most).err() == many
}

#[test]
fn tuples_have_their_degrees(rt: HostRuntime) -> Result<(), Fail> {
    for (words, d, sizes, tuples) in &COUNTED {
        let types = context(rt.alloc(), words)?;
        let most = tuples.lines().count();
        let mut want = String::new(rt.alloc());
        write!(want, "{sizes}\n{tuples}")?;
        let found = told(rt.alloc(), &types, *d, most)?;
        assert_eq!(rt; found.as_str(), want.as_str(), "of {words}");
    }
    Ok(())
}

#[test]
fn tuples_are_counted(rt: HostRuntime) -> Result<(), Fail> {
    for (words, d, _, tuples) in &COUNTED {
        let types = context(rt.alloc(), words)?;
        let most = tuples.lines().count();
        let found = positions(rt.alloc(), &types, *d, most)?;
        assert_eq!(rt; found, most, "of {words}");
        assert!(rt;
            are_refused(rt.alloc(), &types, *d, most.saturating_sub(1)),
            "of {words}"
        );
    }
    Ok(())
}
