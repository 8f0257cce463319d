//! Annotations.
use annot_types::Annot;
use std::process::Abort;
use std::test::Fail;

#[test]
fn annotations_have_their_entries(rt: HostRuntime) -> Result<(), Fail> {
    let alloc = rt.alloc();
    let entries = vec![in alloc;
        (0, 3),
        (2, 1),
        (7, 170141183460469231731687303715884105727),
    ]?;
    let annot = Annot::new(entries).ok_or("an annotation")?;
    for (position, number) in [(0, 3), (1, 0), (2, 1), (7, i128::MAX), (8, 0)] {
        assert_eq!(rt; annot.get(position), number);
    }
    assert_eq!(rt; annot.entries().len(), 3);
    Ok(())
}

#[test]
fn other_entries_are_refused(rt: HostRuntime) -> Result<(), Fail> {
    let alloc = rt.alloc();
    for (first, second) in [
        ((2, 1), (2, 1)),
        ((3, 1), (2, 1)),
        ((0, 0), (1, 1)),
        ((0, 1), (1, -1)),
    ] {
        assert!(rt; Annot::new(vec![in alloc; first, second]?).is_none());
    }
    Ok(())
}
