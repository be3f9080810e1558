use crate::write_forest;
use flux_atom::{Atom, Names, Word, is_name};
use flux_forest::Forest;
use std::alloc::Global;
use std::process::Abort;
use std::test::Fail;

// What a forest is built of.
#[derive(Clone, Copy)]
enum Step<'a> {
    Begin(&'a str),
    End,
    Truth(bool),
    Text(&'a str),
}

use Step::{Begin, End, Text, Truth};

// The text of the forest that the steps build, behind `> `.
fn written(rt: &impl Abort, alloc: Global, steps: &[Step<'_>]) -> Result<Vec<u8>, Fail> {
    let mut names = Names::new(alloc);
    let mut forest = Forest::new(alloc);
    for step in steps {
        match step {
            Begin(label) => {
                assert!(rt; is_name(label) && names.len() < 100);
                let name = names.intern(label)?;
                forest.begin_element(name)?;
            }
            End => {
                assert!(rt; !forest.is_whole());
                forest.end_element();
            }
            Truth(truth) => forest.push_atom(Atom::Bool(*truth))?,
            Text(text) => forest.push_atom(Atom::Text(Word::of(alloc, text)?))?,
        }
    }
    assert!(rt; forest.is_whole());
    let mut out = b"> ".to_vec(alloc)?;
    write_forest(alloc, forest.view(), &names, &mut out)?;
    Ok(out)
}

#[test]
fn texts(rt: HostRuntime) -> Result<(), Fail> {
    let nothing = written(&rt, rt.alloc(), &[])?;
    assert_eq!(rt; nothing.as_slice(), b"> ()".as_slice());
    let shop = written(
        &rt,
        rt.alloc(),
        &[
            Begin("lib"),
            Begin("book"),
            Text("A"),
            End,
            Begin("cd"),
            Text("B"),
            End,
            End,
        ],
    )?;
    assert_eq!(rt; shop.as_slice(), br#"> lib[book["A"],cd["B"]]"#.as_slice());
    let nested = written(
        &rt,
        rt.alloc(),
        &[
            Begin("a"),
            Begin("b"),
            End,
            Begin("c"),
            Begin("d"),
            End,
            End,
            End,
        ],
    )?;
    assert_eq!(rt; nested.as_slice(), b"> a[b[],c[d[]]]".as_slice());
    let atoms = written(&rt, rt.alloc(), &[Truth(true), Text("x"), Truth(false)])?;
    assert_eq!(rt; atoms.as_slice(), br#"> true,"x",false"#.as_slice());
    let mixed = written(
        &rt,
        rt.alloc(),
        &[
            Begin("p"),
            Text("say \"hi\"\n"),
            Begin("b"),
            Truth(true),
            End,
            Text(""),
            End,
            Begin("p"),
            End,
        ],
    )?;
    assert_eq!(rt;
        mixed.as_slice(),
        br#"> p["say \"hi\"\n",b[true],""],p[]"#.as_slice()
    );
    Ok(())
}

// Only the length is compared: a label and two brackets for each element.
#[test]
fn deep_nesting(rt: HostRuntime) -> Result<(), Fail> {
    let mut steps: Vec<Step<'_>> = Vec::new(rt.alloc());
    for _ in 0..100_000 {
        steps.push(Begin("a"))?;
    }
    for _ in 0..100_000 {
        steps.push(End)?;
    }
    let text = written(&rt, rt.alloc(), steps.as_slice())?;
    assert_eq!(rt; text.len(), 300_002);
    Ok(())
}
