use super::deleted;
use flux_atom::{Atom, Name, Names};
use flux_forest::Forest;
use std::alloc::{AllocError, Global};
use std::test::Fail;

// The labels `a`, `b` and `c`, in this order.
fn label(labels: &[Name; 3], letter: u8) -> Name {
    match letter {
        b'a' => labels[0],
        b'b' => labels[1],
        _ => labels[2],
    }
}

// A letter begins an element, `]` ends one, and `!` is the atom `true`.
fn forest(alloc: Global, labels: &[Name; 3], text: &[u8]) -> Result<Forest, AllocError> {
    let mut forest = Forest::new(alloc);
    for letter in text {
        match *letter {
            b'[' | b',' => {}
            b']' => {
                if !forest.is_whole() {
                    forest.end_element();
                }
            }
            b'!' => forest.push_atom(Atom::Bool(true))?,
            letter => forest.begin_element(label(labels, letter))?,
        }
    }
    Ok(forest)
}

// Whether the path deleted from the first text leaves the second.
fn leaves(
    alloc: Global,
    labels: &[Name; 3],
    before: &str,
    path: &str,
    after: &str,
) -> Result<bool, AllocError> {
    let before = forest(alloc, labels, before.as_bytes())?;
    let after = forest(alloc, labels, after.as_bytes())?;
    let mut names: Vec<Name> = Vec::new(alloc);
    for letter in path.as_bytes() {
        names.push(label(labels, *letter))?;
    }
    if names.is_empty() || !before.is_whole() || !after.is_whole() {
        return Ok(false);
    }
    let left = deleted(alloc, before.view(), names.as_slice())?;
    Ok(left.is_whole() && left.view().equal(after.view()))
}

#[test]
fn paths_are_deleted(rt: HostRuntime) -> Result<(), Fail> {
    let mut names = Names::new(rt.alloc());
    let labels = [names.intern("a")?, names.intern("b")?, names.intern("c")?];
    for (before, path, after) in [
        ("a[b[c[],a[]],c[]],b[c[]]", "abc", "a[b[a[]],c[]],b[c[]]"),
        ("a[b[c[!],c[]],b[a[c[]]]]", "abc", "a[b[],b[a[c[]]]]"),
        ("a[a[a[!],b[]],b[a[]]],b[a[]]", "aa", "a[b[a[]]],b[a[]]"),
        ("b[a[],a[!]],a[]", "a", "b[a[],a[!]]"),
        ("!,a[!,b[],!,b[!]],!", "ab", "!,a[!,!],!"),
        ("a[],a[b[]],a[!]", "a", ""),
        ("a[b[c[]]],!", "ac", "a[b[c[]]],!"),
        ("a[b[]]", "b", "a[b[]]"),
        ("b[b[b[]],c[]]", "bb", "b[c[]]"),
        ("c[]", "cc", "c[]"),
        ("", "a", ""),
    ] {
        let leaves = leaves(rt.alloc(), &labels, before, path, after)?;
        assert!(rt; leaves, "{before:?} without {path:?}");
    }
    Ok(())
}
