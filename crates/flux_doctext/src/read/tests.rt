use super::{DocFault, read_document};
use crate::write_forest;
use flux_atom::Names;
use std::alloc::{AllocError, Global};
use std::process::Abort;
use std::test::Fail;

const LIBRARY: &[u8] = b"lib[book[\"A\"],cd[\"B\"]]";

// The canonical text of the forest that a text spells, and how many names there are then.
fn canonical(rt: &impl Abort, alloc: Global, document: &[u8]) -> Result<(Vec<u8>, usize), Fail> {
    assert!(rt; document.len() < 100_000_000);
    let mut names = Names::new(alloc);
    let forest = read_document(alloc, document, &mut names)?;
    let mut out = Vec::new(alloc);
    write_forest(alloc, forest.view(), &names, &mut out)?;
    let count = names.len();
    Ok((out, count))
}

// The place where a text stops being the beginning of a document, if it spells none.
fn fault(rt: &impl Abort, alloc: Global, document: &[u8]) -> Result<Option<u32>, AllocError> {
    assert!(rt; document.len() < 100_000_000);
    let mut names = Names::new(alloc);
    match read_document(alloc, document, &mut names) {
        Ok(_) => Ok(None),
        Err(DocFault::Text { place }) => Ok(Some(place)),
        Err(DocFault::Memory(error)) => Err(error),
    }
}

// What a text gives.
#[derive(Clone, Copy)]
enum Wanted {
    // A forest with this canonical text, and so many names.
    Forest(&'static str, usize),
    // No forest: the text stops being the beginning of one at this place.
    Place(u32),
}

use Wanted::{Forest, Place};

#[test]
fn documents(rt: HostRuntime) -> Result<(), Fail> {
    let alloc = rt.alloc();
    for (document, wanted) in [
        (
            b" a [ \"x\" ] , b[] \n".as_slice(),
            Forest("a[\"x\"],b[]", 2),
        ),
        (b"lib[ ]", Forest("lib[]", 1)),
        (b"a[\"\\u{41}\\\"\\n\"]", Forest("a[\"A\\\"\\n\"]", 1)),
        (b"( )", Forest("()", 0)),
        (b"a[()]", Forest("a[]", 1)),
        (b"()", Forest("()", 0)),
        (b"\t(\r)\n", Forest("()", 0)),
        (b"truex[]", Forest("truex[]", 1)),
        (b"true,false", Forest("true,false", 0)),
        (b"true ,\nfalse\t", Forest("true,false", 0)),
        (b"a[true]", Forest("a[true]", 1)),
        (b"a[ ( ) ] ", Forest("a[]", 1)),
        (b"a\n[b\t[\"\\u{0000e9}\"]]", Forest("a[b[\"é\"]]", 2)),
        (b"a[b[],a[]],b[]", Forest("a[b[],a[]],b[]", 2)),
        (LIBRARY, Forest("lib[book[\"A\"],cd[\"B\"]]", 3)),
        (b"1", Forest("1", 0)),
        (b"\t-10\r\n", Forest("-10", 0)),
        (b"1,2 , -3", Forest("1,2,-3", 0)),
        (b"a[0,b[7],true]", Forest("a[0,b[7],true]", 2)),
        (
            b"a[9223372036854775807]",
            Forest("a[9223372036854775807]", 1),
        ),
        (
            b"a[-9223372036854775808]",
            Forest("a[-9223372036854775808]", 1),
        ),
        (b"lib[book[\"A\"", Place(12)),
        (b"\"\\u{00D800}\"", Place(9)),
        (b"", Place(0)),
        (b" \t\r\n", Place(4)),
        (b"a,", Place(1)),
        (b"a[],", Place(4)),
        (b",a[]", Place(0)),
        (b"a[]]", Place(3)),
        (b"(),a[]", Place(2)),
        (b"a b", Place(2)),
        (b"a", Place(1)),
        (b"a[b", Place(3)),
        (b"a[b]", Place(3)),
        (b"a[b[],]", Place(6)),
        (b"a[,b[]]", Place(2)),
        (b"a[]b[]", Place(3)),
        (b"true[", Place(4)),
        (b"true [", Place(5)),
        (b"truex", Place(5)),
        (b"truex,", Place(5)),
        (b"\"a\"\"b\"", Place(3)),
        (b"(", Place(1)),
        (b"(()", Place(1)),
        (b")", Place(0)),
        (b"]", Place(0)),
        (b"()()", Place(2)),
        (b"a[()b[]]", Place(4)),
        (b"9[]", Place(1)),
        (b"a[]\xEF", Place(3)),
        (b"\xEF\xBB\xBFa[]", Place(0)),
        (b"\"\xFF\"", Place(1)),
        (b"\"\xED\xA0\x80\"", Place(2)),
        (b"\"\\x\"", Place(2)),
        (b"\"ab\\u{", Place(6)),
        (b"a[007]", Place(3)),
        (b"a[-0]", Place(3)),
        (b"a[9223372036854775808]", Place(20)),
        (b"a[-9223372036854775809]", Place(21)),
        (b"a[1.5]", Place(3)),
        (b"a[12abc]", Place(4)),
        (b"a[1b[]]", Place(3)),
        (b"a[1 2]", Place(4)),
        (b"a[1-2]", Place(3)),
        (b"a[- 1]", Place(3)),
        (b"+1", Place(0)),
        (b".5", Place(0)),
        (b"-", Place(1)),
        (b"1,", Place(2)),
        (b"a[1", Place(3)),
    ] {
        match wanted {
            Forest(text, count) => {
                let (written, names) = canonical(&rt, alloc, document)?;
                assert_eq!(rt; written.as_slice(), text.as_bytes());
                assert_eq!(rt; names, count, "{document:?}");
            }
            Place(place) => {
                let stopped = fault(&rt, alloc, document)?;
                assert_eq!(rt; stopped, Some(place), "{document:?}");
            }
        }
    }
    Ok(())
}

#[test]
fn beginnings(rt: HostRuntime) -> Result<(), Fail> {
    let alloc = rt.alloc();
    assert_eq!(rt; LIBRARY.len(), 22);
    for at in 0..LIBRARY.len() {
        let place = fault(&rt, alloc, &LIBRARY[..at])?;
        assert_eq!(rt; place, Some(at as u32), "up to {at}");
    }
    Ok(())
}

#[test]
fn wrong_bytes(rt: HostRuntime) -> Result<(), Fail> {
    let alloc = rt.alloc();
    for at in 0..LIBRARY.len() {
        let mut document = LIBRARY.to_vec(alloc)?;
        if let Some(byte) = document.get_mut(at) {
            *byte = 255;
        }
        let place = fault(&rt, alloc, &document)?;
        assert_eq!(rt; place, Some(at as u32), "at {at}");
    }
    Ok(())
}

#[test]
fn high_forests(rt: HostRuntime) -> Result<(), Fail> {
    let alloc = rt.alloc();
    let mut document = Vec::new(alloc);
    for _ in 0..100_000 {
        document.extend_from_slice(b"a[")?;
    }
    for _ in 0..99_999 {
        document.push(b']')?;
    }
    assert_eq!(rt; fault(&rt, alloc, &document)?, Some(299_999));
    document.push(b']')?;
    assert_eq!(rt; fault(&rt, alloc, &document)?, None);
    document.push(b']')?;
    assert_eq!(rt; fault(&rt, alloc, &document)?, Some(300_000));
    Ok(())
}

#[test]
fn names_in_the_order_of_the_text(rt: HostRuntime) -> Result<(), Fail> {
    let alloc = rt.alloc();
    let mut names = Names::new(alloc);
    let refused = read_document(alloc, b"c[],a b", &mut names);
    assert!(rt; matches!(refused, Err(DocFault::Text { place: 6 })));
    let _forest = read_document(alloc, b"d[a[],b[e[]]],c[]", &mut names)?;
    assert_eq!(rt; names.len(), 5);
    let mut order = Names::new(alloc);
    for (place, text) in ["c", "a", "d", "b", "e"].iter().enumerate() {
        assert!(rt; names.len() < 100 && order.len() < 100);
        let name = names.intern(text)?;
        assert_eq!(rt; order.intern(text)?, name, "{place}");
    }
    Ok(())
}
