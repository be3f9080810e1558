// The text of types.
ghost use Rattle.std.specs.Prelude.{◌≡◌, ◌<◌, ◌++◌, [], length, if◌then◌else◌, OnOk, OnErr, slice_get, IsSomeAnd};
ghost use Rattle.flux_schema.specs.Tidy.{tidy};
ghost use Rattle.flux_schema.specs.TypeText.{text_of, name_text, quoted, definition_text, kind_text, is_choice, is_list, is_empty, content_text, enclosed, IsWritable};
ghost use Rattle.flux_types.specs.Read.{ty_of};

use crate::{Defs, Ty, tidy};
use flux_atom::{AtomKind, Name, Names, is_reserved};
use std::alloc::{AllocError, Global};

/// Appends the text of the tidied type. The labels in it, and the names of the definitions that it
/// names, are names of the table. It recurses by the height of the type: at most 500 for one within
/// the limits.
pub fn write_type(
    alloc: Global,
    defs: &Defs,
    ty: &Ty,
    names: &Names,
    out: &mut Vec<u8>,
) -> Result<(), AllocError>
    requires { IsWritable (length names.now) defs.now (tidy (ty_of ty.now)) }
    ensures ok { OnOk result (out.new.items ≡
        out.old.items ++ text_of names.now defs.now (tidy (ty_of ty.now))) }
    ensures err { OnErr result (out.new.items ≡ out.old.items) }
{
    let tidied = tidy(alloc, ty)?;
    let mut text = Vec::new(alloc);
    push_type(defs, &tidied, names, &mut text)?;
    out.extend_from_slice(&text)
}

// The functions below say nothing of what they leave behind them where they fail.
#[cycle(push_type)]
fn push_type(defs: &Defs, ty: &Ty, names: &Names, out: &mut Vec<u8>) -> Result<(), AllocError>
    requires { IsWritable (length names.now) defs.now (ty_of ty.now) }
    ensures { OnOk result
        (out.new.items ≡ out.old.items ++ text_of names.now defs.now (ty_of ty.now)) }
{
    match ty {
        Ty::Empty => out.extend_from_slice(b"()"),
        Ty::Atom(kind) => push_kind(*kind, out),
        Ty::Elem(label, content) => {
            push_label(*label, names, out)?;
            push_content(defs, content.get(), names, out)
        }
        Ty::AnyElem(content) => {
            out.extend_from_slice(b"any")?;
            push_content(defs, content.get(), names, out)
        }
        Ty::Seq(left, right) => {
            push_part(defs, left.get(), names, out, is_choice(left.get()))?;
            out.push(b',')?;
            push_part(defs, right.get(), names, out, is_choice(right.get()))
        }
        Ty::Alt(left, right) => {
            push_type(defs, left.get(), names, out)?;
            out.push(b'|')?;
            push_type(defs, right.get(), names, out)
        }
        Ty::Star(inner) => {
            push_part(defs, inner.get(), names, out, is_list(inner.get()))?;
            out.push(b'*')?;
            Ok(())
        }
        Ty::Named(index) => push_definition(defs, *index, names, out),
    }
}

#[cycle(push_type)]
fn push_part(
    defs: &Defs,
    ty: &Ty,
    names: &Names,
    out: &mut Vec<u8>,
    wanted: bool,
) -> Result<(), AllocError>
    requires { IsWritable (length names.now) defs.now (ty_of ty.now) }
    ensures { OnOk result (out.new.items ≡
        out.old.items ++ enclosed wanted (text_of names.now defs.now (ty_of ty.now))) }
{
    if !wanted {
        return push_type(defs, ty, names, out);
    }
    out.push(b'(')?;
    push_type(defs, ty, names, out)?;
    out.push(b')')?;
    Ok(())
}

#[cycle(push_type)]
fn push_content(defs: &Defs, ty: &Ty, names: &Names, out: &mut Vec<u8>) -> Result<(), AllocError>
    requires { IsWritable (length names.now) defs.now (ty_of ty.now) }
    ensures { OnOk result (out.new.items ≡ out.old.items
        ++ content_text (ty_of ty.now) (text_of names.now defs.now (ty_of ty.now))) }
{
    out.push(b'[')?;
    if !is_empty(ty) {
        push_type(defs, ty, names, out)?;
    }
    out.push(b']')?;
    Ok(())
}

fn is_choice(ty: &Ty) -> bool
    ensures { result ≡ is_choice (ty_of ty.now) }
{
    matches!(ty, Ty::Alt(_, _))
}

fn is_list(ty: &Ty) -> bool
    ensures { result ≡ is_list (ty_of ty.now) }
{
    matches!(ty, Ty::Seq(_, _) | Ty::Alt(_, _))
}

fn is_empty(ty: &Ty) -> bool
    ensures { result ≡ is_empty (ty_of ty.now) }
{
    matches!(ty, Ty::Empty)
}

fn push_kind(kind: AtomKind, out: &mut Vec<u8>) -> Result<(), AllocError>
    ensures { OnOk result (out.new.items ≡ out.old.items ++ kind_text kind) }
{
    match kind {
        AtomKind::Bool => out.extend_from_slice(b"bool"),
        AtomKind::Text => out.extend_from_slice(b"string"),
        AtomKind::Int => out.extend_from_slice(b"int"),
    }
}

fn push_label(label: Name, names: &Names, out: &mut Vec<u8>) -> Result<(), AllocError>
    requires { label < length names.now }
    ensures { OnOk result (out.new.items ≡ out.old.items ++ quoted (name_text names.now label)) }
{
    let text = names.text(label);
    if !is_reserved(text) && text != "any" {
        return out.extend_from_slice(text.as_bytes());
    }
    out.push(b'\'')?;
    out.extend_from_slice(text.as_bytes())?;
    out.push(b'\'')?;
    Ok(())
}

fn push_definition(
    defs: &Defs,
    index: u32,
    names: &Names,
    out: &mut Vec<u8>,
) -> Result<(), AllocError>
    requires { IsSomeAnd (slice_get defs.now index) (λ d. d.name < length names.now) }
    ensures { OnOk result
        (out.new.items ≡ out.old.items ++ definition_text names.now defs.now index) }
{
    let text = names.text(defs.name(index));
    out.extend_from_slice(text.as_bytes())
}
