//! Writing attributes.
ghost use Rattle.std.specs.Prelude.{◌≡◌, ◌≤◌, ◌++◌, length, OnOk, OnErr};
ghost use Rattle.std.specs.List.{flat_map, AllByRecursion};
ghost use Rattle.class_model.specs.Spelling.{u2, raw_bytes, inner_bytes, handler_bytes, code_part_bytes, attr_bytes, attrs_bytes};
ghost use Rattle.class_bytes.specs.Counts.{FitsContent, FitsInner, FitsInners, FitsPart, FitsAttr, FitsAttrs};
ghost use Rattle.class_bytes.specs.Numbers.{AttrNumbers, PartNumbers, HandlerNumbers, InnerNumber};
ghost use Rattle.pool_bytes.specs.Appended.{Grows};

use class_model::{
    Attr, AttrList, CodePart, Handler, HandlerList, InnerAttrList, NoMemory, push_u2, push_u4,
};

/// Appends the number of attributes, and the attributes.
pub(crate) fn push_attrs(out: &mut Vec<u8>, attrs: &AttrList) -> Result<(), NoMemory>
    requires { FitsAttrs attrs.now }
    ensures ok { OnOk result (out.new.items ≡ out.old.items ++ attrs_bytes attrs.now) }
    ensures numbers { OnOk result (AllByRecursion AttrNumbers attrs.now) }
    ensures err { OnErr result (Grows out.old.items out.new.items) }
{
    let attrs = attrs.as_slice();
    push_u2(out, attrs.len() as u16)?;
    for attr in attrs {
        push_attr(out, attr)?;
    }
    Ok(())
}

// Appends an attribute.
fn push_attr(out: &mut Vec<u8>, attr: &Attr) -> Result<(), NoMemory>
    requires { FitsAttr attr.now }
    ensures ok { OnOk result (out.new.items ≡ out.old.items ++ attr_bytes attr.now) }
    ensures numbers { OnOk result (AttrNumbers attr.now) }
    ensures err { OnErr result (Grows out.old.items out.new.items) }
{
    match attr {
        Attr::Raw { name, bytes } => push_raw(out, *name, bytes.as_slice()),
        Attr::Code { name, part } => {
            push_u2(out, *name)?;
            push_u4(out, part_len(part))?;
            push_code_part(out, part)
        }
    }
}

// Appends an attribute of this content: its name, length and content (JVM Specification SE 8, 4.7).
fn push_raw(out: &mut Vec<u8>, name: u16, content: &[u8]) -> Result<(), NoMemory>
    requires { FitsContent content.now }
    ensures ok { OnOk result (out.new.items ≡ out.old.items ++ raw_bytes name content.now) }
    ensures err { OnErr result (Grows out.old.items out.new.items) }
{
    push_u2(out, name)?;
    push_u4(out, content.len() as u32)?;
    out.extend_from_slice(content)?;
    Ok(())
}

// How many bytes the content of a Code attribute takes.
fn part_len(part: &CodePart) -> u32
    requires { FitsPart part.now }
    ensures { result ≡ length (code_part_bytes part.now) }
{
    let mut len = 12 + part.code.len() + 8 * part.handlers.len();
    for attr in part.attrs.as_slice() {
        len += 6 + attr.bytes.len();
    }
    len as u32
}

// Appends the content of a Code attribute (4.7.3).
fn push_code_part(out: &mut Vec<u8>, part: &CodePart) -> Result<(), NoMemory>
    requires { FitsPart part.now }
    ensures ok { OnOk result (out.new.items ≡ out.old.items ++ code_part_bytes part.now) }
    ensures numbers { OnOk result (PartNumbers part.now) }
    ensures err { OnErr result (Grows out.old.items out.new.items) }
{
    push_u2(out, part.max_stack)?;
    push_u2(out, part.max_locals)?;
    push_u4(out, part.code.len() as u32)?;
    out.extend_from_slice(part.code.as_slice())?;
    push_handlers(out, &part.handlers)?;
    push_inner_attrs(out, &part.attrs)
}

// Appends the number of handlers, and the handlers.
fn push_handlers(out: &mut Vec<u8>, handlers: &HandlerList) -> Result<(), NoMemory>
    requires { length handlers.now ≤ 65535 }
    ensures ok { OnOk result (out.new.items ≡ out.old.items
        ++ (u2 (length handlers.now) ++ flat_map handler_bytes handlers.now)) }
    ensures numbers { OnOk result (AllByRecursion HandlerNumbers handlers.now) }
    ensures err { OnErr result (Grows out.old.items out.new.items) }
{
    let handlers = handlers.as_slice();
    push_u2(out, handlers.len() as u16)?;
    for handler in handlers {
        push_handler(out, handler)?;
    }
    Ok(())
}

// Appends an entry of an exception table.
fn push_handler(out: &mut Vec<u8>, handler: &Handler) -> Result<(), NoMemory>
    ensures ok { OnOk result (out.new.items ≡ out.old.items ++ handler_bytes handler.now) }
    ensures numbers { OnOk result (HandlerNumbers handler.now) }
    ensures err { OnErr result (Grows out.old.items out.new.items) }
{
    push_u2(out, handler.start)?;
    push_u2(out, handler.end)?;
    push_u2(out, handler.at)?;
    push_u2(out, handler.catch_type)
}

// Appends the number of attributes of a Code attribute, and the attributes.
fn push_inner_attrs(out: &mut Vec<u8>, attrs: &InnerAttrList) -> Result<(), NoMemory>
    requires { FitsInners attrs.now }
    ensures ok { OnOk result (out.new.items ≡ out.old.items
        ++ (u2 (length attrs.now) ++ flat_map inner_bytes attrs.now)) }
    ensures numbers { OnOk result (AllByRecursion InnerNumber attrs.now) }
    ensures err { OnErr result (Grows out.old.items out.new.items) }
{
    let attrs = attrs.as_slice();
    push_u2(out, attrs.len() as u16)?;
    for attr in attrs {
        push_raw(out, attr.name, attr.bytes.as_slice())?;
    }
    Ok(())
}
