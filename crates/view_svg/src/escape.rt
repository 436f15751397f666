ghost use Rattle.std.specs.Prelude.{◌≡◌, ◌++◌, OnOk, flat_map};
ghost use Rattle.view_svg.specs.Markup.{escaped, escaped_byte};

use net_core::{Bytes, NoMemory};
use std::alloc::Global;

/// Puts a byte of a name last, as markup writes it.
fn put_byte(text: &mut Bytes, byte: u8) -> Result<(), NoMemory>
    ensures { OnOk result (text.new ≡ text.old ++ escaped_byte byte) }
{
    if byte == b'&' {
        return text.append(b"&amp;");
    }
    if byte == b'<' {
        return text.append(b"&lt;");
    }
    if byte == b'>' {
        return text.append(b"&gt;");
    }
    if byte == b'"' {
        return text.append(b"&quot;");
    }
    if byte == b'\'' {
        return text.append(b"&#39;");
    }
    if byte < 32 || byte == 127 {
        return text.append(b"?");
    }
    text.append(&[byte])
}

/// Puts bytes last, as markup writes them.
fn put_bytes(text: &mut Bytes, bytes: &[u8]) -> Result<(), NoMemory>
    ensures { OnOk result (text.new ≡ text.old ++ flat_map escaped_byte bytes.now) }
{
    for byte in bytes {
        put_byte(text, *byte)?;
    }
    Ok(())
}

/// Puts a name last, with what markup would read as its own written as entities. It takes time and memory in the name.
pub(crate) fn put_escaped(text: &mut Bytes, alloc: Global, name: &[u8]) -> Result<(), NoMemory>
    ensures { OnOk result (text.new ≡ text.old ++ escaped name.now) }
{
    let readable = String::from_utf8_lossy(alloc, name)?;
    put_bytes(text, readable.as_str().as_bytes())
}
