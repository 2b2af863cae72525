ghost use Rattle.std.specs.Prelude.{◌≡◌, ◌++◌, OnOk};
ghost use Rattle.std.specs.Fmt.{decimal};
ghost use Rattle.vk_core.specs.Class.{name_of_class};

use itoa::Buffer;
use vk_core::{CheckClass, Name, NoMemory, class_name};

/// Adds the bytes of a text.
pub fn push_text(out: &mut Vec<u8>, text: &str) -> Result<(), NoMemory>
    ensures { OnOk result (out.new.items ≡ out.old.items ++ text.now) }
{
    out.extend_from_slice(text.as_bytes())?;
    Ok(())
}

/// Adds a number in decimal.
pub fn push_decimal(out: &mut Vec<u8>, number: u128) -> Result<(), NoMemory>
    ensures { OnOk result (out.new.items ≡ out.old.items ++ decimal number) }
{
    let mut buffer = Buffer::new();
    out.extend_from_slice(buffer.format(number).as_bytes())?;
    Ok(())
}

/// Adds the bytes of a name.
pub fn push_name(out: &mut Vec<u8>, name: &Name) -> Result<(), NoMemory>
    ensures { OnOk result (out.new.items ≡ out.old.items ++ name.now) }
{
    out.extend_from_slice(name.as_bytes())?;
    Ok(())
}

/// Adds the name of a class.
pub fn push_class(out: &mut Vec<u8>, class: CheckClass) -> Result<(), NoMemory>
    ensures { OnOk result (out.new.items ≡ out.old.items ++ name_of_class class) }
{
    push_text(out, class_name(class))?;
    Ok(())
}
