//! Items of a given number of bytes.
ghost use Rattle.std.specs.Prelude.{◌≡◌, ◌++◌, OnOk};
ghost use Rattle.tl_numbers.specs.Numbers.{double_word, word};
ghost use Rattle.tl_types.specs.Spelling.{vector_prefix};

use std::alloc::AllocError;
use tl_base::BOXED_VECTOR;

/// Appends a number in four bytes.
pub fn put_word(number: u32, out: &mut Vec<u8>) -> Result<(), AllocError>
    ensures { OnOk result (out.new.items ≡ out.old.items ++ word number) }
{
    out.extend_from_slice(&number.to_le_bytes())?;
    Ok(())
}

/// Appends a number in eight bytes.
pub fn put_double(number: u64, out: &mut Vec<u8>) -> Result<(), AllocError>
    ensures { OnOk result (out.new.items ≡ out.old.items ++ double_word number) }
{
    out.extend_from_slice(&number.to_le_bytes())?;
    Ok(())
}

/// Appends what comes before the count of a vector: its number where it is boxed.
pub fn put_vector_prefix(boxed: bool, out: &mut Vec<u8>) -> Result<(), AllocError>
    ensures { OnOk result (out.new.items ≡ out.old.items ++ vector_prefix boxed) }
{
    if boxed {
        return put_word(BOXED_VECTOR, out);
    }
    Ok(())
}
