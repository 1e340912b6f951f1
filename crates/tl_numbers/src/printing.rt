//! Writing of numbers.
ghost use Rattle.hex.specs.Hex.{encode_lower};
ghost use Rattle.std.specs.Int.{w32, to_be_bytes};
ghost use Rattle.std.specs.Prelude.{◌≡◌};

/// The eight lower-case digits of a number, the highest first.
pub fn print_hex(number: u32) -> [u8; 8]
    ensures { result ≡ encode_lower (to_be_bytes w32 number) }
{
    let mut digits = [b'0'; 8];
    match hex::encode_to_slice(number.to_be_bytes(), &mut digits) {
        Ok(()) => digits,
        Err(_) => unreachable!(),
    }
}
