//! What holds of each number and of each text.
ghost use Rattle.hex.specs.Hex.{encode_lower};
ghost use Rattle.std.specs.Int.{w32, to_be_bytes};
ghost use Rattle.std.specs.Prelude.{◌≡◌, ◌<◌, ◌^◌, ℕ, List};
ghost use Rattle.tl_numbers.specs.Crc.{IsCrc};
ghost use Rattle.tl_numbers.specs.HexText.{IsHexText, hex_value};

/// What `print_hex` writes of a number, `read_hex` reads as that number.
pub fn numbers_are_read_back()
    ensures text { (number : ℕ) → number < 2 ^ 32 → IsHexText (encode_lower (to_be_bytes w32 number)) }
    ensures value { (number : ℕ) → number < 2 ^ 32 → hex_value (encode_lower (to_be_bytes w32 number)) ≡ number }
{}

/// A text's CRC32 is one number, whatever computes it.
pub fn a_text_has_one_crc()
    ensures some { (text : List ℕ) → (number : ℕ) × IsCrc text number }
    ensures one { (text : List ℕ) (number other : ℕ) → IsCrc text number → IsCrc text other → number ≡ other }
{}
