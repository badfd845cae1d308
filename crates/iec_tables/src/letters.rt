// Letters: names are compared with small letters raised.
ghost use Rattle.std.specs.Prelude.{◌≡◌};
ghost use Rattle.iec_tables.specs.Letters.{raised};

/// The capital letter of an ASCII small letter; any other byte as it is.
pub fn raise(byte: u8) -> u8
    ensures { result ≡ raised byte }
{
    if byte >= b'a' && byte <= b'z' {
        byte - 32
    } else {
        byte
    }
}
