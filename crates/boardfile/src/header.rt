ghost use Rattle.std.specs.Prelude.{◌≡◌};
ghost use Rattle.boardfile.specs.Files.{header_in, header_bytes};

// What a board file begins with.
#[derive(Clone, Copy, PartialEq, Eq, Debug)]
pub struct Header {
    pub kind: u32,
    pub capacity: u32,
    pub horizon: u32,
    pub next: u32,
    pub count: u32,
    pub offset: u32,
}

// The header that 24 bytes write.
impl From<&[u8; 24]> for Header {
    ghost from_gives = { λ bytes header. header ≡ header_in bytes.now };

    fn from(value: &[u8; 24]) -> Header {
        let (numbers, _) = value.as_chunks();
        Header {
            kind: u32::from_le_bytes(numbers[0]),
            capacity: u32::from_le_bytes(numbers[1]),
            horizon: u32::from_le_bytes(numbers[2]),
            next: u32::from_le_bytes(numbers[3]),
            count: u32::from_le_bytes(numbers[4]),
            offset: u32::from_le_bytes(numbers[5]),
        }
    }
}

// The bytes of a header.
impl From<Header> for [u8; 24] {
    ghost from_gives = { λ header bytes. bytes ≡ header_bytes header };

    fn from(value: Header) -> [u8; 24] {
        let numbers = [
            value.kind.to_le_bytes(),
            value.capacity.to_le_bytes(),
            value.horizon.to_le_bytes(),
            value.next.to_le_bytes(),
            value.count.to_le_bytes(),
            value.offset.to_le_bytes(),
        ];
        let mut bytes = [0; 24];
        bytes.copy_from_slice(numbers.as_flattened());
        bytes
    }
}
