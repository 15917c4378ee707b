// The body of a case, taken piece after piece from its front. A piece is None where fewer bytes are left.
#[derive(Drop)]
pub struct Body<'a> {
    left: &'a [u8],
}

impl<'a> Body<'a> {
    pub fn new(bytes: &'a [u8]) -> Body<'a> {
        Body { left: bytes }
    }

    // The next `n` bytes.
    pub fn bytes(&mut self, n: usize) -> Option<&'a [u8]> {
        if self.left.len() < n {
            return None;
        }
        let (piece, left) = self.left.split_at(n);
        self.left = left;
        Some(piece)
    }

    // The next byte.
    pub fn byte(&mut self) -> Option<u8> {
        let (byte, left) = self.left.split_first()?;
        self.left = left;
        Some(*byte)
    }

    // The next `N` bytes.
    pub fn array<const N: usize>(&mut self) -> Option<[u8; N]> {
        self.bytes(N)?.try_into().ok()
    }

    // The number of 2 bytes.
    pub fn two(&mut self) -> Option<u16> {
        Some(u16::from_le_bytes(self.array()?))
    }

    // The number of 4 bytes.
    pub fn four(&mut self) -> Option<u32> {
        Some(u32::from_le_bytes(self.array()?))
    }

    // The number of 8 bytes.
    pub fn eight(&mut self) -> Option<usize> {
        Some(usize::from_le_bytes(self.array()?))
    }

    // The number of 2 bytes, as a length.
    pub fn length(&mut self) -> Option<usize> {
        Some(usize::from(self.two()?))
    }

    // All that is left.
    pub fn rest(self) -> &'a [u8] {
        self.left
    }
}
