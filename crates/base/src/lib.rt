// Numbers over a byte, and a slice cleared.
#![tactic(auto)]

ghost use Rattle.std.specs.Prelude.{◌≡◌, [], ◌∷◌, min, length};
ghost use Rattle.base.specs.Number.{number};
ghost use Rattle.base.specs.Slices.{filled};

// Sets the first places of a slice to 0, or all where it has no more.
pub fn clear(slice: &mut [u32], places: usize)
    ensures { slice.new ≡ filled (λ x. 0) (min places (length slice.old)) slice.old }
{
    let end = places.min(slice.len());
    slice[..end].fill(0);
}

// The number of 2 bytes, the low one first.
pub fn number2(first: u8, second: u8) -> u16
    ensures { result ≡ number (first ∷ second ∷ []) }
{
    u16::from_le_bytes([first, second])
}

// The number of 4 bytes, the low one first.
pub fn number4(first: u8, second: u8, third: u8, fourth: u8) -> u32
    ensures { result ≡ number (first ∷ second ∷ third ∷ fourth ∷ []) }
{
    u32::from_le_bytes([first, second, third, fourth])
}
