//! Arrays of bytes, made from slices.
ghost use Rattle.std.specs.Prelude.{◌≡◌, ◌+◌, ◌++◌, length};

/// Returns the bytes as an array. Requires exactly `N` bytes.
pub fn array_of<const N: usize>(bytes: &[u8]) -> [u8; N]
    requires { length bytes.now ≡ N }
    ensures { result ≡ bytes.now }
{
    let mut array = [0; N];
    array.copy_from_slice(bytes);
    array
}

/// Returns the bytes of `front`, followed by those of `back`. Requires exactly `N` bytes in both together.
pub fn join<const N: usize>(front: &[u8], back: &[u8]) -> [u8; N]
    requires { length front.now + length back.now ≡ N }
    ensures { result ≡ front.now ++ back.now }
{
    let mut bytes = [0; N];
    let (first, second) = bytes.as_mut_slice().split_at_mut(front.len());
    first.copy_from_slice(front);
    second.copy_from_slice(back);
    bytes
}
