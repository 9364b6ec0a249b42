// The bytes behind a place, and a copy of the first bytes.
ghost use Rattle.std.specs.Prelude.{◌≡◌, ◌≤◌, ◌++◌, length, take, drop, vec_len};

pub(crate) fn unread(bytes: &Vec<u8>, at: usize) -> &[u8]
    requires { at ≤ vec_len bytes.now }
    ensures { result.now ≡ drop at bytes.now.items }
{
    &bytes[at..]
}

// The first `count` bytes of `from` go to the front of `to`.
pub(crate) fn copy_front(to: &mut [u8], from: &[u8], count: usize)
    requires to { count ≤ length to.old }
    requires from { count ≤ length from.now }
    ensures all { to.new ≡ take count from.now ++ drop count to.old }
    ensures front { take count to.new ≡ take count from.now }
{
    to[..count].copy_from_slice(&from[..count]);
}
