// The numbers of a record, read from bytes, and whether its bytes are all there. A byte past the end counts as 0, so that a cut record needs one test of its length.
ghost use Rattle.std.specs.Prelude.{◌≡◌, cond, ltb, length, ◌<◌, Some, None};
ghost use Rattle.fields.specs.Numbers.{number};

// The byte at a place.
pub fn one(s: &[u8], at: usize) -> u8
    ensures { result ≡ number 1 s.now at }
{
    s.get(at).copied().unwrap_or(0)
}

// The number in two bytes, the low one first.
pub fn two(s: &[u8], at: usize) -> u16
    requires { at < 1024 }
    ensures { result ≡ number 2 s.now at }
{
    u16::from_le_bytes([one(s, at), one(s, at + 1)])
}

// The number in four bytes, the low one first.
pub fn four(s: &[u8], at: usize) -> u32
    requires { at < 60 }
    ensures { result ≡ number 4 s.now at }
{
    u32::from_le_bytes([one(s, at), one(s, at + 1), one(s, at + 2), one(s, at + 3)])
}

// A record of so many bytes, and their number, where they are all there.
pub fn whole_of<T: Copy>(s: &[u8], size: usize, what: T) -> Option<(T, usize)>
    ensures { result ≡ cond (ltb (length s.now) size) None (Some (what, size)) }
{
    if s.len() < size {
        return None;
    }
    Some((what, size))
}
