// Bytes copied from one slice into another.
ghost use Rattle.std.specs.Prelude.{◌≡◌, ◌++◌, length, min, take, drop};

// Copies as many bytes as both have room for to the front of `dst`, and says how many.
pub fn copy(src: &[u8], dst: &mut [u8]) -> usize
    ensures count { result ≡ min (length src.now) (length dst.old) }
    ensures copied { dst.new ≡ take result src.now ++ drop result dst.old }
{
    let n = src.len().min(dst.len());
    dst[..n].copy_from_slice(&src[..n]);
    n
}
