ghost use Rattle.std.specs.Prelude.{◌≡◌, ◌+◌, ◌≤◌, ◌<◌, ◌^◌, length, slice_range};

/// The `N` bytes of `frame` from `at` on.
pub fn bytes_at<const N: usize>(frame: &[u8], at: usize) -> [u8; N]
    requires start { at < 2 ^ 32 }
    requires within { at + N ≤ length frame.now }
    ensures { result ≡ slice_range frame.now at (at + N) }
{
    let mut bytes = [0; N];
    bytes.copy_from_slice(&frame[at..at + N]);
    bytes
}
