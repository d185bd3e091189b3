ghost use Rattle.std.specs.Prelude.{◌≡◌, ◌++◌, ◌<◌, ◌≤◌, length, drop};
ghost use Rattle.mollavisce.specs.Strip.{head_of, strip_of};

use judge::verdict::Verdict;

// The six bytes before the ring's places: the mask, low byte first; the count; the ring's length.
fn head(verdict: Verdict) -> [u8; 6]
    requires { (verdict.count < 256) × (verdict.length < 256) }
    ensures { result ≡ head_of verdict }
{
    let [a, b, c, d] = verdict.named.to_le_bytes();
    [a, b, c, d, verdict.count as u8, verdict.length as u8]
}

// The strip with the verdict's bytes for its first 38.
pub(crate) fn lay(strip: &mut [u8], verdict: Verdict)
    requires { (38 ≤ length strip.old) × (verdict.count < 256) × (verdict.length < 256) }
    ensures { strip.new ≡ strip_of verdict ++ drop 38 strip.old }
{
    let head = head(verdict);
    let ring = verdict.ring;
    strip[..6].copy_from_slice(&head);
    strip[6..38].copy_from_slice(&ring);
}
