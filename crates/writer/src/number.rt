// A number of the hall sheet, laid into a buffer. What has no room there is only measured.
ghost use Rattle.std.specs.Prelude.{◌≡◌, true, ◌<◌, ◌≤◌, length, slice_set};
ghost use Rattle.fields.specs.Number.{number_bytes};
ghost use Rattle.writer.specs.Parts.{Laid};

// Where it is near, there is room for it whatever its place: so a loop tests that once, and not at each byte.
fn store(buffer: &mut [u8], near: bool, at: usize, byte: u8)
    requires { near ≡ true → at < length buffer.old }
    ensures { buffer.new ≡ slice_set buffer.old at byte }
{
    if near | (at < buffer.len()) {
        buffer[at] = byte;
    }
}

// The place after it.
pub(crate) fn put(buffer: &mut [u8], at: usize, number: u64) -> usize
    requires { at ≤ 65536 }
    ensures { Laid buffer.old at (number_bytes number) buffer.new result }
{
    let near = at + 10 <= buffer.len();
    let mut next = at;
    let mut left = number;
    while 128 <= left {
        store(buffer, near, next, (left % 128 + 128) as u8);
        left = left / 128;
        next = next + 1;
    }
    store(buffer, near, next, left as u8);
    next + 1
}
