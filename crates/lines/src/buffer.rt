// A text in a buffer.
ghost use Rattle.std.specs.Prelude.{◌≤◌, length};

// A buffer, and the place after the text in it.
#[derive(Drop)]
pub struct Text<'a> {
    pub bytes: &'a mut [u8],
    pub at: usize,
    ghost within: { at ≤ length bytes.now },
}
