// Where a reader stands in a text.
ghost use Rattle.std.specs.Prelude.{◌≤◌, length};

#[derive(Drop)]
pub struct Cursor<'a> {
    pub text: &'a [u8],
    pub pos: usize,
    ghost within: { pos ≤ length text.now },
}
