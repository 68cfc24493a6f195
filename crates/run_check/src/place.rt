//! A place in a text.
ghost use Rattle.std.specs.Prelude.{◌<◌, ◌+◌, ◌^◌, length};

/// A place between two lines of a text: the number of the next line, and what is left of the text.
#[derive(Clone, Copy)]
pub(crate) struct Place<'a> {
    pub(crate) next: u32,
    pub(crate) rest: &'a [u8],
    // Each line has a byte at least, so that its number fits.
    ghost few: { next + length rest.now < 2 ^ 32 },
}
