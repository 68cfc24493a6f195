//! The bytes of a schema's file and of client files.
ghost use Rattle.std.specs.Prelude.{◌<◌, ◌^◌, vec_len};

/// The bytes of files: the schema's, and the clients' in order, of which there are fewer than 2^32.
#[derive(Drop)]
pub struct Contents {
    pub schema: Vec<u8>,
    pub clients: Vec<Vec<u8>>,
    ghost few: { vec_len clients < 2 ^ 32 },
}
