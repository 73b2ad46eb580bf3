//! The form of an id.
ghost use Rattle.std.specs.Prelude.{◌≡◌};
ghost use Rattle.nuttracking.specs.Id.{id_text, read_id};

use uuid::Uuid;

/// How many bytes an id is written in.
pub const ID_LENGTH: usize = 36;

/// The id as it is written: 32 hexadecimal digits in lower case, in groups of 8, 4, 4, 4 and 12
/// with hyphens between. Takes no memory.
pub fn id_text(id: u128) -> [u8; ID_LENGTH]
    ensures { result ≡ id_text id }
{
    let mut buffer = Uuid::encode_buffer();
    let written = Uuid::from_u128(id).hyphenated().encode_lower(&mut buffer);
    let mut text = [0; ID_LENGTH];
    text.copy_from_slice(written.as_bytes());
    text
}

/// The id that a text is: as it is written, in either case, and in no other form. Takes no memory.
pub fn read_id(text: &[u8]) -> Option<u128>
    ensures { result ≡ read_id text.now }
{
    if text.len() != ID_LENGTH {
        return None;
    }
    let Ok(uuid) = Uuid::try_parse_ascii(text) else {
        return None;
    };
    Some(uuid.as_u128())
}
