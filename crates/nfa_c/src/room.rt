//! What is written into the room that a caller gives.
ghost use Rattle.std.specs.Prelude.{◌≡◌};
ghost use Rattle.nfa_c.specs.Codes.{IsWritten, over};

/// Writes the bytes over the first ones, as far as there is room.
pub(crate) fn write_over(bytes: &[u8], room: &mut [u8])
    ensures { room.new ≡ over bytes.now room.old }
{
    if bytes.len() <= room.len() {
        room[..bytes.len()].copy_from_slice(bytes);
    } else {
        let fits = &bytes[..room.len()];
        room.copy_from_slice(fits);
    }
}

/// Writes the words over the first bytes, as far as there is room. Returns the length of the words.
pub(crate) fn write_words(words: &str, room: &mut [u8]) -> usize
    ensures { IsWritten words.now result room.old room.new }
{
    write_over(words.as_bytes(), room);
    words.len()
}

/// Writes the bytes over the first ones, as far as there is room, and how many they are.
pub(crate) fn write_counted(bytes: &[u8], room: &mut [u8], count: &mut usize)
    ensures { IsWritten bytes.now count.new room.old room.new }
{
    write_over(bytes, room);
    *count = bytes.len();
}
