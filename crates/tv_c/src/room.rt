//! The caller's buffers.

ghost use Rattle.std.specs.Prelude.{◌≡◌};
ghost use Rattle.tv_c.specs.Calls.{copied};

/// Copies as much of a text as fits into the room for it, from its first byte on.
pub fn copy_out(text: &[u8], room: &mut [u8])
    ensures { room.new ≡ copied text.now room.old }
{
    let count = text.len().min(room.len());
    room[..count].copy_from_slice(&text[..count]);
}
