//! Reserved room that bytes are put into.
ghost use Rattle.std.specs.Prelude.{◌≡◌, ◌≤◌, ◌-◌, ◌++◌, [], IfOk, nat_le, length, vec_len, vec_capacity};

use std::alloc::{AllocError, Global};

// Bytes in room that was reserved for them, so that putting more there takes no memory.
#[derive(Drop)]
pub(crate) struct Room {
    bytes: Vec<u8>,
    size: usize,
    ghost within: { length bytes.items ≤ size },
    ghost reserved: { size ≤ vec_capacity bytes },
}

impl Room {
    ghost use Rattle.folder_io.specs.ReservedRoom.{room_bytes, room_size};

    // Room for so many bytes, with none in it.
    pub(crate) fn new(alloc: Global, size: u32) -> Result<Room, AllocError>
        ensures bytes { IfOk result (λ room. room_bytes room ≡ []) }
        ensures size { IfOk result (λ room. room_size room ≡ size) }
    {
        Ok(Room {
            bytes: Vec::with_capacity(alloc, size as usize)?,
            size: size as usize,
        })
    }

    // Whether the piece fits what is left of the room.
    pub(crate) fn fits(&self, piece: &[u8]) -> bool
        ensures { result ≡ nat_le (length piece.now) (room_size self.now - length (room_bytes self.now)) }
    {
        piece.len() <= self.size - self.bytes.len()
    }

    // Puts the piece behind the bytes.
    pub(crate) fn put(&mut self, piece: &[u8])
        requires { length piece.now ≤ room_size self.old - length (room_bytes self.old) }
        ensures bytes { room_bytes self.new ≡ room_bytes self.old ++ piece.now }
        ensures size { room_size self.new ≡ room_size self.old }
    {
        if self.bytes.extend_from_slice(piece).is_err() {
            unreachable!();
        }
    }

    // The bytes.
    pub(crate) fn bytes(&self) -> &[u8]
        ensures { result.now ≡ room_bytes self.now }
    {
        self.bytes.as_slice()
    }
}
