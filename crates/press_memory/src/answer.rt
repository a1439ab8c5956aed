//! What a call answers to its caller in C, and what it puts into the caller's room (this profile).
ghost use Rattle.std.specs.Prelude.{◌≡◌, ◌<◌, ◌≤◌, ◌+◌, ◌++◌, ◌^◌, List, ℕ, length};
ghost use Rattle.press_memory.specs.Answers.{HandedTo};

use std::alloc::Global;

/// No fault.
pub const NO_FAULT: u32 = 0;

/// Memory ran out.
pub const NO_MEMORY: u32 = 1;

/// What a call answers: its fault, how many bytes it has, and how many of them it put into the caller's room.
#[repr(C)]
#[derive(Clone, Copy)]
pub struct RombixelaAnswer {
    /// 0, or the number of the fault; 1 where memory ran out, 2 where the settings are refused.
    pub fault: u32,
    pub bytes: u64,
    pub put: u64,
}

impl RombixelaAnswer {
    /// Nothing was handed to the room.
    pub(crate) fn nothing(fault: u32) -> Self
        ensures { result ≡ record { fault = fault; bytes = 0; put = 0 } }
    {
        RombixelaAnswer {
            fault,
            bytes: 0,
            put: 0,
        }
    }

    /// Puts the front of more bytes into the caller's room, as many as fit behind those that stand there, and counts all of them. The rest of the
    /// room stays as it is.
    pub(crate) fn hand_more(&mut self, bytes: &[u8], room: &mut [u8])
        requires fits { self.old.bytes + length bytes.now < 2 ^ 64 }
        requires inside { self.old.put ≤ length room.old }
        ensures fault { self.new.fault ≡ self.old.fault }
        ensures bytes { self.new.bytes ≡ self.old.bytes + length bytes.now }
        ensures handed { (written before : List ℕ) → HandedTo written before room.old self.old
            → HandedTo (written ++ bytes.now) before room.new self.new }
    {
        let begin = self.put as usize;
        let put = bytes.len().min(room.len() - begin);
        room[begin..begin + put].copy_from_slice(&bytes[..put]);
        self.put += put as u64;
        self.bytes += bytes.len() as u64;
    }
}

/// What the program writes, and its fault.
#[derive(Drop)]
pub(crate) struct Written {
    pub(crate) fault: u32,
    pub(crate) bytes: Vec<u8>,
}

impl Written {
    ghost use Rattle.std.specs.Prelude.{◌≡◌, []};

    /// Nothing is written, for this fault.
    pub(crate) fn nothing(alloc: Global, fault: u32) -> Self
        ensures fault { result.fault ≡ fault }
        ensures bytes { result.bytes.items ≡ [] }
    {
        Written {
            fault,
            bytes: Vec::new(alloc),
        }
    }
}

/// Puts the front of bytes into the caller's room, as many as fit, and counts all of them. The rest of the room stays as it is.
pub(crate) fn hand_over(fault: u32, bytes: &[u8], room: &mut [u8]) -> RombixelaAnswer
    ensures fault { result.fault ≡ fault }
    ensures handed { HandedTo bytes.now room.old room.new result }
{
    let mut answer = RombixelaAnswer::nothing(fault);
    answer.hand_more(bytes, room);
    answer
}
