//! The buffer of a scanner.

ghost use Rattle.std.specs.Prelude.{◌≡◌, ◌≤◌, ◌+◌, ◌-◌, drop, vec_len, vec_capacity};

/// Drops the bytes before `start` where they are at least as many as those from there on, and answers where
/// these begin now. So each byte is moved at most as often as another one was consumed.
pub fn drop_consumed(buffer: &mut Vec<u8>, start: usize) -> usize
    requires { start ≤ vec_len buffer.old }
    ensures within { result ≤ vec_len buffer.new }
    ensures capacity { vec_capacity buffer.new ≡ vec_capacity buffer.old }
    ensures unread { drop result buffer.new.items ≡ drop start buffer.old.items }
{
    if start < buffer.len() - start {
        return start;
    }
    move_to_front(buffer, start);
    0
}

/// Drops the bytes before `start` where there is no room behind the others for so many more.
pub fn make_room(buffer: &mut Vec<u8>, start: usize, more: usize) -> usize
    requires start { start ≤ vec_len buffer.old }
    requires fits { vec_len buffer.old - start + more ≤ vec_capacity buffer.old }
    ensures within { result ≤ vec_len buffer.new }
    ensures capacity { vec_capacity buffer.new ≡ vec_capacity buffer.old }
    ensures room { vec_len buffer.new + more ≤ vec_capacity buffer.new }
    ensures unread { drop result buffer.new.items ≡ drop start buffer.old.items }
{
    if more <= buffer.capacity() - buffer.len() {
        return start;
    }
    move_to_front(buffer, start);
    0
}

/// Moves the bytes from `start` on to the front, and drops those before it.
fn move_to_front(buffer: &mut Vec<u8>, start: usize)
    requires { start ≤ vec_len buffer.old }
    ensures capacity { vec_capacity buffer.new ≡ vec_capacity buffer.old }
    ensures moved { buffer.new.items ≡ drop start buffer.old.items }
{
    let unread = buffer.len() - start;
    buffer.copy_within(start.., 0);
    buffer.truncate(unread);
}
