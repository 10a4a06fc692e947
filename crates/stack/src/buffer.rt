// What stages and carriers do to the buffers that they are lent.
ghost use Rattle.std.specs.Prelude.{◌≡◌, ◌≤◌, length, replicate};
ghost use Rattle.stack.specs.Buffers.{padded};

// Leaves nothing in a buffer: every element becomes the default of its type, 0 for a number and none for an option.
pub fn clear<T: Copy + Default>(buffer: &mut [T])
    ensures { (blank : T) × T.is_default blank × (buffer.new ≡ replicate (length buffer.old) blank) }
{
    let blank = T::default();
    for element in buffer.iter_mut() {
        *element = blank;
    }
}

// Writes a body to the front of a buffer, and zeros behind it.
pub fn load(buffer: &mut [u8], body: &[u8])
    requires { length body.now ≤ length buffer.old }
    ensures { buffer.new ≡ padded (length buffer.old) body.now }
{
    clear(buffer);
    let n = body.len();
    buffer[0..n].copy_from_slice(body);
}
