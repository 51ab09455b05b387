// Parts of buffers.
ghost use Rattle.std.specs.Prelude.{◌≡◌, ◌+◌, ◌≤◌, length};
ghost use Rattle.std.proofs.lemmas.List.Edits.{sets};

/// Stores items from the place `at` on, all before the buffer's end. A copy by one call, of a length that the compiler does not know, would make the archive need `memmove`.
pub fn store<T: Copy>(to: &mut [T], at: usize, items: &[T])
    requires { at + length items.now ≤ length to.old }
    ensures { to.new ≡ sets to.old at items.now }
{
    for (i, x) in items.iter().enumerate() {
        to[at + i] = *x;
    }
}
