//! Declared keys by their numbers.

ghost use Rattle.std.specs.Prelude.{◌≡◌};
ghost use Rattle.pr_roles.specs.Keys.{key_at};

/// The declared key of this number, which counts from 1; 0 is none.
pub fn key_at(declared: &[u64], number: u8) -> Option<u64>
    ensures { result ≡ key_at declared.now number }
{
    if number == 0 {
        return None;
    }
    declared.get(usize::from(number - 1)).copied()
}
