// Numbers in lent bytes, the lowest byte first, and sets of permissions.
#![tactic(auto, using(crate::proofs::Stores::word_laws))]

ghost use Rattle.std.specs.Prelude.{◌≡◌, ℕ, ◌+◌, ◌^◌, ◌<◌, ◌≤◌, length, set};
ghost use Rattle.std.proofs.lemmas.List.Edits.{sets};
ghost use Rattle.words.specs.Numbers.{le_at, bytes_of};
ghost use Rattle.words.specs.Sets.{member, insert, remove};

// A number that lies in lent bytes. The compiler makes one load or store of each call. The bytes that are read are listed, since of a
// part that is made an array the check does not see them.
pub trait Word: Copy {
    // how many bytes it has
    ghost width: { ℕ };

    ghost number: { Self → ℕ };

    fn read(s: &[u8], i: usize) -> Self
        requires { i + width ≤ length s.now }
        ensures { number result ≡ le_at width s.now i };

    fn write(self, s: &mut [u8], i: usize)
        requires { i + width ≤ length s.old }
        ensures bytes { s.new ≡ sets s.old i (bytes_of width (number self)) };

    // what was read is known by its number
    ghost by_number: { (x y : Self) → number x ≡ number y → x ≡ y };
}

impl Word for u8 {
    ghost width = { 1 };

    ghost number = { λ x. x };

    ghost by_number = { λ x y e. e };

    fn read(s: &[u8], i: usize) -> u8 {
        s[i]
    }

    fn write(self, s: &mut [u8], i: usize)
        requires { i + 1 ≤ length s.old }
        ensures bytes { s.new ≡ sets s.old i (bytes_of 1 self) }
        ensures byte { s.new ≡ set s.old i self }
    {
        s[i] = self;
    }
}

impl Word for u16 {
    ghost width = { 2 };

    ghost number = { λ x. x };

    ghost by_number = { λ x y e. e };

    fn read(s: &[u8], i: usize) -> u16 {
        u16::from_le_bytes([s[i], s[i + 1]])
    }

    fn write(self, s: &mut [u8], i: usize) {
        s[i..i + 2].copy_from_slice(&self.to_le_bytes());
    }
}

impl Word for u32 {
    ghost width = { 4 };

    ghost number = { λ x. x };

    ghost by_number = { λ x y e. e };

    fn read(s: &[u8], i: usize) -> u32 {
        u32::from_le_bytes([s[i], s[i + 1], s[i + 2], s[i + 3]])
    }

    fn write(self, s: &mut [u8], i: usize) {
        s[i..i + 4].copy_from_slice(&self.to_le_bytes());
    }
}

impl Word for u64 {
    ghost width = { 8 };

    ghost number = { λ x. x };

    ghost by_number = { λ x y e. e };

    fn read(s: &[u8], i: usize) -> u64 {
        u64::from_le_bytes([
            s[i],
            s[i + 1],
            s[i + 2],
            s[i + 3],
            s[i + 4],
            s[i + 5],
            s[i + 6],
            s[i + 7],
        ])
    }

    fn write(self, s: &mut [u8], i: usize) {
        s[i..i + 8].copy_from_slice(&self.to_le_bytes());
    }
}

// A set is a `u64` and p a number, as in the definitions: a type for `p < 64` would be made and opened at each call.

// The number that p is worth: the shift is turned into a power here, once.
fn worth(p: u8) -> u64
    requires { p < 64 }
    ensures { result ≡ 2 ^ p }
{
    1 << p
}

#[tactic(auto, unfolding(crate::specs::Sets::member, crate::specs::Sets::bit))]
pub fn has(s: u64, p: u8) -> bool
    requires { p < 64 }
    ensures { result ≡ member s p }
{
    (s >> p) % 2 == 1
}

#[tactic(auto, unfolding(crate::specs::Sets::insert))]
pub fn with(s: u64, p: u8) -> u64
    requires { p < 64 }
    ensures { result ≡ insert s p }
{
    s | worth(p)
}

#[tactic(auto, using(crate::proofs::Sets::remove_and))]
pub fn without(s: u64, p: u8) -> u64
    requires { p < 64 }
    ensures { result ≡ remove s p }
{
    s - (s & worth(p))
}
