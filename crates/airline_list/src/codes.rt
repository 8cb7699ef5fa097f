// The codes of the lines so far, a bit each: they are few to clear for each list.
ghost use Rattle.std.specs.Prelude.{cond, not, ◌≡◌, ◌<◌, replicate};
ghost use Rattle.airline_list.specs.Read.{codes, has_bit, with_bit};

const WORDS: usize = 16;

const BITS: usize = 64;

#[derive(Drop)]
pub struct Codes {
    bits: [u64; WORDS],
}

impl Codes {
    pub fn none() -> Codes
        ensures { result.bits ≡ replicate 16 0 }
    {
        Codes { bits: [0; WORDS] }
    }

    // Adds a code, and answers whether it is new, as a set's `insert`.
    pub fn insert(&mut self, code: usize) -> bool
        requires { code < codes }
        ensures is_new { has_bit self.old.bits code ≡ not result }
        ensures with_code { self.new.bits
            ≡ cond result (with_bit self.old.bits code) self.old.bits }
    {
        let word = self.bits[code / BITS];
        if (word >> (code % BITS)) % 2 == 1 {
            return false;
        }
        self.bits[code / BITS] = word | (1u64 << (code % BITS));
        true
    }
}
