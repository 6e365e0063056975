// What the walk keeps of the bodies that it has walked, and the conflicts that it has found.
ghost use Rattle.std.specs.Prelude.{◌≡◌, ℕ, length};
ghost use Rattle.list.specs.Working.{packed, Bit, union_of, shared_of, MetBy};

use crate::bits;
use crate::bits::Set;

// The conflicts found; by function the calls of its body, its sites, which are the calls of it that were met, and the functions called in
// its body, bit 0 beside them, 0 where the body wasn't walked.
#[derive(Clone, Copy)]
pub struct Kept {
    pub conflicts: Set,
    pub calls: [Set; 33],
    pub sites: [Set; 33],
    pub called: [u32; 33],
}

impl Kept {
    // The sites of the functions that a mask names; bit 0 of the mask names none.
    fn union(&self, mask: u32) -> Set
        ensures { (length result ≡ 8) × ((m : ℕ) → Bit m → packed result m ≡ union_of self.now.sites mask 31 m) }
    {
        let mut all = [0u64; 8];
        for h in 1..32 {
            if mask >> h & 1 == 1 {
                bits::join(&mut all, &self.sites[h]);
            }
        }
        all
    }

    // What holds a set's calls of the functions that are called twice, all of them where each function called is.
    fn shared(&self, set: &Set, once: u32, twice: u32) -> Set
        ensures { (length result ≡ 8)
            × ((m : ℕ) → Bit m → packed result m ≡ shared_of set.now self.now.sites once twice m) }
    {
        if once == twice {
            return *set;
        }
        self.union(twice)
    }

    // Joins to the conflicts a set's calls of the functions that are called twice. The set is read as a copy, which LLVM knows apart from
    // the conflicts.
    pub(crate) fn meet(&mut self, set: &Set, once: u32, twice: u32)
        ensures { MetBy set.now once twice self.old self.new }
    {
        if twice < 2 && once != twice {
            return;
        }
        let all = self.shared(set, once, twice);
        let own = *set;
        for (i, x) in self.conflicts.iter_mut().enumerate() {
            *x |= own[i] & all[i];
        }
    }
}
