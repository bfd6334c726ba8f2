// Whether no two records of a directory have the same name.
ghost use Rattle.std.specs.Prelude.{◌≡◌, ◌+◌, ◌≤◌, ◌<◌, length};
ghost use Rattle.meaning.specs.Name.{entry_in, entry_at, is_blank, same};
ghost use Rattle.soundness.specs.Rules.{new_at, names_at};
ghost use Rattle.soundness.specs.Slots.{slot};
ghost use Rattle.names.specs.RecordNames.{record_from};
ghost use Rattle.soundness.specs.RecordRules.{Filled};
ghost use Rattle.soundness.specs.Chains.{Padded, chain_at, Last, Links};

use crate::directory::DirectoryRecords;
use records::rows::every;
use records::{four_at, two_at, zeros_at};

// The names of records that are sound: zeros stand behind each.
#[derive(Drop)]
pub struct Names<'r, 'a, 's> {
    pub records: &'r DirectoryRecords<'a, 's>,
    ghost padded: { Padded records.now.blocks.now records.now.starts.now records.now.count },
}

// Whether the records that start at two places have the same name. Zeros stand behind both, so their bytes are compared
// four at a time.
fn same_name(table: &[u8], at: usize, other: usize) -> bool
    requires records_in_bounds { (at + 16 ≤ length table.now) × (other + 16 ≤ length table.now) }
    requires at_filled { Filled table.now at }
    requires other_filled { Filled table.now other }
    ensures { result ≡ same (entry_in (record_from table.now at)).name (entry_in (record_from table.now other)).name }
{
    four_at(table, at + 2) == four_at(table, other + 2)
        && four_at(table, at + 6) == four_at(table, other + 6)
        && four_at(table, at + 10) == four_at(table, other + 10)
        && two_at(table, at + 14) == two_at(table, other + 14)
}

impl Names<'_, '_, '_> {
    // Whether record i is blank.
    fn is_blank(&self, i: usize) -> bool
        requires { i < self.now.records.now.count }
        ensures { result ≡ is_blank self.now.records.now.blocks.now (slot self.now.records.now.starts.now i) }
    {
        zeros_at(self.records.blocks, self.records.start(i), 16)
    }

    // Whether records i and j have the same name.
    fn are_same(&self, i: usize, j: usize) -> bool
        requires { (i < self.now.records.now.count) × (j < self.now.records.now.count) }
        ensures { result ≡ same (entry_at self.now.records.now.blocks.now (slot self.now.records.now.starts.now i)).name (entry_at self.now.records.now.blocks.now (slot self.now.records.now.starts.now j)).name }
    {
        let at = self.records.start(i);
        let other = self.records.start(j);
        same_name(self.records.blocks, at, other)
    }

    // Whether record i is blank, or no record before it has its name.
    fn is_new(&self, i: usize) -> bool
        requires { i < self.now.records.now.count }
        ensures { result ≡ new_at self.now.records.now.blocks.now self.now.records.now.starts.now i }
    {
        self.is_blank(i) || every(i, |j| !self.are_same(j, i))
    }

    // Whether no two have the same name, each compared with every one before it.
    fn all_compared(&self) -> bool
        ensures { result ≡ names_at self.now.records.now.blocks.now self.now.records.now.starts.now self.now.records.now.count }
    {
        every(self.records.count, |i| self.is_new(i))
    }

    // Which of 1,024 chains record i belongs to: its name's 14 bytes, mixed.
    fn chain(&self, i: usize) -> usize
        requires { i < self.now.records.now.count }
        ensures { result ≡ chain_at self.now.records.now.blocks.now self.now.records.now.starts.now i }
    {
        let table = self.records.blocks;
        let at = self.records.start(i);
        let a = four_at(table, at + 2) as u64;
        let b = four_at(table, at + 6) as u64;
        let c = four_at(table, at + 10) as u64;
        let d = two_at(table, at + 14) as u64;
        let mixed = 663608941 * a + 1013904223 * b + 741103597 * c + 597273977 * d;
        (mixed / 67108864 % 1024) as usize
    }

    // Whether record i is blank, or no record before it in its chain has its name. `last` is one more than the chain's
    // last record before it, links[k] the same of record k, and 0 says that there is none: an Option in each place of these
    // rows would double them.
    fn is_new_in_chain(&self, links: &[u16; 2048], i: usize, last: u16) -> bool
        requires i_in_bounds { i < self.now.records.now.count }
        requires linked { Links self.now.records.now.blocks.now self.now.records.now.starts.now i links.now }
        requires last_of_chain { Last self.now.records.now.blocks.now self.now.records.now.starts.now (chain_at self.now.records.now.blocks.now self.now.records.now.starts.now i) i last }
        ensures { result ≡ new_at self.now.records.now.blocks.now self.now.records.now.starts.now i }
    {
        if self.is_blank(i) {
            return true;
        }
        // The links lead on, and no count does.
        let mut next = last as usize;
        while 0 < next {
            let k = next - 1;
            if self.are_same(k, i) {
                return false;
            }
            next = links[k] as usize;
        }
        true
    }

    // The same as all_compared, where a name is compared with those of its chain alone. Not inlined, so that a directory of few
    // records takes no stack for chains.
    #[inline(never)]
    fn all_chained(&self) -> bool
        ensures { result ≡ names_at self.now.records.now.blocks.now self.now.records.now.starts.now self.now.records.now.count }
    {
        let mut lasts: [u16; 1024] = [0; 1024];
        let mut links: [u16; 2048] = [0; 2048];
        for i in 0..self.records.count {
            let h = self.chain(i);
            let last = lasts[h];
            if !self.is_new_in_chain(&links, i, last) {
                return false;
            }
            links[i] = last;
            lasts[h] = (i + 1) as u16;
        }
        true
    }

    // Whether no two have the same name. For few records chains do not pay.
    pub fn all_new(&self) -> bool
        ensures { result ≡ names_at self.now.records.now.blocks.now self.now.records.now.starts.now self.now.records.now.count }
    {
        if self.records.count < 8 {
            self.all_compared()
        } else {
            self.all_chained()
        }
    }
}
