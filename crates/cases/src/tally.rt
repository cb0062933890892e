// How many calls were compared, and how many agreed.
use crate::sort::Sort;
use std::io;

#[derive(Clone, Copy, Debug, Default, PartialEq, Eq)]
struct Count {
    compared: u32,
    agreed: u32,
}

impl Count {
    fn add(&mut self, agrees: bool) {
        self.compared = self.compared.saturating_add(1);
        if agrees {
            self.agreed = self.agreed.saturating_add(1);
        }
    }

    fn all_agree(self) -> bool {
        self.agreed == self.compared
    }
}

// Of the calls of each sort, of all of them, and of those that were made once more in a list. The sorts' counts lie in an array, in the order of the
// sorts: a map would want memory, which may be lacking.
#[derive(Clone, Copy, Default)]
pub(crate) struct Tally {
    sorts: [Count; 13],
    all: Count,
    listed: Count,
}

impl Tally {
    pub(crate) fn add(&mut self, sort: Sort, agrees: bool) {
        if let Some(count) = self.sorts.get_mut(sort as usize) {
            count.add(agrees);
        }
        self.all.add(agrees);
    }

    pub(crate) fn add_listed(&mut self, agrees: bool) {
        self.listed.add(agrees);
    }

    pub(crate) fn all_agree(&self) -> bool {
        self.all.all_agree() && self.listed.all_agree()
    }

    pub(crate) fn print(&self, rt: &impl Print) -> io::Result<()> {
        rt.println("call        compared    agreed")?;
        for (sort, count) in Sort::ALL.iter().zip(self.sorts.iter()) {
            print_count(rt, sort.name(), *count)?;
        }
        print_count(rt, "all", self.all)?;
        print_count(rt, "in lists", self.listed)
    }
}

// Whether the reply to the call on this line is the expected one; where it differs, both are shown.
pub(crate) fn agrees(rt: &impl Print, line: u64, expected: &str, got: &str) -> io::Result<bool> {
    let agrees = got == expected;
    if !agrees {
        println!(rt; "line {line}\n  expected {expected}\n  got {got}")?;
    }
    Ok(agrees)
}

fn print_count(rt: &impl Print, name: &str, count: Count) -> io::Result<()> {
    let compared = count.compared;
    let agreed = count.agreed;
    println!(rt; "{name:<10}{compared:>10}{agreed:>10}")
}
