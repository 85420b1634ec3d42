//! The stock and its calls.

ghost use Rattle.std.specs.Prelude.{◌≡◌, ◌+◌, ◌≤◌, ◌<◌, [], length, take, drop, IfOk, OnOk, OnErr, MatchOption, IfSome, IsTrue, All};
ghost use Rattle.extent_cache.specs.Stock.{IsStock, AreNew, with_clusters, with_number, Holds, merged, clusters_kept, numbers_kept};

use crate::rising::{
    clusters_of, copied, drop_covered, drop_first, numbers_of, put_each, put_in, with_room,
};
use crate::taken::{Taken, Taken2};
use plain_cat::NoMemory;
use std::alloc::Global;
use std::marker::Model;

/// How many clusters a volume has at most, and how many file numbers.
const CLUSTERS: usize = 65_536;

const NUMBERS: usize = 4_096;

/// A stock of free clusters and file numbers, with room for all that a volume can have.
#[derive(Drop)]
pub struct Extents {
    clusters: Vec<u32>,
    numbers: Vec<u32>,
}

impl Model for Extents {
    ghost use Rattle.std.specs.Prelude.{◌-◌, ◌≤◌, vec_capacity, vec_len};
    ghost use Rattle.extent_cache.specs.Stock.{Stock, RisesWithin};

    ghost Value = { Stock };

    ghost view = { λ e. record {
      clusters = e.clusters.items;
      numbers = e.numbers.items;
      cluster_room = vec_capacity e.clusters - vec_len e.clusters;
      number_room = vec_capacity e.numbers - vec_len e.numbers;
    } };

    ghost invariant = { λ e. RisesWithin 0 65536 e.clusters.items × (RisesWithin 1 4097 e.numbers.items × ((65536 ≤ vec_capacity e.clusters) × (4096 ≤ vec_capacity e.numbers))) };
}

impl Extents {
    ghost use Rattle.extent_cache.specs.Takings.{taken, numbers_left, holds_enough};

    /// An empty stock, with room for all clusters and file numbers that a volume can have. It fails only where memory is refused.
    pub fn new(alloc: Global) -> Result<Extents, NoMemory>
        ensures { IfOk result (λ e. (e.clusters ≡ []) × (e.numbers ≡ [])) }
    {
        Ok(Extents {
            clusters: with_room(alloc, CLUSTERS)?,
            numbers: with_room(alloc, NUMBERS)?,
        })
    }

    /// The `clusters` lowest clusters, and with `number` the lowest file number. The stock keeps them. None comes exactly
    /// where it holds too few of either.
    pub fn lowest(
        &self,
        alloc: Global,
        clusters: u32,
        number: bool,
    ) -> Result<Option<Taken>, NoMemory>
        ensures { IfOk result (λ t. t ≡ taken clusters number self.now) }
    {
        let count = clusters as usize;
        if self.clusters.len() < count || number && self.numbers.is_empty() {
            return Ok(None);
        }
        let clusters = clusters_of(alloc, &self.clusters[..count])?;
        let number = if number { Some(self.numbers[0]) } else { None };
        Ok(Some(Taken { clusters, number }))
    }

    /// Drops what `lowest` gives, where the stock holds enough of it. It takes no memory, and keeps what it has.
    pub fn drop_lowest(&mut self, clusters: u32, number: bool)
        requires { IsTrue (holds_enough clusters number self.old) }
        ensures { Holds (drop clusters self.old.clusters) (numbers_left number self.old.numbers) self.old self.new }
    {
        drop_first(&mut self.clusters, clusters as usize);
        if number {
            drop_first(&mut self.numbers, 1);
        }
    }

    /// Takes the `clusters` lowest clusters, and with `number` the lowest file number. None comes exactly where the
    /// stock holds too few of either, and then it stays as it is, as it does where memory is refused.
    pub fn take(
        &mut self,
        alloc: Global,
        clusters: u32,
        number: bool,
    ) -> Result<Option<Taken>, NoMemory>
        ensures taken { IfOk result (λ t. t ≡ taken clusters number self.old) }
        ensures left { IfOk result (λ t. MatchOption t (self.new ≡ self.old)
            (λ _. Holds (drop clusters self.old.clusters) (numbers_left number self.old.numbers) self.old self.new)) }
        ensures err { OnErr result (self.new ≡ self.old) }
    {
        let lowest = self.lowest(alloc, clusters, number)?;
        if lowest.is_some() {
            self.drop_lowest(clusters, number);
        }
        Ok(lowest)
    }

    /// Takes memory for this many clusters and file numbers more, so that they go in without any. What is held stays,
    /// also where memory is refused.
    pub fn make_room(&mut self, _alloc: Global, clusters: u32, numbers: u32) -> Result<(), NoMemory>
        ensures same { Holds self.old.clusters self.old.numbers self.old self.new }
        ensures clusters { OnOk result (clusters ≤ self.new.cluster_room) }
        ensures numbers { OnOk result (numbers ≤ self.new.number_room) }
    {
        self.clusters.reserve(clusters as usize)?;
        self.numbers.reserve(numbers as usize)
    }

    /// Puts in the `n` clusters from `from` on, all below 65,536 and none of them held. It takes no memory: room for
    /// them was made before.
    pub fn put_clusters(&mut self, from: u32, n: u32)
        requires within { from + n ≤ 65536 }
        requires new { AreNew from n self.old.clusters }
        requires room { n ≤ self.old.cluster_room }
        ensures { self.new ≡ with_clusters from n self.old }
    {
        put_in(&mut self.clusters, from, n);
    }

    /// Puts in a file number, from 1 to 4,096 and not held. It takes no memory: room for it was made before.
    pub fn put_number(&mut self, n: u32)
        requires least { 1 ≤ n }
        requires most { n ≤ 4096 }
        requires new { AreNew n 1 self.old.numbers }
        requires room { 1 ≤ self.old.number_room }
        ensures { self.new ≡ with_number n self.old }
    {
        put_in(&mut self.numbers, n, 1);
    }

    /// Puts in these clusters, all below 65,536, and these file numbers, from 1 to 4,096. Those that are held already stay as they
    /// are. It takes no memory.
    pub fn put_all(&mut self, clusters: &[u32], numbers: &[u32])
        requires clusters { All (λ c. c < 65536) clusters.now }
        requires numbers { All (λ n. (1 ≤ n) × (n ≤ 4096)) numbers.now }
        ensures clusters { self.new.clusters ≡ merged clusters.now self.old.clusters }
        ensures numbers { self.new.numbers ≡ merged numbers.now self.old.numbers }
    {
        put_each(&mut self.clusters, clusters, 0, CLUSTERS);
        put_each(&mut self.numbers, numbers, 1, NUMBERS);
    }

    /// A stock of all but what `lowest` gives, where this one holds enough of it. This one keeps it.
    pub fn rest(&self, alloc: Global, clusters: u32, number: bool) -> Result<Extents, NoMemory>
        requires { IsTrue (holds_enough clusters number self.now) }
        ensures clusters { IfOk result (λ e. e.clusters ≡ drop clusters self.now.clusters) }
        ensures numbers { IfOk result (λ e. e.numbers ≡ numbers_left number self.now.numbers) }
    {
        let first = if number { 1 } else { 0 };
        Ok(Extents {
            clusters: copied(alloc, &self.clusters[clusters as usize..], CLUSTERS)?,
            numbers: copied(alloc, &self.numbers[first..], NUMBERS)?,
        })
    }

    /// All that is held. The stock keeps it.
    pub fn all(&self, alloc: Global) -> Result<Taken2, NoMemory>
        ensures clusters { IfOk result (λ t. t.clusters ≡ self.now.clusters) }
        ensures numbers { IfOk result (λ t. t.numbers.items ≡ self.now.numbers) }
    {
        Ok(Taken2 {
            clusters: clusters_of(alloc, &self.clusters)?,
            numbers: numbers_of(alloc, &self.numbers)?,
        })
    }

    /// Drops the clusters that one storage bitmap block covers, 0 to 15, or all file numbers for None.
    pub fn give_back_one(&mut self, storage_block: Option<u32>)
        requires { IfSome storage_block (λ block. block < 16) }
        ensures { Holds (clusters_kept storage_block self.old.clusters) (numbers_kept storage_block self.old.numbers) self.old self.new }
    {
        match storage_block {
            Some(block) => drop_covered(&mut self.clusters, block),
            None => self.numbers.clear(),
        }
    }

    /// How many clusters are held.
    pub fn count(&self) -> u32
        ensures count { result ≡ length self.now.clusters }
        ensures stock { IsStock self.now }
    {
        self.clusters.len() as u32
    }

    /// The clusters that are held, in rising order.
    pub fn clusters(&self) -> &[u32]
        ensures { result.now ≡ self.now.clusters }
    {
        &self.clusters
    }

    /// The file numbers that are held, in rising order.
    pub fn numbers(&self) -> &[u32]
        ensures { result.now ≡ self.now.numbers }
    {
        &self.numbers
    }

    /// Drops all that is held, and keeps the memory.
    pub fn clear(&mut self)
        ensures { Holds [] [] self.old self.new }
    {
        self.clusters.clear();
        self.numbers.clear();
    }
}
