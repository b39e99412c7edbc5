// The search for the next feasible pair at a split point.
ghost use Rattle.std.specs.Prelude.{ℕ, ◌≡◌};
ghost use Rattle.endian.specs.Bytes.{whole32};
ghost use Rattle.lengths.specs.Table.{Lengths};
ghost use Rattle.sets.specs.asks.Stored.{Held};
ghost use Rattle.sets.specs.declared.neighbours.Neighbours.TheVariants.{One, Two};
ghost use Rattle.search.specs.asks.Candidates.{CandidatesOf};
ghost use Rattle.search.specs.asks.Split.{Bounded};

use crate::candidates;
use endian::bytes::Number;
use lengths::edge;
use lengths::instance::Instance;
use lengths::table::length_between;
use rules::legs;
use sets::beyond::look_beyond;
use sets::edge_set::EdgeSet;
use sets::neighbours::{Neighbours, PathStep};
use sets::shape::shuts;

// What the search at the split point c reads: the table of what is put in; the legs, their candidates and ranks, and
// the bound, all of K = k at c; and the neighbours that c has in k.
#[derive(Clone, Copy)]
pub struct Search<'a> {
    pub n: u16,
    pub table: &'a [u8],
    pub legs: &'a [u32; Instance::PLACES],
    pub candidates: &'a [u16; candidates::PLACES],
    pub rank: &'a [u16; candidates::PLACES],
    pub bound: u32,
    pub c: u16,
    pub centre: Neighbours,
    pub k: EdgeSet,
    pub ghost lengths: { Lengths n (whole32 table.now) },
    pub ghost bounded: { Bounded legs.now bound },
    pub ghost listed: { CandidatesOf n legs.now candidates.now rank.now },
    pub ghost apart: { (a b : ℕ) → centre ≡ Two a b → a ≡ b → ⊥ },
    pub ghost held: { Held n k },
}

impl Search<'_> {
    ghost use Rattle.search.specs.asks.Pairs.{first_after, passing, allowing, fitting, Place, NextPairOf};

    // The first point after y whose pair with x passes the one comparison. Only candidates are tried.
    fn next_in_row(&self, x: u16, y: u16) -> Option<u16>
        requires { Place self.now x y }
        ensures { result ≡ first_after self.now (passing self.now x) y }
    {
        let legs = self.legs;
        let leg = legs[x as usize];
        if leg == legs::FAR || self.n <= y {
            return None;
        }
        let cost = leg + Instance::MOST_LENGTH;
        let after = x + 1;
        let first = edge::place(self.n, x, after);
        let from = self.rank[y as usize + 1] as usize;
        let to = self.rank[self.n as usize + 1] as usize;
        let candidates = self.candidates;
        for &z in &candidates[from..to] {
            let length = u32::number(self.table, first + (z - after) as usize);
            if cost + legs[z as usize] <= length + self.bound {
                return Some(z);
            }
        }
        None
    }

    // The first point after y that is a or lies beside x = a, and passes the comparison with x.
    fn next_with(&self, a: u16, x: u16, y: u16) -> Option<u16>
        requires { Place self.now x y }
        ensures { result ≡ first_after self.now (allowing self.now (One a) x) y }
    {
        if a == x {
            return self.next_in_row(x, y);
        }
        if a <= y || self.n < a {
            return None;
        }
        let cost = self.legs[x as usize] + Instance::MOST_LENGTH + self.legs[a as usize];
        if cost as u64 <= length_between(self.n, self.table, x, a) + self.bound as u64 {
            return Some(a);
        }
        None
    }

    // The first point after y that passes the comparison with x and leaves none of c's neighbours out.
    fn next_beside(&self, x: u16, y: u16) -> Option<u16>
        requires { Place self.now x y }
        ensures { result ≡ first_after self.now (allowing self.now self.now.centre x) y }
    {
        match self.centre {
            Neighbours::None => self.next_in_row(x, y),
            Neighbours::One(a) => self.next_with(a, x, y),
            Neighbours::Two(a, b) if a == x => self.next_with(b, x, y),
            Neighbours::Two(a, b) if b == x => self.next_with(a, x, y),
            Neighbours::Two(_, _) => None,
            Neighbours::More => None,
        }
    }

    // The first point after y whose pair with x passes the comparison and meets conditions 2 and 3. What x has in k is
    // read once a row, and only where a pair passes: with several edges there, x is in no pair. Ends: each z found is
    // above the one before.
    fn next_in_shape(&self, x: u16, y: u16) -> Option<u16>
        requires { Place self.now x y }
        ensures { result ≡ first_after self.now (fitting self.now x) y }
    {
        let mut z = self.next_beside(x, y)?;
        let ahead = look_beyond(self.k, x, self.c);
        if ahead == PathStep::Fork {
            return None;
        }
        while shuts(self.n, self.k, self.c, x, z, ahead) {
            z = self.next_beside(x, z)?;
        }
        Some(z)
    }

    // The first feasible pair after xy: rows rise, and in a row the points. After 1-1 it is the first of all. Only
    // candidates have rows. Ends: the row a rises to n.
    pub fn next_pair(&self, x: u16, y: u16) -> Option<(u16, u16)>
        requires { Place self.now x y }
        ensures { NextPairOf self.now x y result }
    {
        let mut a = x;
        let mut b = y;
        while a < self.n {
            if let Some(z) = self.next_in_shape(a, b) {
                return Some((a, z));
            }
            a = self.candidates[self.rank[a as usize + 1] as usize];
            b = a;
        }
        None
    }
}
