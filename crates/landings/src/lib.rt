// Which vertices a path landed on, while it is read.
#![tactic(auto)]

ghost use Rattle.std.specs.Prelude.{◌≡◌, Bool, false, ◌||◌, ℕ, suc, ◌/◌, ◌%◌, ◌≤◌, ◌<◌, eqb, length, get_or, set};
ghost use Rattle.rules.specs.Limits.{highest_vertex};
ghost use Rattle.landings.specs.Chain.{on_chain};
ghost use Rattle.landings.specs.LandedBefore.{LandedBefore, HeadsWithin, SameParts};

mod words;

use rules::Vertex;
pub use words::Landings;

impl<'a> Landings<'a> {
    // The words before the first of n path points.
    pub fn none(work: &'a mut [u32], n: usize) -> Landings<'a>
        requires { n ≤ length work.old / 4 }
        ensures count { length result.vertices.now ≡ n }
        ensures none { LandedBefore result (λ v. false) 0 }
    {
        let (vertices, others) = work.split_at_mut(n);
        let (flags, chains) = others.split_at_mut(n);
        let (heads, behind) = chains.split_at_mut(n);
        let (links, _) = behind.split_at_mut(n);
        flags.fill(0);
        heads.fill(0);
        links.fill(0);
        Landings {
            vertices,
            flags,
            heads,
            links,
        }
    }
}

impl Landings<'_> {
    // Whether vertex v is in the chain of its remainder.
    fn is_chained(&self, v: Vertex) -> bool
        requires { 0 < length self.now.vertices.now }
        ensures { result
            ≡ on_chain self.now.vertices.now self.now.links.now v.0 (get_or self.now.heads.now (v.0 % length self.now.vertices.now) 0) }
    {
        // The links lie in the lent slice of u32, for the library has no heap: the chain is walked by hand, and 0 ends it.
        let mut cursor = self.heads[v.0 as usize % self.vertices.len()];
        while cursor != 0 {
            let place = cursor as usize - 1;
            if self.vertices[place] == v.0 {
                return true;
            }
            cursor = self.links[place];
        }
        false
    }

    // Whether vertex v was landed on.
    pub fn has_landed(&self, v: Vertex) -> bool
        requires { 0 < length self.now.vertices.now }
        ensures { (S : ℕ → Bool) (i : ℕ) → LandedBefore self.now S i → result ≡ S v.0 }
    {
        let vertex = v.0 as usize;
        if vertex < self.vertices.len() {
            return self.flags[vertex] != 0;
        }
        self.is_chained(v)
    }

    // Path point i is vertex v, on which it does not land.
    pub fn step_back(&mut self, i: usize, v: Vertex)
        requires { i < length self.old.vertices.now }
        ensures same { SameParts self.old self.new }
        ensures vertices { self.new.vertices.now ≡ set self.old.vertices.now i v.0 }
        ensures holds { (S : ℕ → Bool) → LandedBefore self.old S i → LandedBefore self.new S (suc i) }
    {
        self.vertices[i] = v.0;
    }

    // Path point i lands on vertex v.
    pub fn land(&mut self, i: usize, v: Vertex)
        requires place { i < length self.old.vertices.now }
        requires vertex { v.0 ≤ highest_vertex }
        requires heads { HeadsWithin self.old i }
        ensures same { SameParts self.old self.new }
        ensures vertices { self.new.vertices.now ≡ set self.old.vertices.now i v.0 }
        ensures holds { (S : ℕ → Bool) → LandedBefore self.old S i → LandedBefore self.new (λ u. S u || eqb v.0 u) (suc i) }
    {
        let count = self.vertices.len();
        let number = v.0;
        let vertex = number as usize;
        self.vertices[i] = number;
        if vertex < count {
            self.flags[vertex] = 1;
            return;
        }
        let chain = vertex % count;
        self.links[i] = self.heads[chain];
        self.heads[chain] = i as u32 + 1;
    }
}
