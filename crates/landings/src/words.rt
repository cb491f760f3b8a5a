// The words of the work slice while a path is read.

ghost use Rattle.landings.specs.FallingLinks.{Falling, falling_prop};

// The words while a path is read, in four parts of the work slice that the caller lends, each as long as the path has points: the vertex of each path point
// so far; for each vertex below this length whether it was landed on, 1 or 0; and the heads and links of chains of the path points that landed on a higher one,
// which a path does only if it leaves vertices out. Such a vertex is on the chain of its remainder by this length. A head or link is 0, or one more than a
// path place: a lent u32 holds no `Option`.
#[derive(Drop)]
pub struct Landings<'a> {
    pub vertices: &'a mut [u32],
    pub flags: &'a mut [u32],
    pub heads: &'a mut [u32],
    pub links: &'a mut [u32],
    ghost falling: { Falling vertices.now flags.now heads.now links.now } by { falling_prop vertices.now flags.now heads.now links.now },
}
