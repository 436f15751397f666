use net_core::{Link, LinkId, List, NoMemory, NodeId, Path, Surviving};
use std::alloc::Global;

/// A surviving link, taken from one of its ends to the other, with its length in a search.
#[derive(Clone, Copy)]
pub struct Arc {
    pub link: LinkId,
    to: u32,
    /// More than 0, and `FAR` where the link isn't to be used.
    pub length: u64,
}

/// What a search knows of a node.
#[derive(Clone, Copy)]
struct Place {
    /// How far it is from the root, `FAR` where it isn't reached.
    far: u64,
    link: LinkId,
    next: u32,
}

/// The length of what isn't used or reached.
pub const FAR: u64 = u64::MAX;

/// Searches in a surviving graph for paths of least length to a root. Its paths are hints, which are counted where they are used.
#[derive(Drop)]
pub struct Reach {
    /// By the nodes that they leave.
    arcs: List<Arc>,
    /// Where the arcs of each node end.
    ends: List<usize>,
    places: List<Place>,
    /// Room for the nodes that are reached and not settled.
    edge: List<u32>,
}

/// The nodes that are reached and not settled: the first ones of a list.
#[derive(Drop)]
struct Edge<'a> {
    nodes: &'a mut [u32],
    count: usize,
}

/// A node that isn't reached.
fn unreached() -> Place {
    Place {
        far: FAR,
        link: LinkId(0),
        next: 0,
    }
}

/// Which links survive.
fn surviving(alloc: Global, graph: &Surviving) -> Result<List<bool>, NoMemory> {
    let links = graph.net.links().len();
    let mut survives = List::from_vec(Vec::with_capacity(alloc, links)?);
    for e in 0..links {
        survives.push(graph.has(LinkId(e as u32)))?;
    }
    Ok(survives)
}

/// Counts an arc at its node.
fn count_arc(ends: &mut [usize], node: u32) {
    let at = node as usize;
    if at < ends.len() {
        ends[at] = ends[at].wrapping_add(1);
    }
}

/// Adds up the counts of the nodes before each one: where its arcs begin.
fn add_up(ends: &mut [usize]) {
    let mut sum = 0usize;
    for k in 0..ends.len() {
        let count = ends[k];
        ends[k] = sum;
        sum = sum.wrapping_add(count);
    }
}

/// Puts an arc at the end of those of the node that it leaves.
fn put_arc(arcs: &mut [Arc], ends: &mut [usize], link: u32, from: u32, to: u32) {
    let node = from as usize;
    if node < ends.len() {
        let at = ends[node];
        if at < arcs.len() {
            arcs[at] = Arc {
                link: LinkId(link),
                to,
                length: 1,
            };
        }
        ends[node] = at.wrapping_add(1);
    }
}

/// Puts the arcs of the links that survive at their places, by the nodes that they leave.
fn put_arcs(arcs: &mut [Arc], ends: &mut [usize], graph: &Surviving, survives: &[bool]) {
    let links = graph.net.links().items();
    for e in 0..links.len() {
        if e < survives.len() && survives[e] {
            put_arc(arcs, ends, e as u32, links[e].a.0, links[e].b.0);
            put_arc(arcs, ends, e as u32, links[e].b.0, links[e].a.0);
        }
    }
}

/// The arcs of the links that survive, each of length 1. `ends` says where those of each node begin, and then where they end.
fn arcs_of(
    alloc: Global,
    graph: &Surviving,
    survives: &[bool],
    ends: &mut [usize],
) -> Result<List<Arc>, NoMemory> {
    let none = Arc {
        link: LinkId(0),
        to: 0,
        length: FAR,
    };
    let mut arcs = List::filled(alloc, none, 2 * graph.net.links().len())?;
    put_arcs(arcs.items_mut(), ends, graph, survives);
    Ok(arcs)
}

/// Where the arcs of each node begin.
fn starts(
    alloc: Global,
    nodes: usize,
    links: &[Link],
    survives: &[bool],
) -> Result<List<usize>, NoMemory> {
    let mut ends = List::filled(alloc, 0usize, nodes)?;
    for e in 0..links.len() {
        if e < survives.len() && survives[e] {
            count_arc(ends.items_mut(), links[e].a.0);
            count_arc(ends.items_mut(), links[e].b.0);
        }
    }
    add_up(ends.items_mut());
    Ok(ends)
}

impl<'a> Edge<'a> {
    /// Adds a node.
    fn add(&mut self, node: u32) {
        if self.count < self.nodes.len() {
            self.nodes[self.count] = node;
            self.count += 1;
        }
    }

    /// Takes out the node that is nearest to the root.
    fn take_nearest(&mut self, places: &[Place]) -> Option<u32> {
        let mut at = 0;
        let mut least = FAR;
        for k in 0..self.count {
            if k < self.nodes.len() {
                let node = self.nodes[k] as usize;
                if node < places.len() && places[node].far < least {
                    at = k;
                    least = places[node].far;
                }
            }
        }
        let nodes = self.nodes.len();
        if least == FAR || at >= nodes || self.count == 0 || self.count > nodes {
            return None;
        }
        let node = self.nodes[at];
        self.count -= 1;
        self.nodes[at] = self.nodes[self.count];
        Some(node)
    }
}

/// Reaches the end of an arc from a place, if it is nearer to the root that way.
fn reach_by(places: &mut [Place], edge: &mut Edge, arc: &Arc, from: u32, far: u64) {
    let to = arc.to as usize;
    let by = far.saturating_add(arc.length);
    if to < places.len() && by < places[to].far {
        if places[to].far == FAR {
            edge.add(arc.to);
        }
        places[to] = Place {
            far: by,
            link: arc.link,
            next: from,
        };
    }
}

/// Reaches on from a place.
fn settle(places: &mut [Place], edge: &mut Edge, arcs: &[Arc], ends: &[usize], node: u32) {
    let at = node as usize;
    if at >= places.len() || at >= ends.len() {
        return;
    }
    let far = places[at].far;
    let first = if at > 0 { ends[at - 1] } else { 0 };
    for k in first..ends[at] {
        if k < arcs.len() {
            reach_by(places, edge, &arcs[k], node, far);
        }
    }
}

/// Settles one place after another, the nearest first, up to one that is asked for.
fn settle_all(places: &mut [Place], edge: &mut Edge, arcs: &[Arc], ends: &[usize], last: usize) {
    for _ in 0..places.len() {
        match edge.take_nearest(places) {
            Some(node) if node as usize != last => settle(places, edge, arcs, ends, node),
            _ => return,
        }
    }
}

/// How many links there are from a place to the root, `None` where it isn't reached.
fn hops(places: &[Place], from: usize) -> Option<usize> {
    let mut at = from;
    for k in 0..places.len() {
        if at >= places.len() || places[at].far == FAR {
            return None;
        }
        if places[at].far == 0 {
            return Some(k);
        }
        at = places[at].next as usize;
    }
    None
}

/// The links from a place to the root.
fn way_from(alloc: Global, places: &[Place], from: usize) -> Result<Option<Path>, NoMemory> {
    let Some(count) = hops(places, from) else {
        return Ok(None);
    };
    let mut path = List::from_vec(Vec::with_capacity(alloc, count)?);
    let mut at = from;
    for _ in 0..count {
        if at < places.len() {
            path.push(places[at].link)?;
            at = places[at].next as usize;
        }
    }
    Ok(Some(path))
}

/// A search over the links that survive.
fn reach_over(alloc: Global, graph: &Surviving, survives: &[bool]) -> Result<Reach, NoMemory> {
    let nodes = graph.net.nodes().len();
    let mut ends = starts(alloc, nodes, graph.net.links().items(), survives)?;
    Ok(Reach {
        arcs: arcs_of(alloc, graph, survives, ends.items_mut())?,
        ends,
        places: List::filled(alloc, unreached(), nodes)?,
        edge: List::filled(alloc, 0, nodes)?,
    })
}

impl Reach {
    /// Lists the arcs, each of length 1. It takes time in the nodes, and in the links times those that the state fails; memory in the nodes
    /// and links.
    pub fn new(alloc: Global, graph: &Surviving) -> Result<Reach, NoMemory> {
        let survives = surviving(alloc, graph)?;
        reach_over(alloc, graph, survives.items())
    }

    /// The arcs, whose lengths may be changed, without a copy. It takes constant time.
    pub fn arcs_mut(&mut self) -> &mut [Arc] {
        self.arcs.items_mut()
    }

    /// Searches from a root, no farther than to a node where one is given (Dijkstra's algorithm). It takes time in the square of the nodes
    /// and in the links, and no memory.
    pub fn search(&mut self, root: NodeId, last: Option<NodeId>) {
        let places = self.places.items_mut();
        places.fill(unreached());
        let mut edge = Edge {
            nodes: self.edge.items_mut(),
            count: 0,
        };
        let at = root.0 as usize;
        if at < places.len() {
            places[at].far = 0;
            edge.add(root.0);
        }
        let last = match last {
            Some(node) => node.0 as usize,
            None => places.len(),
        };
        settle_all(
            places,
            &mut edge,
            self.arcs.items(),
            self.ends.items(),
            last,
        );
    }

    /// How far a node is from the root, `FAR` where it isn't reached. It takes constant time.
    pub fn far(&self, node: NodeId) -> u64 {
        let at = node.0 as usize;
        let places = self.places.items();
        if at < places.len() {
            places[at].far
        } else {
            FAR
        }
    }

    /// The path from a node to the root, if it was reached. It takes time in the path's length, and memory for the path.
    pub fn path(&self, alloc: Global, from: NodeId) -> Result<Option<Path>, NoMemory> {
        way_from(alloc, self.places.items(), from.0 as usize)
    }

    /// The path from the root to a node, if it was reached. It takes time in the path's length, and memory for the path.
    pub fn path_back(&self, alloc: Global, to: NodeId) -> Result<Option<Path>, NoMemory> {
        let mut path = self.path(alloc, to)?;
        if let Some(path) = &mut path {
            path.items_mut().reverse();
        }
        Ok(path)
    }
}
